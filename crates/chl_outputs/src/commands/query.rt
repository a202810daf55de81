ghost use Rattle.std.specs.Prelude.{◌≡◌, ℕ, List, Option, length, IfOk};
ghost use Rattle.walk_laws.specs.Meet.{IsMeet};
ghost use Rattle.chl_inputs.specs.Inputs.{ArePairsWithin};
ghost use Rattle.chl_inputs.specs.Stages.{Conforms};
ghost use Rattle.chl_lines.specs.PrintedAnswers.{answer_lines as lines_of_answers};
ghost use Rattle.chl_answers.specs.Commands.{AreAnswers, query_stage};

use super::text::text_output;
use chl_inputs::{Stop, read_index, read_pairs};
use chl_lines::answer_lines;
use chl_words::Name;
use desk_io::Desk;
use dimacs_text::Pairs;
use hub_index::Index;
use hub_query::ask_all;
use index_file::Pieces;
use std::alloc::{AllocError, Global};
use std::thread::Threads;

/// The lines of what the rows of an index file, of either version, say of the pairs of a text: right answers where the index is that of the
/// canonical hub labelling, and else no worse than what its rows have.
pub fn query_output<R: Threads + Sync, D: Desk>(
    rt: &R,
    alloc: Global,
    index: &Name,
    pairs: &Name,
    desk: &mut D,
) -> Result<Pieces, Stop>
    ensures { Conforms D.Desk (query_stage index.now pairs.now) result desk.old desk.new }
{
    let stored = read_index(alloc, index.text(), desk)?;
    let index = stored.index();
    let pairs = read_pairs(alloc, pairs.text(), index.n(), desk)?;
    text_output(alloc, replies_text(rt, alloc, index, &pairs))
}

/// The lines of what the rows say of the pairs.
pub fn replies_text<R: Threads + Sync>(
    rt: &R,
    alloc: Global,
    index: &Index,
    pairs: &Pairs,
) -> Result<Vec<u8>, AllocError>
    requires within { ArePairsWithin (length index.now.order) pairs.now }
    ensures { IfOk result (λ text. (answers : List (Option (ℕ × ℕ))) × AreAnswers (IsMeet index.now.order index.now.rows) pairs.now answers
        × (text.items ≡ lines_of_answers pairs.now answers)) }
{
    let answers = ask_all(rt, alloc, index, pairs)?;
    answer_lines(rt, alloc, pairs.list(), answers.list())
}
