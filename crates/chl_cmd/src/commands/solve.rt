ghost use Rattle.chl_inputs.specs.Stages.{Conforms};
ghost use Rattle.chl_answers.specs.Commands.{solve_stage};
ghost use Rattle.chl_words.specs.Asking.{AreWithinLimits};

use crate::labelling::{labelling, unbuilt};
use chl_inputs::{Stop, read_graph, read_order, read_pairs};
use chl_outputs::{replies_text, text_output};
use chl_words::{Construction, Name};
use desk_io::{Desk, Gate};
use index_file::Pieces;
use std::alloc::Global;
use std::sync::Wait;
use std::thread::Threads;

/// The lines of the distances of the pairs of a text in a graph, each with the highest-ranked node between, by the rows of the
/// graph's labelling.
pub fn solve_output<R: Threads + Wait + Sync, D: Desk, G: Gate + Sync>(
    rt: &R,
    alloc: Global,
    graph: &Name,
    order: &Name,
    pairs: &Name,
    construction: Construction,
    desk: &mut D,
    gate: &G,
) -> Result<Pieces, Stop>
    requires { AreWithinLimits construction.workers construction.cut }
    ensures { Conforms D.Desk (solve_stage graph.now order.now pairs.now) result desk.old desk.new }
{
    let graph = read_graph(alloc, graph.text(), desk)?;
    let ranking = read_order(alloc, order.text(), graph.n(), desk)?;
    let pairs = read_pairs(alloc, pairs.text(), graph.n(), desk)?;
    let index = labelling(rt, alloc, &graph, &ranking, construction, gate).map_err(unbuilt)?;
    text_output(alloc, replies_text(rt, alloc, &index, &pairs))
}
