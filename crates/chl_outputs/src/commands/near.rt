ghost use Rattle.std.specs.Prelude.{◌≡◌, List, length, IfOk};
ghost use Rattle.near_points.specs.declared.hit.Hit.{Hit as AnyHit};
ghost use Rattle.order_text.specs.OrderText.{AreWithin};
ghost use Rattle.chl_inputs.specs.Stages.{Conforms};
ghost use Rattle.chl_lines.specs.PrintedHits.{near_lines as lines_of_hits};
ghost use Rattle.chl_answers.specs.Commands.{AreNearest, hits_stage, near_stage};

use super::text::text_output;
use chl_inputs::{Stop, read_index, read_points, read_sources};
use chl_lines::near_lines;
use chl_words::Name;
use desk_io::Desk;
use hub_index::Index;
use index_file::Pieces;
use near_points::{Points, nearest_all};
use std::alloc::{AllocError, Global};
use std::thread::Threads;

/// The lines of the `k` points of a text that are nearest to each source of another, by the rows of an index file, of either
/// version: by rising distance, and of points that are as near the lower node first. Distances are right where the index is
/// that of the canonical hub labelling, and else what its rows say.
pub fn near_output<R: Threads + Sync, D: Desk>(
    rt: &R,
    alloc: Global,
    index: &Name,
    points: &Name,
    from: &Name,
    k: u32,
    desk: &mut D,
) -> Result<Pieces, Stop>
    ensures { Conforms D.Desk (near_stage index.now points.now from.now k) result desk.old desk.new }
{
    let stored = read_index(alloc, index.text(), desk)?;
    hits_output(
        rt,
        alloc,
        stored.index(),
        points.text(),
        from.text(),
        k,
        desk,
    )
}

/// The same of an index.
fn hits_output<R: Threads + Sync, D: Desk>(
    rt: &R,
    alloc: Global,
    index: &Index,
    points: &str,
    from: &str,
    k: u32,
    desk: &mut D,
) -> Result<Pieces, Stop>
    ensures { Conforms D.Desk (hits_stage index.now points.now from.now k) result desk.old desk.new }
{
    let points = read_points(alloc, points, index.n(), desk)?;
    let sources = read_sources(alloc, from, index.n(), desk)?;
    text_output(
        alloc,
        hits_text(rt, alloc, index, points.list(), sources.list(), k),
    )
}

/// The lines of the points that are nearest to each source.
fn hits_text<R: Threads + Sync>(
    rt: &R,
    alloc: Global,
    index: &Index,
    points: &[u32],
    sources: &[u32],
    k: u32,
) -> Result<Vec<u8>, AllocError>
    requires points { AreWithin (length index.now.order) points.now }
    requires sources { AreWithin (length index.now.order) sources.now }
    ensures { IfOk result (λ text. (hits : List (List AnyHit)) × AreNearest index.now points.now k sources.now hits
        × (text.items ≡ lines_of_hits sources.now hits)) }
{
    let points = Points::new(alloc, index, points)?;
    let hits = nearest_all(rt, alloc, index, &points, sources, k)?;
    near_lines(rt, alloc, sources, &hits)
}
