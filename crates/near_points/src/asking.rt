ghost use Rattle.std.specs.Prelude.{◌≡◌, ℕ, ◌<◌, ◌≤◌, All, length, IfOk};
ghost use Rattle.std.specs.List.{AllZip};
ghost use Rattle.hub_query.specs.Parts.{AreJoined};
ghost use Rattle.near_points.specs.PointSets.{IsNearestOf};

use crate::hits::Hits;
use crate::points::Points;
use crate::workspace::Workspace;
use hub_index::Index;
use rayon::current_num_threads;
use rayon::prelude::*;
use std::alloc::{AllocError, Global};
use std::thread::Threads;

/// The `k` points nearest to each of the sources, nodes numbered from 1, in the order of the sources, by as many threads as
/// there are processors: one workspace serves all sources of a part. The only error is that memory ran out.
pub fn nearest_all<R: Threads + Sync>(
    rt: &R,
    alloc: Global,
    index: &Index,
    points: &Points,
    sources: &[u32],
    k: u32,
) -> Result<Hits, AllocError>
    requires index { points.now.index ≡ index.now }
    requires sources { All (λ s. (1 ≤ s) × (s ≤ length index.now.order)) sources.now }
    ensures nearest { IfOk result (λ hits. AllZip (IsNearestOf points.now k) sources.now hits) }
{
    let parts: Vec<Result<Hits, AllocError>> = sources
        .par_chunks(part_len(rt, sources.len()))
        .map(
            |part: &[u32]| -> Result<Hits, AllocError>
                requires { (points.now.index ≡ index.now) × All (λ s. (1 ≤ s) × (s ≤ length index.now.order)) part.now }
                ensures { IfOk result (λ hits. AllZip (IsNearestOf points.entry.now k) part.entry.now hits) }
            { nearest_part(alloc, index, points, part, k) },
        )
        .collect(rt, alloc)?;
    join_parts(alloc, parts)
}

/// How many sources a part has of so many: one part for each thread, so that few workspaces are made.
fn part_len<R: Threads>(rt: &R, count: usize) -> usize
    ensures { 0 < result }
{
    count.div_ceil(current_num_threads(rt).max(1)).max(64)
}

/// The hits of all parts, one after another. The only error is that memory ran out.
fn join_parts(alloc: Global, parts: Vec<Result<Hits, AllocError>>) -> Result<Hits, AllocError>
    ensures { IfOk result (λ hits. AreJoined (λ part. part) parts.items hits) }
{
    let mut hits = Hits::new(alloc);
    for part in parts {
        hits.append(&part?)?;
    }
    Ok(hits)
}

/// The points nearest to each of the sources, in their order, by one thread. The only error is that memory ran out.
fn nearest_part(
    alloc: Global,
    index: &Index,
    points: &Points,
    sources: &[u32],
    k: u32,
) -> Result<Hits, AllocError>
    requires index { points.now.index ≡ index.now }
    requires sources { All (λ s. (1 ≤ s) × (s ≤ length index.now.order)) sources.now }
    ensures { IfOk result (λ hits. AllZip (IsNearestOf points.now k) sources.now hits) }
{
    let mut workspace = Workspace::new(alloc, index.n())?;
    let mut hits = Hits::new(alloc);
    for source in sources {
        workspace.find(points, index, *source, k)?;
        hits.push(workspace.hits())?;
    }
    Ok(hits)
}
