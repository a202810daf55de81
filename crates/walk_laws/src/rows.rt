ghost use Rattle.std.specs.Prelude.{◌≡◌, ℕ, true, ◌-◌, ◌*◌, ◌<◌, ◌+◌, ◌^◌, ◌≤◌, All, IfOk, OnOk, length, slice_index, slice_range, vec_len, set, if◌then◌else◌};
ghost use Rattle.std.specs.List.Sorted.{IsNonDecreasing};
ghost use Rattle.walk_laws.specs.Graph.{IsRowOf, arcs_at};
ghost use Rattle.walk_laws.specs.Rows.{AreWithin, IsPlaced, arcs_before, rows_before};

use crate::graph::{Arc, Edge};
use std::alloc::{AllocError, Global};

/// Up to so many nodes are swept in ranges of 2^16, and more in at most 16 ranges.
const LEAST_SWEPT: usize = 1 << 19;

/// How many arcs each node has, from node 0, which has none, up to the last one that an edge names.
/// The only error is that memory ran out.
fn degrees_of(alloc: Global, edges: &[Edge]) -> Result<Vec<usize>, AllocError>
    ensures nodes { IfOk result (λ degrees. AreWithin edges.now (vec_len degrees)) }
    ensures each { IfOk result (λ degrees. (v : ℕ) → v < vec_len degrees → slice_index degrees.items v ≡ length (arcs_at edges.now v)) }
{
    let mut degrees = vec![in alloc; 0usize; last_node(edges) + 1]?;
    for e in edges {
        degrees[e.u as usize] += 1;
        degrees[e.v as usize] += 1;
    }
    Ok(degrees)
}

/// The last node that an edge names, or 0 without edges.
fn last_node(edges: &[Edge]) -> usize
    ensures fits { result < 2 ^ 32 }
    ensures last { AreWithin edges.now (result + 1) }
{
    let mut last = 0;
    for e in edges {
        last = e.u.max(e.v).max(last);
    }
    last as usize
}

/// Where the arcs of each node are to begin, from node 0 up to the last one that an edge names.
/// The only error is that memory ran out.
pub fn starts_of(alloc: Global, edges: &[Edge]) -> Result<Vec<usize>, AllocError>
    ensures nodes { IfOk result (λ starts. AreWithin edges.now (vec_len starts)) }
    ensures each { IfOk result (λ starts. (v : ℕ) → v < vec_len starts → slice_index starts.items v ≡ arcs_before edges.now v) }
{
    let mut starts = degrees_of(alloc, edges)?;
    let mut at = 0;
    for v in 0..starts.len() {
        let degree = starts[v];
        starts[v] = at;
        at += degree;
    }
    Ok(starts)
}

/// The arcs of all edges, those of each node from its start on, in the order of the edges. Each start moves to where the
/// arcs of its node end, which is the start of the next one. The only error is that memory ran out.
pub fn place_arcs(alloc: Global, edges: &[Edge], next: &mut [usize]) -> Result<Vec<Arc>, AllocError>
    requires nodes { AreWithin edges.now (length next.old) }
    requires starts { (v : ℕ) → v < length next.old → slice_index next.old v ≡ arcs_before edges.now v }
    ensures placed { IfOk result (λ arcs. IsPlaced edges.now (arcs_at edges.now) arcs.items next.new) }
    ensures len { length next.new ≡ length next.old }
{
    let mut arcs = vec![in alloc; Arc { to: 0, w: 0 }; 2 * edges.len()]?;
    place_each(edges, &mut arcs, next);
    Ok(arcs)
}

/// Puts both arcs of each edge where the next one of its node is to stand. The nodes are taken in ranges of `2 ^ shift`, and
/// each range in a sweep over all edges, so that the places that are written in a sweep fit into a cache.
fn place_each(edges: &[Edge], arcs: &mut [Arc], next: &mut [usize])
    requires room { 2 * length edges.now ≤ length arcs.old }
    requires nodes { AreWithin edges.now (length next.old) }
    requires starts { (v : ℕ) → v < length next.old → slice_index next.old v ≡ arcs_before edges.now v }
    ensures placed { IsPlaced edges.now (arcs_at edges.now) arcs.new next.new }
    ensures len { length next.new ≡ length next.old }
{
    let shift = next.len().max(LEAST_SWEPT).ilog2().saturating_sub(3);
    for range in 0..(next.len() >> shift) + 1 {
        place_range(edges, arcs, next, shift, range);
    }
}

/// Puts the arcs of the nodes of one range, where those of the ranges before it stand.
fn place_range(edges: &[Edge], arcs: &mut [Arc], next: &mut [usize], shift: u32, range: usize)
    requires shift { shift < 64 }
    requires nodes { AreWithin edges.now (length next.old) }
    requires placed { IsPlaced edges.now (rows_before (arcs_at edges.now) shift range) arcs.old next.old }
    ensures placed { IsPlaced edges.now (rows_before (arcs_at edges.now) shift (range + 1)) arcs.new next.new }
    ensures len { length next.new ≡ length next.old }
{
    for e in edges {
        let u = e.u as usize;
        let v = e.v as usize;
        place_if(u >> shift == range, arcs, next, u, Arc { to: e.v, w: e.w });
        place_if(v >> shift == range, arcs, next, v, Arc { to: e.u, w: e.w });
    }
}

/// Puts an arc of the node `v` where its next one is to stand, if it is to be placed now.
fn place_if(is_now: bool, arcs: &mut [Arc], next: &mut [usize], v: usize, arc: Arc)
    requires node { v < length next.old }
    requires room { is_now ≡ true → slice_index next.old v < length arcs.old }
    ensures arcs { arcs.new ≡ (if is_now then set arcs.old (slice_index next.old v) arc else arcs.old) }
    ensures next { next.new ≡ (if is_now then set next.old v (slice_index next.old v + 1) else next.old) }
    ensures len { length next.new ≡ length next.old }
{
    if is_now {
        let at = next[v];
        arcs[at] = arc;
        next[v] = at + 1;
    }
}

/// Sorts the arcs of each node by rising neighbour; ties keep their order. Those of `v` lie between `ends[v - 1]` and
/// `ends[v]`. The only error is that memory ran out.
pub fn sort_rows(alloc: Global, arcs: &mut [Arc], ends: &[usize]) -> Result<(), AllocError>
    requires rising { IsNonDecreasing ends.now }
    requires within { All (λ at. at ≤ length arcs.old) ends.now }
    ensures len { length arcs.new ≡ length arcs.old }
    ensures rows { OnOk result ((v : ℕ) → 1 ≤ v → v < length ends.now →
        IsRowOf (slice_range arcs.old (slice_index ends.now (v - 1)) (slice_index ends.now v)) (slice_range arcs.new (slice_index ends.now (v - 1)) (slice_index ends.now v))) }
{
    for v in 1..ends.len() {
        sort_row(alloc, &mut arcs[ends[v - 1]..ends[v]])?;
    }
    Ok(())
}

/// Sorts arcs by rising neighbour; ties keep their order. The only error is that memory ran out.
fn sort_row(alloc: Global, row: &mut [Arc]) -> Result<(), AllocError>
    ensures len { length row.new ≡ length row.old }
    ensures row { OnOk result (IsRowOf row.old row.new) }
{
    row.sort_by_key(alloc, |a| a.to)?;
    Ok(())
}
