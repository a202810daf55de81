ghost use Rattle.std.specs.Prelude.{◌≡◌, ℕ, ◌≤◌, ◌∷◌, ◌++◌, List, Contains, Some, MatchOption, IfOk, drop, length, reverse, slice_get, take};
ghost use Rattle.walk_laws.specs.Graph.{IsGraph, WeightedGraph};
ghost use Rattle.walk_laws.specs.Joined.{Joined};
ghost use Rattle.walk_laws.specs.Labelling.{IsChl, label_row};
ghost use Rattle.walk_laws.specs.Meet.{IsMeet};
ghost use Rattle.hub_index.specs.WellFormed.{IsWellFormed};
ghost use Rattle.entry_vias.specs.RowVias.{AreVias, HaveVias};
ghost use Rattle.via_trace.specs.Traces.{ComesBy, BreaksAt, IsTraceOf, TellsTheTrace, entry_at};

use crate::lookup::entry_of;
use crate::trace_answer::Trace;
use entry_vias::TracedIndex;
use hub_query::{Answer, Nodes, ask};
use rank_table::Ranking;
use std::alloc::{AllocError, Global};

/// Puts the nodes from `u`, a number from 1, by vias to the hub at the position `pos`, from 0, after the others; or answers the node
/// from which no step leads nearer. The distance falls with each step, so it ends whatever the vias are. The only error is that
/// memory ran out.
fn push_way(
    traced: &TracedIndex,
    u: u32,
    pos: u32,
    nodes: &mut Vec<u32>,
) -> Result<Option<u32>, AllocError>
    requires well_formed { IsWellFormed traced.now.order traced.now.rows }
    requires have_vias { HaveVias traced.now.rows traced.now.vias }
    requires node { 1 ≤ u }
    requires within { u ≤ length traced.now.order }
    ensures { IfOk result (λ broken. MatchOption broken
        ((hub : ℕ) → slice_get traced.now.order pos ≡ Some hub → (d : ℕ) → Contains (label_row traced.now.rows u) (entry_at pos d)
        → (way : List ℕ) × ComesBy traced.now pos u d way hub 0 × (nodes.new.items ≡ nodes.old.items ++ u ∷ way))
        (λ at. (d : ℕ) → Contains (label_row traced.now.rows u) (entry_at pos d) → BreaksAt traced.now pos u d at)) }
{
    let mut at = u;
    nodes.push(at)?;
    let Some((mut left, mut via)) = entry_of(traced, at, pos) else {
        return Ok(None);
    };
    while left > 0 {
        match entry_of(traced, via, pos) {
            Some((dist, next)) if dist < left => {
                at = via;
                left = dist;
                via = next;
                nodes.push(at)?;
            }
            _ => return Ok(Some(at)),
        }
    }
    Ok(None)
}

/// The walk of the nodes `u` and `v`, numbers from 1, as the index and its vias tell it, whatever they are: from each of the two by
/// vias to the highest-ranked hub with the least sum of distances. Where a via leads no nearer to the hub the trace is broken
/// there. Where the index is the canonical hub labelling of a graph, with its vias, it is a shortest walk by way of the
/// highest-ranked node. It looks once into each row on the way, and want of memory is the only error.
///
/// In the square 1-2-3-4-1 of weights 1, of which a smaller number ranks higher, the via of node 3 for the hub 1 is 2:
///
/// ```text
/// trace(alloc, &traced, 1, 3) == Ok(Trace::Walk { length: 2, nodes: [1, 2, 3] })
/// ```
pub fn trace(alloc: Global, traced: &TracedIndex, u: u32, v: u32) -> Result<Trace, AllocError>
    requires first { 1 ≤ u }
    requires first_within { u ≤ length traced.now.order }
    requires second { 1 ≤ v }
    requires second_within { v ≤ length traced.now.order }
    ensures trace { IfOk result (IsTraceOf traced.now u v) }
    ensures walk { IfOk result (λ told. (graph : WeightedGraph) → IsGraph graph.n graph.edges → length traced.now.order ≡ graph.n
        → IsChl (Joined graph.edges) traced.now.order traced.now.rows → AreVias (Joined graph.edges) traced.now.rows traced.now.vias
        → TellsTheTrace (Joined graph.edges) traced.now.order u v told) }
{
    let index = traced.index();
    let ranking = index.ranking();
    match ask(index, u, v) {
        Answer::Far => Ok(Trace::Unreachable),
        Answer::Near { hub, dist } => trace_by(alloc, traced, ranking, u, v, hub, dist),
    }
}

/// The same where the rows of the two nodes meet at `hub`, a number from 1, with the sum `dist`.
fn trace_by(
    alloc: Global,
    traced: &TracedIndex,
    ranking: &Ranking,
    u: u32,
    v: u32,
    hub: u32,
    dist: u128,
) -> Result<Trace, AllocError>
    requires well_formed { IsWellFormed traced.now.order traced.now.rows }
    requires have_vias { HaveVias traced.now.rows traced.now.vias }
    requires ranking { ranking.now ≡ traced.now.order }
    requires first { 1 ≤ u }
    requires first_within { u ≤ length traced.now.order }
    requires second { 1 ≤ v }
    requires second_within { v ≤ length traced.now.order }
    requires meet { IsMeet traced.now.order traced.now.rows u v (Some (dist, hub)) }
    ensures { IfOk result (IsTraceOf traced.now u v) }
{
    let pos = ranking.pos(hub);
    let mut nodes = Vec::new(alloc);
    if let Some(at) = push_way(traced, u, pos, &mut nodes)? {
        return Ok(Trace::Broken { at, hub });
    }
    let middle = nodes.len();
    if let Some(at) = push_way(traced, v, pos, &mut nodes)? {
        return Ok(Trace::Broken { at, hub });
    }
    // The hub stands there already.
    nodes.truncate(nodes.len() - 1);
    turn_from(&mut nodes, middle);
    Ok(Trace::Walk {
        length: dist,
        nodes: Nodes::new(nodes),
    })
}

/// Turns the part from the place `middle` on.
fn turn_from(nodes: &mut [u32], middle: usize)
    requires { middle ≤ length nodes.old }
    ensures { nodes.new ≡ take middle nodes.old ++ reverse (drop middle nodes.old) }
{
    nodes[middle..].reverse();
}
