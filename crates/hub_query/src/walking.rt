ghost use Rattle.std.specs.Prelude.{◌≡◌, ◌↔◌, ℕ, ◌≤◌, List, MatchOption, IsTrue, IfOk, length};
ghost use Rattle.walk_laws.specs.declared.graph.Edge.{Edge};
ghost use Rattle.walk_laws.specs.Graph.{IsGraph};
ghost use Rattle.walk_laws.specs.Joined.{Joined};
ghost use Rattle.walk_laws.specs.Labelling.{IsChl};
ghost use Rattle.hub_index.specs.WellFormed.{IsWellFormed};
ghost use Rattle.hub_query.specs.Paths.{AreApartBy, IsOnward, LeadsOn, IsPathOf, TellsTheWalk};

use crate::answer::Answer;
use crate::meeting::ask;
use crate::nodes::Nodes;
use crate::path_answer::Path;
use hub_index::Index;
use std::alloc::{AllocError, Global};
use walk_laws::{Arc, Graph};

/// Whether the rows of the nodes `x` and `v`, numbers from 1, say that they are `dist` apart.
fn are_apart_by(index: &Index, x: u32, v: u32, dist: u128) -> bool
    requires first { 1 ≤ x }
    requires first_within { x ≤ length index.now.order }
    requires second { 1 ≤ v }
    requires second_within { v ≤ length index.now.order }
    ensures { IsTrue result ↔ AreApartBy index.now x v dist }
{
    match ask(index, x, v) {
        Answer::Far => false,
        Answer::Near { dist: far, hub: _ } => far == dist,
    }
}

/// The arc from `x` to the least node that is onward to `v`, where the rows put `x` at `left` from it.
fn arc_onward(graph: &Graph, index: &Index, x: u32, v: u32, left: u128) -> Option<Arc>
    requires graph { IsGraph graph.now.n graph.now.edges }
    requires size { length index.now.order ≡ graph.now.n }
    requires first { 1 ≤ x }
    requires first_within { x ≤ graph.now.n }
    requires second { 1 ≤ v }
    requires second_within { v ≤ graph.now.n }
    ensures { MatchOption result ((y : ℕ) → ¬ IsOnward (Joined graph.now.edges) index.now v x left y)
        (λ arc. LeadsOn (Joined graph.now.edges) index.now v x left arc) }
{
    for arc in graph.arcs(x) {
        let w = u128::from(arc.w);
        if w <= left && are_apart_by(index, arc.to, v, left - w) {
            return Some(*arc);
        }
    }
    None
}

/// The walk of the nodes `u` and `v`, numbers from 1, by the rows of the index, whatever the index is. At each node it goes
/// on to the least neighbour by which the rows say that the way is no longer; where none is, it is stuck, and the index is of
/// another graph. Each walk is a walk of the graph, as long as the rows say of `u` and `v`. Where the rows are the canonical
/// hub labelling of the graph, it is the shortest walk whose nodes come first in lexicographic order. Want of memory is the
/// only error.
///
/// In the square 1-2-3-4-1 of weights 1 two shortest walks lead from 2 to 4, and the one by 1 comes first:
///
/// ```text
/// path(alloc, &graph, &index, 2, 4) == Ok(Path::Walk { length: 2, nodes: [2, 1, 4] })
/// ```
pub fn path(alloc: Global, graph: &Graph, index: &Index, u: u32, v: u32) -> Result<Path, AllocError>
    requires first { 1 ≤ u }
    requires first_within { u ≤ length index.now.order }
    requires second { 1 ≤ v }
    requires second_within { v ≤ length index.now.order }
    ensures path { IfOk result (IsPathOf graph.now index.now u v) }
    ensures answer { IfOk result (λ told. IsChl (Joined graph.now.edges) index.now.order index.now.rows → TellsTheWalk (Joined graph.now.edges) u v told) }
{
    if graph.n() != index.n() {
        return Ok(Path::Sizes {
            graph: graph.n(),
            index: index.n(),
        });
    }
    match ask(index, u, v) {
        Answer::Far => Ok(Path::Unreachable),
        Answer::Near { dist, hub: _ } => walk(alloc, graph, index, u, v, dist),
    }
}

/// The same where the rows say that the nodes are `far` apart.
fn walk(
    alloc: Global,
    graph: &Graph,
    index: &Index,
    u: u32,
    v: u32,
    far: u128,
) -> Result<Path, AllocError>
    requires graph { IsGraph graph.now.n graph.now.edges }
    requires size { length index.now.order ≡ graph.now.n }
    requires first { 1 ≤ u }
    requires first_within { u ≤ graph.now.n }
    requires second { 1 ≤ v }
    requires second_within { v ≤ graph.now.n }
    requires well_formed { IsWellFormed index.now.order index.now.rows }
    requires far { AreApartBy index.now u v far }
    ensures { IfOk result (IsPathOf graph.now index.now u v) }
{
    let mut nodes = vec![in alloc; u]?;
    let (mut at, mut left) = (u, far);
    while at != v {
        let Some(arc) = arc_onward(graph, index, at, v, left) else {
            return Ok(Path::Stuck { at, to: v });
        };
        at = arc.to;
        left -= u128::from(arc.w);
        nodes.push(at)?;
    }
    Ok(Path::Walk {
        length: far,
        nodes: Nodes::new(nodes),
    })
}
