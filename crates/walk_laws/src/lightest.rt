ghost use Rattle.std.specs.Prelude.{◌≡◌, ◌↔◌, ℕ, ◌<◌, ◌++◌, List, All, Contains, Some, length, slice_get, IfOk, OnOk, IsTrue};
ghost use Rattle.std.specs.List.Sorted.{IsNonDecreasingBy};
ghost use Rattle.walk_laws.specs.declared.graph.Edge.{Edge as AnEdge};
ghost use Rattle.walk_laws.specs.Lightest.{AreLightest};
ghost use Rattle.walk_laws.specs.LightestArcs.{FollowsItsLike, IsLeastTo, IsLeastEdge};

use crate::graph::{Arc, Edge, Graph};
use std::alloc::{AllocError, Global};

impl Graph {
    /// The graph with the edges that matter alone: of the edges between two nodes the lightest, and no loop. Least lengths
    /// and hubs are the same in it (`laws::the_lightest_edges_keep_the_labelling`), and a search passes each road once.
    /// It goes along all arcs once. The only error is that memory ran out.
    pub fn lightest(&self, alloc: Global) -> Result<Graph, AllocError>
        ensures n { IfOk result (λ g. g.n ≡ self.now.n) }
        ensures lightest { IfOk result (λ g. AreLightest self.now.edges g.edges) }
    {
        let n = self.n();
        let mut edges = Vec::with_capacity(alloc, self.edges().len())?;
        for v in 1..n + 1 {
            push_lightest(&mut edges, v, self.arcs(v))?;
        }
        Graph::new(alloc, n, edges)
    }
}

/// Puts an edge after the others for each neighbour of `v` with a greater number, of the least weight of the arcs to it.
/// The only error is that memory ran out.
fn push_lightest(edges: &mut Vec<Edge>, v: u32, arcs: &[Arc]) -> Result<(), AllocError>
    requires { IsNonDecreasingBy (λ a. a.to) arcs.now }
    ensures { OnOk result ((more : List AnEdge) × (edges.new.items ≡ edges.old.items ++ more)
        × All (IsLeastEdge arcs.now v) more
        × ((t w : ℕ) → v < t → Contains arcs.now (record { to = t; w = w }) → (u : ℕ) × Contains more (record { u = v; v = t; w = u }))) }
{
    for k in 0..arcs.len() {
        let arc = arcs[k];
        if arc.to <= v || follows_its_like(arcs, k) {
            continue;
        }
        edges.push(Edge {
            u: v,
            v: arc.to,
            w: least_weight(&arcs[k..], arc),
        })?;
    }
    Ok(())
}

/// Whether the arc at a place leads to the same neighbour as the one before it.
fn follows_its_like(arcs: &[Arc], k: usize) -> bool
    requires { k < length arcs.now }
    ensures { IsTrue result ↔ FollowsItsLike arcs.now k }
{
    k > 0 && arcs[k - 1].to == arcs[k].to
}

/// The least weight of the arcs to the neighbour of the first one. They stand side by side.
fn least_weight(arcs: &[Arc], first: Arc) -> u64
    requires first { slice_get arcs.now 0 ≡ Some first }
    requires rising { IsNonDecreasingBy (λ a. a.to) arcs.now }
    ensures { IsLeastTo arcs.now first.to result }
{
    let mut least = first.w;
    for arc in arcs {
        if arc.to != first.to {
            return least;
        }
        least = least.min(arc.w);
    }
    least
}
