ghost use Rattle.std.specs.Prelude.{◌≡◌, ℕ, ◌≤◌, ◌==◌, filter, map, Contains, ◌↔◌, IfOk};
ghost use Rattle.std.specs.List.Sorted.{IsNonDecreasing};

use crate::arc_row::{ArcRow, NarrowArcs};
use crate::rows::{place_arcs, sort_rows, starts_of};
use std::alloc::{AllocError, Global};
use std::marker::Model;

/// An edge between the nodes `u` and `v`, which are numbers from 1, of weight `w`. It is walked both ways.
#[derive(Clone, Copy, Debug, PartialEq, Eq)]
pub struct Edge {
    pub u: u32,
    pub v: u32,
    pub w: u64,
}

/// An edge as it is seen from one of its ends: the node at the other, a number from 1, and the weight.
#[derive(Clone, Copy, Debug, PartialEq, Eq)]
pub struct Arc {
    pub to: u32,
    pub w: u64,
}

/// A weighted undirected graph with nodes 1..n. It may have parallel edges and self-loops.
#[derive(Debug, Drop)]
pub struct Graph {
    n: u32,
    edges: Vec<Edge>,
    /// The arcs of all nodes, by rising node and then by rising neighbour.
    arcs: Vec<Arc>,
    /// Where the arcs of each node begin, up to the last node that has an arc; the arcs of `v` are those from
    /// `starts[v - 1]` up to `starts[v]`. So a declared number of nodes takes no memory.
    starts: Vec<usize>,
    /// The arcs again, in half the room, or none at all.
    narrow: NarrowArcs,
}

impl Model for Graph {
    ghost use Rattle.std.specs.Prelude.{ℕ, ◌-◌, ◌<◌, ◌≤◌, [], All, length, slice_index, slice_range};
    ghost use Rattle.std.specs.List.Sorted.{IsNonDecreasing};
    ghost use Rattle.walk_laws.specs.ArcRows.{AreNarrowed};
    ghost use Rattle.walk_laws.specs.Graph.{WeightedGraph, IsGraph, IsRowOf, arcs_at};

    ghost Value = { WeightedGraph };

    ghost view = { λ g. record { n = g.n; edges = g.edges.items } };

    // a graph; the starts rise within the arcs, between that of a node and the next lies the node's row, and the rows of
    // later nodes are empty; the arcs in half the room are the same ones, or there are none
    ghost invariant = { λ g.
        let starts = g.starts.items in
        (IsGraph g.n g.edges.items
        × IsNonDecreasing starts
        × All (λ at. at ≤ length g.arcs.items) starts
        × ((v : ℕ) → 1 ≤ v → v < length starts → IsRowOf (arcs_at g.edges.items v) (slice_range g.arcs.items (slice_index starts (v - 1)) (slice_index starts v)))
        × ((v : ℕ) → length starts ≤ v → IsRowOf (arcs_at g.edges.items v) []))
        × AreNarrowed g.narrow.arcs.items g.narrow.starts.items g.arcs.items starts };
}

impl Graph {
    ghost use Rattle.walk_laws.specs.ArcRows.{arcs_in};
    ghost use Rattle.walk_laws.specs.Graph.{IsGraph, arcs_at};
    ghost use Rattle.walk_laws.specs.Joined.{Joined};

    /// The graph with nodes 1..n and these edges. It counts the arcs of each node, places them and sorts those of
    /// each node, in O(m log d) for m edges and d of them at a node; nodes after the last one with an edge cost nothing.
    /// The only error is that memory ran out.
    pub fn new(alloc: Global, n: u32, edges: Vec<Edge>) -> Result<Graph, AllocError>
        requires { IsGraph n edges.items }
        ensures n { IfOk result (λ g. g.n ≡ n) }
        ensures edges { IfOk result (λ g. g.edges ≡ edges.items) }
    {
        let mut starts = starts_of(alloc, &edges)?;
        let mut arcs = place_arcs(alloc, &edges, &mut starts)?;
        sort_rows(alloc, &mut arcs, &starts)?;
        Ok(Graph {
            n,
            edges,
            arcs,
            starts,
            narrow: NarrowArcs::none(alloc),
        })
    }

    /// The same graph, which has its arcs in half the room, too, where all weights are below 2^32: [`arc_row`](Graph::arc_row)
    /// lends them so. It takes 8 bytes for each arc, and 4 for each node. The only error is that memory ran out.
    pub fn with_narrow_arcs(self, alloc: Global) -> Result<Graph, AllocError>
        ensures { IfOk result (λ g. g ≡ self) }
    {
        let Graph {
            n,
            edges,
            arcs,
            starts,
            narrow: _,
        } = self;
        let narrow = NarrowArcs::of(alloc, &arcs, &starts)?;
        Ok(Graph {
            n,
            edges,
            arcs,
            starts,
            narrow,
        })
    }

    /// How many nodes there are.
    pub fn n(&self) -> u32
        ensures value { result ≡ self.now.n }
        ensures graph { IsGraph self.now.n self.now.edges }
    {
        self.n
    }

    /// The arcs at the node `v`, by rising neighbour; parallel ones stand in the order of the edges.
    /// It is a slice of what `new` sorted, in O(1). A self-loop stands there twice, once for each of its ends.
    pub fn arcs(&self, v: u32) -> &[Arc]
        requires node { 1 ≤ v }
        requires within { v ≤ self.now.n }
        ensures rising { IsNonDecreasing (map (λ a. a.to) result.now) }
        ensures each { (t : ℕ) → filter (λ a. a.to == t) result.now ≡ filter (λ a. a.to == t) (arcs_at self.now.edges v) }
        ensures joined { (t w : ℕ) → Contains result.now (record { to = t; w = w }) ↔ Joined self.now.edges v t w }
    {
        let v = v as usize;
        if v >= self.starts.len() {
            return &[];
        }
        &self.arcs[self.starts[v - 1]..self.starts[v]]
    }

    /// The arcs at the node `v`, those of [`arcs`](Graph::arcs), for a search: in half the room where the graph has them so,
    /// too. It takes O(1).
    #[inline(always)]
    pub fn arc_row(&self, v: u32) -> ArcRow<'_>
        requires node { 1 ≤ v }
        requires within { v ≤ self.now.n }
        ensures { (t w : ℕ) → Contains (arcs_in result) (record { to = t; w = w }) ↔ Joined self.now.edges v t w }
    {
        let node = v as usize;
        if node < self.narrow.starts.len() {
            let start = self.narrow.starts[node - 1] as usize;
            let end = self.narrow.starts[node] as usize;
            return ArcRow::Narrow(&self.narrow.arcs[start..end]);
        }
        if node >= self.starts.len() {
            return ArcRow::Wide(&[]);
        }
        ArcRow::Wide(&self.arcs[self.starts[node - 1]..self.starts[node]])
    }

    /// The edges, in the order in which they were given.
    pub fn edges(&self) -> &[Edge]
        ensures value { result.now ≡ self.now.edges }
        ensures graph { IsGraph self.now.n self.now.edges }
    {
        self.edges.as_slice()
    }
}
