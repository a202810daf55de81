ghost use Rattle.std.specs.Prelude.{◌≡◌, ◌↔◌, ℕ, ◌+◌, ◌^◌, ◌<◌, ◌≤◌, Some, All, length, map, slice_get, Contains, IfOk, OnOk};
ghost use Rattle.walk_laws.specs.ArcRows.{arcs_in};
ghost use Rattle.walk_laws.specs.Canonical.{IsCanonical};
ghost use Rattle.walk_laws.specs.Graph.{IsGraph};
ghost use Rattle.walk_laws.specs.Joined.{Joined};
ghost use Rattle.plant_tree.specs.Planted.{AreOfNodes, NamesEachOnce};
ghost use Rattle.plant_tree.specs.Relaxed.{relaxed_all};
ghost use Rattle.plant_tree.specs.Wanted.{wants, wanted, labels_with};

use crate::highest::Highest;
use crate::tree::Planted;
use frontier::{Found, Frontier, Reach};
use rank_table::Ranking;
use std::alloc::{AllocError, Global};
use std::marker::Model;
use walk_laws::{AnyArc, ArcRow, Dist, Graph};

/// Plants the trees of a graph's roots one after another, in memory that is taken once. Contracts see the number of nodes.
#[derive(Debug, Drop)]
pub struct Planter {
    n: u32,
    frontier: Frontier<Highest>,
}

impl Model for Planter {
    ghost use Rattle.std.specs.Prelude.{◌≡◌, ℕ, ◌+◌, length};

    ghost Value = { ℕ };

    ghost view = { λ p. p.n };

    ghost invariant = { λ p. length p.frontier ≡ p.n + 1 };
}

impl Planter {
    /// A planter for graphs with the nodes 1..n. The only error is that memory ran out.
    pub fn new(alloc: Global, n: u32) -> Result<Planter, AllocError>
        ensures { IfOk result (λ planter. planter ≡ n) }
    {
        Ok(Planter {
            n,
            frontier: Frontier::new(alloc, n)?,
        })
    }

    /// The planted tree of the node at the position `p`, which counts from 0, in no particular order: the nodes for which
    /// that node is canonical, each once, with their distances; and how many nodes were settled. The cost is that of the
    /// nodes that the tree reaches. The only error is that memory ran out, and the planter can plant on after it.
    ///
    /// Each round settles a nearest queued node and offers its neighbours the walks by way of it. Of the walks that a node
    /// is offered the shortest count, and it carries the highest-ranked node on any of these. The tree ends once no
    /// queued node carries the root, since no node after one that carries another has the root for its hub.
    pub fn plant(
        &mut self,
        alloc: Global,
        graph: &Graph,
        ranking: &Ranking,
        p: u32,
    ) -> Result<(Planted, u32), AllocError>
        requires nodes { self.old ≡ graph.now.n }
        requires ranked { length ranking.now ≡ graph.now.n }
        requires position { p < length ranking.now }
        ensures same { self.new ≡ self.old }
        ensures nodes { IfOk result (λ tree. AreOfNodes graph.now.n tree.0.items) }
        ensures once { IfOk result (λ tree. NamesEachOnce tree.0.items) }
        ensures each { IfOk result (λ tree. (h v d : ℕ) → slice_get ranking.now p ≡ Some h
            → (Contains tree.0.items (v, d) ↔ IsCanonical (Joined graph.now.edges) ranking.now h v d)) }
    {
        let nodes = graph.n();
        prove!(nodes == self.n);
        grow(&mut self.frontier, alloc, graph, ranking, p)
    }
}

/// Grows the tree of the root at the position `p` in a frontier for the nodes of the graph, whatever it held before.
fn grow(
    frontier: &mut Frontier<Highest>,
    alloc: Global,
    graph: &Graph,
    ranking: &Ranking,
    p: u32,
) -> Result<(Planted, u32), AllocError>
    requires nodes { length frontier.old ≡ graph.now.n + 1 }
    requires graph { IsGraph graph.now.n graph.now.edges }
    requires ranked { length ranking.now ≡ graph.now.n }
    requires position { p < length ranking.now }
    ensures same { length frontier.new ≡ length frontier.old }
    ensures nodes { IfOk result (λ tree. AreOfNodes graph.now.n tree.0.items) }
    ensures once { IfOk result (λ tree. NamesEachOnce tree.0.items) }
    ensures each { IfOk result (λ tree. (h v d : ℕ) → slice_get ranking.now p ≡ Some h
        → (Contains tree.0.items (v, d) ↔ IsCanonical (Joined graph.now.edges) ranking.now h v d)) }
{
    frontier.clear();
    frontier.offer(ranking.at(p), 0, Highest { position: p })?;
    let mut planted = Vec::new(alloc);
    let mut settled = 0;
    // how many queued nodes carry the root
    let mut wanted = 1;
    while wanted > 0 {
        let Some((v, found)) = frontier.take() else {
            return Ok((planted, settled));
        };
        settled += 1;
        wanted -= wants(Reach::Queued(found), p);
        label(&mut planted, v, found, p)?;
        wanted = relax_row(frontier, graph.arc_row(v), ranking, p, found, wanted)?;
    }
    Ok((planted, settled))
}

/// Offers the walks along the arcs of a node with what was found of it to the nodes at their ends. Of so many queued nodes
/// that carry the root at the position `p` it answers how many there are then. The only error is that memory ran out.
fn relax_row(
    frontier: &mut Frontier<Highest>,
    row: ArcRow<'_>,
    ranking: &Ranking,
    p: u32,
    found: Found<Highest>,
    count: u32,
) -> Result<u32, AllocError>
    requires nodes { length frontier.old ≡ length ranking.now + 1 }
    requires few { length ranking.now ≤ 2 ^ 30 }
    requires ends { All (λ a. (1 ≤ a.to) × (a.to ≤ length ranking.now)) (arcs_in row) }
    requires fits { All (λ a. found.dist + a.w < 2 ^ 96) (arcs_in row) }
    requires count { count ≡ wanted p frontier.old }
    ensures same { length frontier.new ≡ length frontier.old }
    ensures relaxed { OnOk result (frontier.new ≡ relaxed_all ranking.now found (arcs_in row.entry) frontier.old) }
    ensures count { IfOk result (λ count. count ≡ wanted p frontier.new) }
{
    match row {
        ArcRow::Narrow(arcs) => relax(frontier, arcs, ranking, p, found, count),
        ArcRow::Wide(arcs) => relax(frontier, arcs, ranking, p, found, count),
    }
}

/// The same along arcs in whatever room.
fn relax<A: AnyArc>(
    frontier: &mut Frontier<Highest>,
    arcs: &[A],
    ranking: &Ranking,
    p: u32,
    found: Found<Highest>,
    count: u32,
) -> Result<u32, AllocError>
    requires nodes { length frontier.old ≡ length ranking.now + 1 }
    requires few { length ranking.now ≤ 2 ^ 30 }
    requires ends { All (λ a. (1 ≤ a.to) × (a.to ≤ length ranking.now)) (map (λ a. A.arc a) arcs.now) }
    requires fits { All (λ a. found.dist + a.w < 2 ^ 96) (map (λ a. A.arc a) arcs.now) }
    requires count { count ≡ wanted p frontier.old }
    ensures same { length frontier.new ≡ length frontier.old }
    ensures relaxed { OnOk result (frontier.new ≡ relaxed_all ranking.now found (map (λ a. A.arc a) arcs.now) frontier.old) }
    ensures count { IfOk result (λ count. count ≡ wanted p frontier.new) }
{
    let mut wanted = count;
    for arc in arcs {
        let arc = arc.widened();
        let dist = found.dist + arc.w as u128;
        let before = frontier.reach(arc.to);
        if !before.improves(dist) {
            continue;
        }
        let carried = Highest {
            position: found.carried.position.min(ranking.pos(arc.to)),
        };
        let after = frontier.offer_from(arc.to, before, dist, carried)?;
        wanted -= wants(before, p);
        wanted += wants(after, p);
    }
    Ok(wanted)
}

/// 1 for a queued node that carries the root at the position `p`.
fn wants(reach: Reach<Highest>, p: u32) -> u32
    ensures { result ≡ wants p reach }
{
    match reach {
        Reach::Queued(found) if found.carried.position == p => 1,
        _ => 0,
    }
}

/// Puts a settled node among the planted ones where it carries the root at the position `p`.
fn label(planted: &mut Planted, v: u32, found: Found<Highest>, p: u32) -> Result<(), AllocError>
    requires { found.dist < 2 ^ 96 }
    ensures { OnOk result (planted.new.items ≡ labels_with p planted.old.items v found) }
{
    if found.carried.position == p {
        planted.push((v, Dist::of(found.dist)))?;
    }
    Ok(())
}
