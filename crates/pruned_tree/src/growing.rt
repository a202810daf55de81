ghost use Rattle.std.specs.Prelude.{◌≡◌, ℕ, ◌+◌, ◌^◌, ◌<◌, ◌≤◌, All, Some, length, map, slice_get, OnOk};
ghost use Rattle.walk_laws.specs.ArcRows.{arcs_in};
ghost use Rattle.walk_laws.specs.Graph.{IsGraph};
ghost use Rattle.walk_laws.specs.Joined.{Joined};
ghost use Rattle.walk_laws.specs.Ranking.{IsRanking};
ghost use Rattle.pruned_tree.specs.Grown.{IsGrown};
ghost use Rattle.pruned_tree.specs.Loaded.{IsRootTable};
ghost use Rattle.pruned_tree.specs.Relaxed.{IsRelaxed};

use crate::bare::Bare;
use crate::work::Work;
use frontier::Frontier;
use hub_index::{Entry, Offer, RootTable, RowView};
use rank_table::Ranking;
use std::alloc::{AllocError, Global};
use walk_laws::{AnyArc, ArcRow, Dist, Graph};

/// Grows the pruned tree of the root at the position `p`, which counts from 0, and answers how many entries it put.
///
/// It takes nodes by rising distance from the root, but none that ranks above it, and offers each the root's entry; where
/// that is put, the node's arcs are gone along. Whatever rows the view finds, the root is put as a hub of each node for
/// which it is canonical; over rows that have all hubs that rank above it, as a hub of no other. What it puts at a node is
/// shorter than each way by a higher hub that the view had seen of the root and of the node. The only error is that memory
/// ran out; the entries put by then stay.
pub fn grow<R: RowView>(
    _alloc: Global,
    graph: &Graph,
    ranking: &Ranking,
    p: u32,
    view: &mut R,
    work: &mut Work,
) -> Result<u32, AllocError>
    requires nodes { work.old ≡ graph.now.n }
    requires ranked { length ranking.now ≡ graph.now.n }
    requires position { p < length ranking.now }
    requires edges { R.edges view.old ≡ graph.now.edges }
    requires order { R.order view.old ≡ ranking.now }
    ensures same { work.new ≡ work.old }
    ensures edges { R.edges view.new ≡ graph.now.edges }
    ensures order { R.order view.new ≡ ranking.now }
    ensures kept { R.kept view.new ≡ R.kept view.old }
    ensures grown { IsGrown graph.now.edges ranking.now p (R.seen view.old) (R.puts view.old) (R.puts view.new) result }
{
    let nodes = graph.n();
    prove!(nodes == work.n);
    let ranked = ranking.n();
    prove!(ranked == nodes);
    view.load_root(ranking.at(p), &mut work.table);
    grow_from(&mut work.frontier, graph, ranking, p, view, &work.table)
}

/// Grows the tree in a frontier for the nodes of the graph, whatever it held before, where the table has the distances of
/// the row that was last seen of the root.
fn grow_from<R: RowView>(
    frontier: &mut Frontier<Bare>,
    graph: &Graph,
    ranking: &Ranking,
    p: u32,
    view: &mut R,
    table: &RootTable,
) -> Result<u32, AllocError>
    requires nodes { length frontier.old ≡ graph.now.n + 1 }
    requires size { length table.now ≡ graph.now.n }
    requires graph { IsGraph graph.now.n graph.now.edges }
    requires ranked { length ranking.now ≡ graph.now.n }
    requires ranking { IsRanking ranking.now }
    requires position { p < length ranking.now }
    requires edges { R.edges view.old ≡ graph.now.edges }
    requires order { R.order view.old ≡ ranking.now }
    requires root { (h : ℕ) → slice_get ranking.now p ≡ Some h
        → IsRootTable (Joined graph.now.edges) ranking.now h (R.seen view.old h) table.now }
    ensures same { length frontier.new ≡ length frontier.old }
    ensures edges { R.edges view.new ≡ graph.now.edges }
    ensures order { R.order view.new ≡ ranking.now }
    ensures kept { R.kept view.new ≡ R.kept view.old }
    ensures grown { IsGrown graph.now.edges ranking.now p (R.seen view.old) (R.puts view.old) (R.puts view.new) result }
{
    frontier.clear();
    frontier.offer(ranking.at(p), 0, Bare {})?;
    let mut count = 0;
    while let Some((v, found)) = frontier.take() {
        let entry = Entry {
            pos: p,
            dist: Dist::of(found.dist),
        };
        match view.offer(v, entry, table) {
            Offer::Put => {}
            Offer::Covered { .. } => continue,
            Offer::NoMemory => return Err(AllocError),
        }
        count += 1;
        relax_row(frontier, graph.arc_row(v), ranking, p, found.dist)?;
    }
    Ok(count)
}

/// Offers the walks along the arcs of a node that is `dist` from the root at the position `p`, which counts from 0, to the
/// nodes at their ends that don't rank above the root. The only error is that memory ran out.
pub fn relax_row(
    frontier: &mut Frontier<Bare>,
    row: ArcRow<'_>,
    ranking: &Ranking,
    p: u32,
    dist: u128,
) -> Result<(), AllocError>
    requires ends { All (λ a. (1 ≤ a.to) × (a.to ≤ length ranking.now)) (arcs_in row) }
    requires fits { All (λ a. dist + a.w < 2 ^ 96) (arcs_in row) }
    requires nodes { length frontier.old ≡ length ranking.now + 1 }
    ensures same { length frontier.new ≡ length frontier.old }
    ensures relaxed { OnOk result (IsRelaxed ranking.now p dist (length (arcs_in row.entry)) (arcs_in row.entry) frontier.old frontier.new) }
{
    match row {
        ArcRow::Narrow(arcs) => relax(frontier, arcs, ranking, p, dist),
        ArcRow::Wide(arcs) => relax(frontier, arcs, ranking, p, dist),
    }
}

/// The same along arcs in whatever room.
fn relax<A: AnyArc>(
    frontier: &mut Frontier<Bare>,
    arcs: &[A],
    ranking: &Ranking,
    p: u32,
    dist: u128,
) -> Result<(), AllocError>
    requires ends { All (λ a. (1 ≤ a.to) × (a.to ≤ length ranking.now)) (map (λ a. A.arc a) arcs.now) }
    requires fits { All (λ a. dist + a.w < 2 ^ 96) (map (λ a. A.arc a) arcs.now) }
    requires nodes { length frontier.old ≡ length ranking.now + 1 }
    ensures same { length frontier.new ≡ length frontier.old }
    ensures relaxed { OnOk result (IsRelaxed ranking.now p dist (length (map (λ a. A.arc a) arcs.now)) (map (λ a. A.arc a) arcs.now) frontier.old frontier.new) }
{
    for arc in arcs {
        let arc = arc.widened();
        let reached = dist + arc.w as u128;
        let before = frontier.reach(arc.to);
        if !before.improves(reached) {
            continue;
        }
        if ranking.pos(arc.to) >= p {
            frontier.offer_from(arc.to, before, reached, Bare {})?;
        }
    }
    Ok(())
}
