ghost use Rattle.std.specs.Prelude.{◌≡◌, ℕ, ◌+◌, ◌<◌, All, length, slice_get, Some, OnOk};
ghost use Rattle.walk_laws.specs.Graph.{IsGraph};
ghost use Rattle.walk_laws.specs.Joined.{Joined};
ghost use Rattle.walk_laws.specs.Labelling.{label_row};
ghost use Rattle.walk_laws.specs.Ranking.{IsRanking};
ghost use Rattle.hub_index.specs.RootDistances.{HoldsRow};
ghost use Rattle.resumed_tree.specs.Offered.{HasStarts};
ghost use Rattle.resumed_tree.specs.Resumed.{AreWalks, IsStart, IsResumed};

use crate::taking::take;
use frontier::Frontier;
use hub_index::{Entry, RootTable, RowList};
use pruned_tree::{Bare, Work, relax_row};
use rank_table::Ranking;
use std::alloc::{AllocError, Global};
use walk_laws::{Dist, Graph};

/// Where the tree of a hub goes on.
#[derive(Clone, Copy, Debug, PartialEq, Eq)]
pub struct Start {
    /// The position of the hub, from 0.
    pub hub: u32,
    /// The node where its tree goes on, a number from 1.
    pub node: u32,
    /// How long a walk leads there from the hub.
    pub dist: u128,
}

/// Goes on with the tree of the root at the position `p`, which counts from 0, at all these starts, as one tree.
///
/// It takes nodes by rising distance from the root, but none that ranks above it. A node that has an entry of the root that is
/// no longer, or that a hub above the root covers, is left; any other takes the entry, in place of a longer one, and its arcs
/// are gone along. So the rows stay lengths of walks, entries of other hubs are what they were, and none is lost or grows;
/// where the entry of a start is canonical it is there, and from each node that took its canonical entry the neighbours have
/// theirs. It costs what it touches. The only error is that memory ran out; the entries put by then stay.
///
/// In the path 1 - 2 - 3 of weights 1, of which a smaller number ranks higher, an edge between 1 and 3 of weight 1 comes. The
/// tree of node 1, at the position 0, goes on at node 3 and the distance 1:
///
/// ```text
/// row of 3 before: (0, 2), (1, 1), (2, 0)
/// row of 3 after:  (0, 1), (1, 1), (2, 0); and node 2 is left, as it has (0, 1)
/// ```
pub fn resume(
    _alloc: Global,
    graph: &Graph,
    ranking: &Ranking,
    p: u32,
    starts: &[Start],
    rows: &mut RowList,
    work: &mut Work,
) -> Result<(), AllocError>
    requires nodes { work.old ≡ graph.now.n }
    requires ranked { length ranking.now ≡ graph.now.n }
    requires position { p < length ranking.now }
    requires walks { AreWalks (Joined graph.now.edges) ranking.now rows.old }
    requires starts { All (IsStart (Joined graph.now.edges) ranking.now p) starts.now }
    ensures same { work.new ≡ work.old }
    ensures resumed { IsResumed graph.now.edges ranking.now p starts.now rows.old rows.new result }
{
    let nodes = graph.n();
    prove!(nodes == work.n);
    let ranked = ranking.n();
    prove!(ranked == nodes);
    work.table.load(rows.row(ranking.at(p)));
    resume_from(
        &mut work.frontier,
        graph,
        ranking,
        p,
        starts,
        rows,
        &work.table,
    )
}

/// Goes on with the tree in a frontier for the nodes of the graph, whatever it held before, where the table has the distances
/// of the row of the root.
fn resume_from(
    frontier: &mut Frontier<Bare>,
    graph: &Graph,
    ranking: &Ranking,
    p: u32,
    starts: &[Start],
    rows: &mut RowList,
    table: &RootTable,
) -> Result<(), AllocError>
    requires nodes { length frontier.old ≡ graph.now.n + 1 }
    requires size { length table.now ≡ graph.now.n }
    requires graph { IsGraph graph.now.n graph.now.edges }
    requires ranked { length ranking.now ≡ graph.now.n }
    requires ranking { IsRanking ranking.now }
    requires position { p < length ranking.now }
    requires walks { AreWalks (Joined graph.now.edges) ranking.now rows.old }
    requires starts { All (IsStart (Joined graph.now.edges) ranking.now p) starts.now }
    requires root { (h : ℕ) → slice_get ranking.now p ≡ Some h → HoldsRow table.now (label_row rows.old h) }
    ensures same { length frontier.new ≡ length frontier.old }
    ensures resumed { IsResumed graph.now.edges ranking.now p starts.now rows.old rows.new result }
{
    offer_starts(frontier, starts)?;
    while let Some((v, found)) = frontier.take() {
        let entry = Entry {
            pos: p,
            dist: Dist::of(found.dist),
        };
        let took = take(rows, v, entry, table)?;
        if !took {
            continue;
        }
        relax_row(frontier, graph.arc_row(v), ranking, p, found.dist)?;
    }
    Ok(())
}

/// Clears a frontier and offers it the starts. The only error is that memory ran out.
fn offer_starts(frontier: &mut Frontier<Bare>, starts: &[Start]) -> Result<(), AllocError>
    requires { All (λ s. s.node < length frontier.old) starts.now }
    ensures same { length frontier.new ≡ length frontier.old }
    ensures offered { OnOk result (HasStarts (length frontier.old) starts.now frontier.new) }
{
    frontier.clear();
    for start in starts {
        frontier.offer(start.node, start.dist, Bare {})?;
    }
    Ok(())
}
