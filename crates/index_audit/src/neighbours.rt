//! What the rows of a node's neighbours tell of an entry of its row, each looked at once.
ghost use Rattle.std.specs.Prelude.{◌≡◌, ◌↔◌, ℕ, ◌≤◌, Some, MatchOption, IsTrue, length, slice_get};
ghost use Rattle.walk_laws.specs.Graph.{IsGraph};
ghost use Rattle.walk_laws.specs.Joined.{Joined};
ghost use Rattle.entry_vias.specs.RowVias.{IsNearer, IsFirstNearer};
ghost use Rattle.index_audit.specs.Checks.{IsWalked, IsCovered, IsFirstUncovered};
ghost use Rattle.index_audit.specs.Neighbours.{IsToldBy};

use crate::covering::first_meet;
use crate::lookup::distance_at;
use hub_index::Index;
use walk_laws::{Arc, Entry, Graph};

/// What the row of a neighbour tells of an entry.
#[derive(Clone, Copy)]
pub enum Told {
    /// It has the entry's hub, nearer by the weight of the arc between. So the entry is covered there, too.
    Nearer,
    /// It hasn't, and the entry is covered there.
    Covered,
    /// The entry isn't covered there.
    Uncovered,
}

/// What all neighbours of a node tell of an entry of its row.
#[derive(Clone, Copy)]
pub struct Around {
    /// The least neighbour, a number from 1, that has the hub, nearer by the weight of the arc between.
    pub nearer: Option<u32>,
    /// Whether there is one, or the hub is the node itself.
    pub walked: bool,
    /// The least neighbour, a number from 1, at which the entry isn't covered.
    pub uncovered: Option<u32>,
}

/// What the row at the end of the arc tells of the entry, whose hub is the node `hub`. It looks first whether that row has the
/// hub near enough, since in the labelling it nearly always has.
fn look_at(index: &Index, hub: u32, entry: Entry, arc: Arc) -> Told
    requires place { slice_get index.now.order entry.pos ≡ Some hub }
    requires node { 1 ≤ arc.to }
    requires within { arc.to ≤ length index.now.order }
    ensures { IsToldBy index.now.rows hub entry arc result }
{
    let row = index.row(arc.to);
    let dist = entry.dist.get();
    let weight = u128::from(arc.w);
    let way = dist + weight;
    if let Some(far) = distance_at(row, entry.pos) {
        let far = far.get();
        if far + weight == dist {
            return Told::Nearer;
        }
        if far <= way {
            return Told::Covered;
        }
    }
    match first_meet(index.row(hub), row, way) {
        Some(_) => Told::Covered,
        None => Told::Uncovered,
    }
}

/// What the neighbours of the node `v` tell of the entry in its row, whose hub is the node `hub`.
pub fn look_around(graph: &Graph, index: &Index, v: u32, hub: u32, entry: Entry) -> Around
    requires graph { IsGraph graph.now.n graph.now.edges }
    requires size { length index.now.order ≡ graph.now.n }
    requires node { 1 ≤ v }
    requires within { v ≤ graph.now.n }
    requires place { slice_get index.now.order entry.pos ≡ Some hub }
    ensures nearer { MatchOption result.nearer ((z : ℕ) → ¬ IsNearer (Joined graph.now.edges) index.now.rows v entry z) (λ y. IsFirstNearer (Joined graph.now.edges) index.now.rows v entry y) }
    ensures walked { IsTrue result.walked ↔ IsWalked (Joined graph.now.edges) index.now.rows v hub entry }
    ensures covered { MatchOption result.uncovered (IsCovered (Joined graph.now.edges) index.now.rows v hub entry) (λ to. IsFirstUncovered (Joined graph.now.edges) index.now.rows v hub entry to) }
{
    let mut nearer = None;
    let mut uncovered = None;
    for arc in graph.arcs(v) {
        match look_at(index, hub, entry, *arc) {
            Told::Nearer => nearer = nearer.or(Some(arc.to)),
            Told::Covered => {}
            Told::Uncovered => uncovered = uncovered.or(Some(arc.to)),
        }
    }
    Around {
        nearer,
        walked: hub == v || nearer.is_some(),
        uncovered,
    }
}
