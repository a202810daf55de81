ghost use Rattle.std.specs.Prelude.{◌≡◌, ◌<◌, ◌≤◌, Some, MatchOption, length, slice_get};
ghost use Rattle.walk_laws.specs.declared.entry.Entry.{Entry as AnEntry};
ghost use Rattle.walk_laws.specs.Graph.{IsGraph};
ghost use Rattle.walk_laws.specs.Joined.{Joined};
ghost use Rattle.walk_laws.specs.Labelling.{label_row};
ghost use Rattle.index_audit.specs.Audited.{IsFaultOf, IsSoundAt};
ghost use Rattle.index_audit.specs.Beside.{HasPlace};

use crate::answer::Audit;
use crate::beside::Beside;
use crate::covering::first_meet;
use crate::neighbours::look_around;
use hub_index::Index;
use walk_laws::Graph;

/// What is wrong with the entry at a place, from 0, of the row of the node `v`.
pub fn fault_at<V: Beside>(
    graph: &Graph,
    index: &Index,
    vias: &V,
    v: u32,
    place: usize,
) -> Option<Audit>
    requires graph { IsGraph graph.now.n graph.now.edges }
    requires size { length index.now.order ≡ graph.now.n }
    requires node { 1 ≤ v }
    requires within { v ≤ graph.now.n }
    requires there { place < length (label_row index.now.rows v) }
    requires beside { HasPlace (V.vias vias.now) v place }
    ensures { (e : AnEntry) → slice_get (label_row index.now.rows v) place ≡ Some e
        → MatchOption result (IsSoundAt (Joined graph.now.edges) index.now.order index.now.rows (V.vias vias.now) v place e)
        (λ fault. IsFaultOf (Joined graph.now.edges) index.now.order index.now.rows (V.vias vias.now) v place e fault) }
{
    let row = index.row(v);
    let entry = row[place];
    let dist = entry.dist.get();
    let hub = index.ranking().at(entry.pos);
    let around = look_around(graph, index, v, hub, entry);
    if !around.walked {
        return Some(Audit::NoWalk { v, hub });
    }
    if let Some(to) = around.uncovered {
        return Some(Audit::NotCovered { v, to, hub });
    }
    if let Some(pos) = first_meet(&row[..place], index.row(hub), dist) {
        let by = index.ranking().at(pos);
        return Some(Audit::Redundant { v, hub, by });
    }
    let want = around.nearer.unwrap_or(0);
    if !vias.goes_by(v, place, want) {
        return Some(Audit::WrongVia { v, hub, want });
    }
    None
}
