ghost use Rattle.std.specs.Prelude.{◌≡◌, length, IfOk};
ghost use Rattle.index_audit.specs.Upgrades.{IsUpgradeOf};

use crate::answer::Audit;
use crate::auditing::audit_on;
use crate::upgraded::Upgrade;
use entry_vias::ranges::cores;
use entry_vias::{TracedIndex, vias_of};
use hub_index::Index;
use std::alloc::{AllocError, Global};
use std::thread::Threads;
use walk_laws::Graph;

/// The index with its vias, found from the graph on all cores, where it is the canonical hub labelling of the graph under its own
/// ranking; else the first thing that is wrong with it, as [`audit_on`] tells it under that ranking. The order and the rows of
/// what is made are those of the index, and nothing is copied. The only error is that memory ran out.
///
/// In the path 1-2-3 of weights 1, whose order is 2, 1, 3, both ends go by node 2:
///
/// ```text
/// row of 1:  hub 2 at 1, hub 1 at 0        row of 3:  hub 2 at 1, hub 3 at 0
/// vias of 1: 2, 0                          vias of 3: 2, 0
/// ```
pub fn upgrade<R: Threads + Sync>(
    rt: &R,
    alloc: Global,
    graph: &Graph,
    index: Index,
) -> Result<Upgrade, AllocError>
    requires { length index.order ≡ graph.now.n }
    ensures { IfOk result (IsUpgradeOf graph.now index) }
{
    match audit_on(rt, graph, index.ranking(), &index) {
        Audit::Same => {
            let vias = vias_of(rt, alloc, graph, &index, cores(rt))?;
            Ok(Upgrade::Made(TracedIndex::new(index, vias)))
        }
        fault => Ok(Upgrade::Not(fault)),
    }
}
