ghost use Rattle.std.specs.Prelude.{◌≡◌, ◌⊎◌, Err, length};
ghost use Rattle.index_audit.specs.Upgrades.{IsUpgradeOf};
ghost use Rattle.index_audit.specs.declared.upgraded.Upgrade.{Upgrade as AnyUpgrade};
ghost use Rattle.chl_inputs.specs.Stages.{Conforms};
ghost use Rattle.chl_inputs.specs.declared.stop.Stop.TheVariants.{NoMemory};
ghost use Rattle.chl_answers.specs.Commands.{upgrade_stage, upgrade_text};

use chl_inputs::{NotOf, Stop, read_graph, read_index};
use chl_words::Name;
use desk_io::Desk;
use entry_vias::ranges::cores;
use hub_index::Index;
use index_audit::{Upgrade, upgrade};
use index_file::{Pieces, encode_via_by};
use std::alloc::Global;
use std::thread::Threads;
use walk_laws::Graph;

/// The bytes of the file of version 2 of the index of a file, of either version, where it is that of the canonical hub labelling of
/// a graph under its own order; else the first thing that is wrong with it.
pub fn upgrade_output<R: Threads + Sync, D: Desk>(
    rt: &R,
    alloc: Global,
    graph: &Name,
    index: &Name,
    desk: &mut D,
) -> Result<Pieces, Stop>
    ensures { Conforms D.Desk (upgrade_stage graph.now index.now) result desk.old desk.new }
{
    let graph = read_graph(alloc, graph.text(), desk)?;
    let stored = read_index(alloc, index.text(), desk)?;
    let index = stored.into_index();
    if graph.n() != index.n() {
        return Err(Stop::NotOfGraph(NotOf::Sizes {
            graph: graph.n(),
            index: index.n(),
        }));
    }
    upgraded(rt, alloc, &graph, index)
}

/// The bytes of the file, by all cores, or what is wrong with the index, which has as many nodes as the graph.
fn upgraded<R: Threads + Sync>(
    rt: &R,
    alloc: Global,
    graph: &Graph,
    index: Index,
) -> Result<Pieces, Stop>
    requires { length index.order ≡ graph.now.n }
    ensures { (result ≡ Err NoMemory)
        ⊎ ((made : AnyUpgrade) × IsUpgradeOf graph.now index made × (result ≡ upgrade_text made)) }
{
    match upgrade(rt, alloc, graph, index)? {
        Upgrade::Not(fault) => Err(Stop::Differs(fault)),
        Upgrade::Made(traced) => Ok(encode_via_by(rt, alloc, &traced, cores(rt))?),
    }
}
