ghost use Rattle.std.specs.Prelude.{◌≡◌, length, IfOk, IfErr};
ghost use Rattle.hub_index.specs.Faults.{TellsFault};
ghost use Rattle.walk_laws.specs.Joined.{Joined};
ghost use Rattle.walk_laws.specs.Labelling.{IsChl};
ghost use Rattle.walk_laws.specs.Overflow.{Overflows};
ghost use Rattle.chl_outputs.specs.Stops.{build_stop};
ghost use Rattle.chl_words.specs.Asking.{AreWithinLimits};

use chl_inputs::Stop;
use chl_outputs::stop_at;
use chl_words::{By, Construction};
use desk_io::Gate;
use gll_build::build_gll;
use hub_index::{BuildFault, Index};
use hybrid_build::build_hybrid;
use lcc_build::build_lcc;
use plant_build::build_plant;
use rank_table::Ranking;
use std::alloc::Global;
use std::sync::Wait;
use std::thread::Threads;
use walk_laws::Graph;

/// The index of the canonical hub labelling of a graph under a ranking of its nodes, or the first hub that is too far for one.
pub fn labelling<R: Threads + Wait + Sync, G: Gate + Sync>(
    rt: &R,
    alloc: Global,
    graph: &Graph,
    ranking: &Ranking,
    construction: Construction,
    gate: &G,
) -> Result<Index, BuildFault>
    requires size { length ranking.now ≡ graph.now.n }
    requires limits { AreWithinLimits construction.workers construction.cut }
    ensures order { IfOk result (λ index. index.order ≡ ranking.now) }
    ensures labelling { IfOk result (λ index. IsChl (Joined graph.now.edges) ranking.now index.rows) }
    ensures fits { IfOk result (λ _. ¬ Overflows (Joined graph.now.edges) ranking.now) }
    ensures fault { IfErr result (TellsFault (Joined graph.now.edges) ranking.now) }
{
    match construction.by {
        By::Plant => build_plant(
            rt,
            alloc,
            graph,
            ranking,
            construction.workers,
            construction.cut,
            gate,
        ),
        By::Lcc => build_lcc(rt, alloc, graph, ranking, construction.workers, gate),
        By::Gll => build_gll(
            rt,
            alloc,
            graph,
            ranking,
            construction.workers,
            construction.cut,
            gate,
        ),
        By::Hybrid => build_hybrid(
            rt,
            alloc,
            graph,
            ranking,
            construction.workers,
            construction.cut,
            construction.eta,
            gate,
        ),
    }
}

/// How a command stops at a fault of a build.
pub fn unbuilt(fault: BuildFault) -> Stop
    ensures { result ≡ build_stop fault }
{
    stop_at(fault)
}
