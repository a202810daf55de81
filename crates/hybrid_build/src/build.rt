ghost use Rattle.std.specs.Prelude.{◌≡◌, ◌^◌, ◌≤◌, length, min, IfOk, IfErr};
ghost use Rattle.walk_laws.specs.Joined.{Joined};
ghost use Rattle.walk_laws.specs.Labelling.{IsChl};
ghost use Rattle.walk_laws.specs.Overflow.{Overflows};
ghost use Rattle.hub_index.specs.Faults.{TellsFault};

use crate::halves::{HybridIndex, PlantedRows, planted_roots};
use desk_io::Gate;
use hub_index::{BuildFault, Index, SplitIndex};
use rank_table::Ranking;
use renumbering::{Job, WorkingCopy};
use std::alloc::Global;
use std::sync::Wait;
use std::thread::Threads;
use walk_laws::Graph;

/// The index of the canonical hub labelling of a graph under a ranking of its nodes. It begins with a copy of both in which
/// neighbours stand near one another ([`WorkingCopy`]). The workers plant the trees of the first `eta` roots, or of all where there
/// are no more, in batches of at most `cut`; then they go on by supersteps, in which each puts `cut` entries at least while roots are
/// left. So with `eta` 0 all trees are pruned, and with the number of nodes, or a greater one, all are planted. The gate is told
/// of each root when its tree begins and when it ends. Where a hub is too far for an index the first such one is told; the only other
/// error is that memory ran out.
///
/// In the square 1-2-3-4-1 of weights 1, of which a smaller number ranks higher, the tree of node 1 alone is planted with `eta` 1: it
/// is a hub of all. The tree of node 2 finds that in their rows, and puts no entry at node 4, since the way over node 1 is as short.
pub fn build_hybrid<R: Threads + Wait + Sync, G: Gate + Sync>(
    rt: &R,
    alloc: Global,
    graph: &Graph,
    ranking: &Ranking,
    workers: u32,
    cut: u32,
    eta: u32,
    gate: &G,
) -> Result<Index, BuildFault>
    requires nodes { length ranking.now ≡ graph.now.n }
    requires workers_from { 1 ≤ workers }
    requires workers_to { workers ≤ 64 }
    requires cut_from { 1 ≤ cut }
    requires cut_to { cut ≤ 2 ^ 30 }
    ensures order { IfOk result (λ index. index.order ≡ ranking.now) }
    ensures labelling { IfOk result (λ index. IsChl (Joined graph.now.edges) ranking.now index.rows) }
    ensures fits { IfOk result (λ _. ¬ Overflows (Joined graph.now.edges) ranking.now) }
    ensures fault { IfErr result (λ fault. TellsFault (Joined graph.now.edges) ranking.now fault) }
{
    let job = Job::new(alloc, graph, ranking, workers, cut);
    let hybrid = both_halves(rt, &job, eta, gate)?;
    let index = hybrid.of_planted(planted_roots(eta, graph.n()));
    Ok(index.into_index(alloc)?)
}

/// The same index with its rows as the build leaves them, in which most entries take half the room: for who goes along them
/// once, as an encoder does, and would make plain rows for that alone.
pub fn build_hybrid_split<R: Threads + Wait + Sync, G: Gate + Sync>(
    rt: &R,
    alloc: Global,
    graph: &Graph,
    ranking: &Ranking,
    workers: u32,
    cut: u32,
    eta: u32,
    gate: &G,
) -> Result<SplitIndex, BuildFault>
    requires nodes { length ranking.now ≡ graph.now.n }
    requires workers_from { 1 ≤ workers }
    requires workers_to { workers ≤ 64 }
    requires cut_from { 1 ≤ cut }
    requires cut_to { cut ≤ 2 ^ 30 }
    ensures order { IfOk result (λ index. index.order ≡ ranking.now) }
    ensures labelling { IfOk result (λ index. IsChl (Joined graph.now.edges) ranking.now index.rows) }
    ensures fits { IfOk result (λ _. ¬ Overflows (Joined graph.now.edges) ranking.now) }
    ensures fault { IfErr result (λ fault. TellsFault (Joined graph.now.edges) ranking.now fault) }
{
    let job = Job::new(alloc, graph, ranking, workers, cut);
    let hybrid = both_halves(rt, &job, eta, gate)?;
    Ok(hybrid.of_planted(planted_roots(eta, graph.n())))
}

/// The index by both halves, for which the trees of the first `eta` roots are planted, or of all where there are no more, and those of
/// the others pruned. Where a hub is too far for an index the first such one is told; the only other error is that memory ran out.
fn both_halves<R: Threads + Wait + Sync, G: Gate + Sync>(
    rt: &R,
    job: &Job<'_>,
    eta: u32,
    gate: &G,
) -> Result<HybridIndex, BuildFault>
    ensures planted { IfOk result (λ hybrid. hybrid.planted ≡ min eta job.now.graph.now.n) }
    ensures order { IfOk result (λ hybrid. hybrid.index.order ≡ job.now.ranking.now) }
    ensures labelling { IfOk result (λ hybrid. IsChl (Joined job.now.graph.now.edges) job.now.ranking.now hybrid.index.rows) }
    ensures fits { IfOk result (λ _. ¬ Overflows (Joined job.now.graph.now.edges) job.now.ranking.now) }
    ensures fault { IfErr result (λ fault. TellsFault (Joined job.now.graph.now.edges) job.now.ranking.now fault) }
{
    let copy = WorkingCopy::new(job.alloc, job.graph, job.ranking)?;
    let copied = Job::new(job.alloc, &copy.graph, &copy.ranking, job.workers, job.cut);
    let planted = PlantedRows::new(rt, &copied, eta, gate)?;
    HybridIndex::grown_from(rt, job, copy, planted, gate)
}
