ghost use Rattle.std.specs.Prelude.{◌≡◌, ◌*◌, ◌^◌, ◌<◌, ◌≤◌, All, length, IfOk, IfErr};
ghost use Rattle.walk_laws.specs.Joined.{Joined};
ghost use Rattle.walk_laws.specs.Labelling.{IsChl, IsPartChl};
ghost use Rattle.walk_laws.specs.Overflow.{Overflows};
ghost use Rattle.hub_index.specs.Faults.{TellsFault};
ghost use Rattle.entry_sinks.specs.Sunk.{sunk_at, HoldsPart};
ghost use Rattle.plant_build.specs.Marks.{IsMissing};
ghost use Rattle.plant_build.specs.Rounds.{share_of};
ghost use Rattle.plant_build.specs.Workers.{IsReady, HasWorked, shares_of};

use crate::batch::plant_batch;
use crate::collecting::collect;
use crate::crew::crew_of;
use crate::worker::PlantWorker;
use desk_io::Gate;
use entry_sinks::{EntrySink, gather};
use hub_index::{BuildFault, Index, RowList};
use plant_tree::Planter;
use rank_table::Ranking;
use renumbering::{Job, WorkingCopy};
use std::alloc::{AllocError, Global};
use std::sync::Wait;
use std::thread::{self, Threads};
use walk_laws::Graph;

/// The index of the canonical hub labelling of a graph under a ranking of its nodes, by planted trees of all roots, or the first
/// hub that is too far for an index. It begins with a copy of both in which neighbours stand near one another ([`WorkingCopy`]). The roots are dealt in batches of
/// at most `cut` to so many workers, and who has none left steals from the others. The caller itself plants each batch that
/// came from nobody. The gate sees each root begin, and end with the number of its entries. The only other error is that
/// memory ran out.
pub fn build_plant<R: Threads + Wait + Sync, G: Gate + Sync>(
    rt: &R,
    alloc: Global,
    graph: &Graph,
    ranking: &Ranking,
    workers: u32,
    cut: u32,
    gate: &G,
) -> Result<Index, BuildFault>
    requires nodes { length ranking.now ≡ graph.now.n }
    requires workers_from { 1 ≤ workers }
    requires workers_to { workers ≤ 64 }
    requires cut_from { 1 ≤ cut }
    requires cut_to { cut ≤ 2 ^ 30 }
    ensures order { IfOk result (λ index. index.order ≡ ranking.now) }
    ensures labelling { IfOk result (λ index. IsChl (Joined graph.now.edges) ranking.now index.rows) }
    ensures fits { IfOk result (λ _. ¬ Overflows (Joined graph.now.edges) ranking.now) }
    ensures fault { IfErr result (λ fault. TellsFault (Joined graph.now.edges) ranking.now fault) }
{
    let copy = WorkingCopy::new(alloc, graph, ranking)?;
    let all = copy.graph.n();
    let job = Job::new(alloc, &copy.graph, &copy.ranking, workers, cut);
    let rows = plant_roots(rt, &job, all, gate)?;
    copy.index(alloc, graph, ranking, rows)
}

/// The canonical hub labelling up to the position `eta`, from 0: the rows of the hubs that are the first `eta` nodes of a ranking.
/// The workers plant the trees of these roots, as in [`build_plant`], and what they put is gathered. The rows are by the numbers
/// that the nodes have in this graph: who wants neighbours near in memory hands it a [`WorkingCopy`]'s. The gate sees each of
/// these roots begin, and end with the number of its entries. The only error is that memory ran out.
///
/// In the square 1-2-3-4-1 of weights 1, of which a smaller number ranks higher, the first two roots leave these entries, each a
/// position and a distance: node 1 has (0, 0), node 2 has (0, 1) and (1, 0), node 3 has (0, 2) and (1, 1), and node 4 has (0, 1).
pub fn plant_first<R: Threads + Wait + Sync, G: Gate + Sync>(
    rt: &R,
    alloc: Global,
    graph: &Graph,
    ranking: &Ranking,
    eta: u32,
    workers: u32,
    cut: u32,
    gate: &G,
) -> Result<RowList, AllocError>
    requires nodes { length ranking.now ≡ graph.now.n }
    requires roots { eta ≤ graph.now.n }
    requires workers_from { 1 ≤ workers }
    requires workers_to { workers ≤ 64 }
    requires cut_from { 1 ≤ cut }
    requires cut_to { cut ≤ 2 ^ 30 }
    ensures labelling { IfOk result (IsPartChl (Joined graph.now.edges) ranking.now (λ p. p < eta)) }
{
    let job = Job::new(alloc, graph, ranking, workers, cut);
    plant_roots(rt, &job, eta, gate)
}

/// The rows of [`plant_first`] on what a job has.
pub fn plant_roots<R: Threads + Wait + Sync, G: Gate + Sync>(
    rt: &R,
    job: &Job<'_>,
    eta: u32,
    gate: &G,
) -> Result<RowList, AllocError>
    requires roots { eta ≤ job.now.graph.now.n }
    ensures labelling { IfOk result (IsPartChl (Joined job.now.graph.now.edges) job.now.ranking.now (λ p. p < eta)) }
{
    let n = job.graph.n();
    let batches = batches_for(eta, job.workers, job.cut);
    let workers = job.workers.min(batches);
    let mut crew = crew_of(job.alloc, n, batches, workers)?;
    work(rt, job, eta, batches, gate, &mut crew.members, workers);
    let (come, mut sinks) = collect(job.alloc, batches, crew)?;
    let missing = plant_missing(job, eta, batches, gate, &come)?;
    sinks.push(missing)?;
    gather(rt, job.alloc, n, sinks)
}

/// The batches that each worker is dealt, where there are roots enough. With many the workers end at nearly the same time.
const BATCHES_A_WORKER: u32 = 32;

/// In how many batches the roots are dealt: so many that none has more than `cut`, and that there are some for each worker.
fn batches_for(roots: u32, workers: u32, cut: u32) -> u32
    requires workers { workers ≤ 64 }
    requires cut { 1 ≤ cut }
    ensures from { 1 ≤ result }
    ensures to { result ≤ 2 ^ 30 }
    ensures cut { roots ≤ 2 ^ 30 → roots ≤ result * cut }
{
    let enough = roots.div_ceil(cut);
    let even = roots.min(workers * BATCHES_A_WORKER);
    enough.max(even).max(1).min(1 << 30)
}

/// The workers plant the first so many roots, side by side.
fn work<R: Threads + Wait + Sync, G: Gate + Sync>(
    rt: &R,
    job: &Job<'_>,
    roots: u32,
    batches: u32,
    gate: &G,
    crew: &mut [PlantWorker],
    workers: u32,
)
    requires ready { All (IsReady job.now.graph.now.n) crew.old }
    requires roots { roots ≤ length job.now.ranking.now }
    requires few { batches ≤ 2 ^ 30 }
    requires workers { 1 ≤ workers }
    ensures worked { All (HasWorked job.now.graph.now.edges job.now.ranking.now roots batches job.now.graph.now.n) crew.new }
    ensures shares { shares_of crew.new ≡ shares_of crew.old }
{
    thread::for_each_mut(
        rt,
        crew,
        workers as usize,
        &|_place: usize, worker: &mut PlantWorker|
            requires { IsReady job.now.graph.now.n worker.now × (roots ≤ length job.now.ranking.now) × (batches ≤ 2 ^ 30) }
            ensures { HasWorked job.entry.now.graph.now.edges job.entry.now.ranking.now roots batches job.entry.now.graph.now.n worker.exit.now × (share_of worker.exit.now.hand ≡ share_of worker.entry.now.hand) }
        { worker.plant(rt, job, roots, batches, gate) },
    );
}

/// What the caller itself plants of the first so many roots: those of the batches that came from nobody. The only error is that
/// memory ran out.
fn plant_missing<G: Gate>(
    job: &Job<'_>,
    roots: u32,
    batches: u32,
    gate: &G,
    come: &[bool],
) -> Result<EntrySink, AllocError>
    requires roots { roots ≤ length job.now.ranking.now }
    requires some { 1 ≤ batches }
    requires few { batches ≤ 2 ^ 30 }
    requires marks { length come.now ≡ batches }
    ensures sink { IfOk result (λ sink. sink.n ≡ job.now.graph.now.n) }
    ensures missing { IfOk result (λ sink. HoldsPart job.now.graph.now.edges job.now.ranking.now (IsMissing roots come.now) (sunk_at sink)) }
{
    let n = job.graph.n();
    let mut planter = Planter::new(job.alloc, n)?;
    let mut sink = EntrySink::new(job.alloc, n)?;
    for batch in 0..batches {
        if come[batch as usize] {
            continue;
        }
        plant_batch(job, roots, batches, batch, gate, &mut planter, &mut sink)?;
    }
    Ok(sink)
}
