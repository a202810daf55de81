ghost use Rattle.std.specs.Prelude.{◌≡◌, ◌+◌, ◌^◌, ◌<◌, ◌≤◌, length, IfOk, IfErr};
ghost use Rattle.walk_laws.specs.Joined.{Joined};
ghost use Rattle.walk_laws.specs.Labelling.{IsChl};
ghost use Rattle.walk_laws.specs.Overflow.{Overflows};
ghost use Rattle.hub_index.specs.Faults.{TellsFault};
ghost use Rattle.label_clean.specs.Below.{IsChlBelow};
ghost use Rattle.gll_superstep.specs.Workers.{IsFirstSeat};

use crate::workers::run_workers;
use desk_io::Gate;
use gll_table::{Build, BuildContext, Table};
use hub_index::{BuildFault, Index, RowList, Shards, SplitIndex, SplitRows};
use label_clean::laws::the_whole_is_the_labelling;
use rank_table::Ranking;
use renumbering::{Job, WorkingCopy};
use root_claims::{ClaimSeat, Claims};
use std::alloc::{AllocError, Global};
use std::marker::Brand;
use std::sync::Wait;
use std::thread::Threads;
use walk_laws::Graph;

/// The index of the canonical hub labelling of a graph under a ranking of its nodes, or its first hub that is too far for an
/// index. It begins with a copy of both in which neighbours stand near one another ([`WorkingCopy`]). Then it goes on by
/// supersteps until no root is left. The gate is told of each root when its tree begins and when it ends. The only other error
/// is that memory ran out.
pub fn build_gll<R: Threads + Wait + Sync, G: Gate + Sync>(
    rt: &R,
    alloc: Global,
    graph: &Graph,
    ranking: &Ranking,
    workers: u32,
    cut: u32,
    gate: &G,
) -> Result<Index, BuildFault>
    requires nodes { length ranking.now ≡ graph.now.n }
    requires workers_from { 1 ≤ workers }
    requires workers_to { workers ≤ 64 }
    requires cut_from { 1 ≤ cut }
    requires cut_to { cut ≤ 2 ^ 30 }
    ensures order { IfOk result (λ index. index.order ≡ ranking.now) }
    ensures labelling { IfOk result (λ index. IsChl (Joined graph.now.edges) ranking.now index.rows) }
    ensures fits { IfOk result (λ _. ¬ Overflows (Joined graph.now.edges) ranking.now) }
    ensures fault { IfErr result (λ fault. TellsFault (Joined graph.now.edges) ranking.now fault) }
{
    let index = build_gll_split(rt, alloc, graph, ranking, workers, cut, gate)?;
    Ok(index.into_index(alloc)?)
}

/// The same index with its rows as the build leaves them, in which most entries take half the room: for who goes along them
/// once, as an encoder does, and would make plain rows for that alone.
pub fn build_gll_split<R: Threads + Wait + Sync, G: Gate + Sync>(
    rt: &R,
    alloc: Global,
    graph: &Graph,
    ranking: &Ranking,
    workers: u32,
    cut: u32,
    gate: &G,
) -> Result<SplitIndex, BuildFault>
    requires nodes { length ranking.now ≡ graph.now.n }
    requires workers_from { 1 ≤ workers }
    requires workers_to { workers ≤ 64 }
    requires cut_from { 1 ≤ cut }
    requires cut_to { cut ≤ 2 ^ 30 }
    ensures order { IfOk result (λ index. index.order ≡ ranking.now) }
    ensures labelling { IfOk result (λ index. IsChl (Joined graph.now.edges) ranking.now index.rows) }
    ensures fits { IfOk result (λ _. ¬ Overflows (Joined graph.now.edges) ranking.now) }
    ensures fault { IfErr result (λ fault. TellsFault (Joined graph.now.edges) ranking.now fault) }
{
    let copy = WorkingCopy::new(alloc, graph, ranking)?;
    let none = RowList::new(alloc, copy.graph.n())?;
    let job = Job::new(alloc, &copy.graph, &copy.ranking, workers, cut);
    let rows = grow_roots(rt, &job, none, 0, gate)?;
    copy.split_index(alloc, graph, ranking, rows)
}

/// The index of the canonical hub labelling of a graph under a ranking of its nodes, of which the rows `global` are the labelling
/// up to the position `first`, from 0, or its first hub that is too far for an index: the supersteps begin with the root there, and
/// none of the roots before it is grown. They work on this graph itself, by whose numbers the rows are. The gate is told of each
/// other root when its tree begins and when it ends. The only other error is that memory ran out.
pub fn build_gll_from<R: Threads + Wait + Sync, G: Gate + Sync>(
    rt: &R,
    alloc: Global,
    graph: &Graph,
    ranking: &Ranking,
    global: RowList,
    first: u32,
    workers: u32,
    cut: u32,
    gate: &G,
) -> Result<Index, BuildFault>
    requires nodes { length ranking.now ≡ graph.now.n }
    requires global { IsChlBelow graph.now.edges ranking.now first global }
    requires first { first ≤ length ranking.now }
    requires workers_from { 1 ≤ workers }
    requires workers_to { workers ≤ 64 }
    requires cut_from { 1 ≤ cut }
    requires cut_to { cut ≤ 2 ^ 30 }
    ensures order { IfOk result (λ index. index.order ≡ ranking.now) }
    ensures labelling { IfOk result (λ index. IsChl (Joined graph.now.edges) ranking.now index.rows) }
    ensures fits { IfOk result (λ _. ¬ Overflows (Joined graph.now.edges) ranking.now) }
    ensures fault { IfErr result (λ fault. TellsFault (Joined graph.now.edges) ranking.now fault) }
{
    let n = graph.n();
    let ranked = ranking.n();
    prove!(n == ranked);
    let rows = gll_rows_from(rt, alloc, graph, ranking, global, first, workers, cut, gate)?;
    let index = SplitIndex::of_labelling(graph, ranking.copy(alloc)?, rows)?;
    Ok(index.into_index(alloc)?)
}

/// The rows of that index, as the build leaves them.
pub fn gll_rows_from<R: Threads + Wait + Sync, G: Gate + Sync>(
    rt: &R,
    alloc: Global,
    graph: &Graph,
    ranking: &Ranking,
    global: RowList,
    first: u32,
    workers: u32,
    cut: u32,
    gate: &G,
) -> Result<SplitRows, AllocError>
    requires nodes { length ranking.now ≡ graph.now.n }
    requires global { IsChlBelow graph.now.edges ranking.now first global }
    requires first { first ≤ length ranking.now }
    requires workers_from { 1 ≤ workers }
    requires workers_to { workers ≤ 64 }
    requires cut_from { 1 ≤ cut }
    requires cut_to { cut ≤ 2 ^ 30 }
    ensures { IfOk result (IsChl (Joined graph.now.edges) ranking.now) }
{
    let job = Job::new(alloc, graph, ranking, workers, cut);
    grow_roots(rt, &job, global, first, gate)
}

/// The rows of [`gll_rows_from`] on what a job has.
pub fn grow_roots<R: Threads + Wait + Sync, G: Gate + Sync>(
    rt: &R,
    job: &Job<'_>,
    global: RowList,
    first: u32,
    gate: &G,
) -> Result<SplitRows, AllocError>
    requires global { IsChlBelow job.now.graph.now.edges job.now.ranking.now first global }
    requires first { first ≤ length job.now.ranking.now }
    ensures { IfOk result (IsChl (Joined job.now.graph.now.edges) job.now.ranking.now) }
{
    let n = job.graph.n();
    let ranked = job.ranking.n();
    prove!(n == ranked);
    let plan = plan_for(n, job.workers);
    let (claims, seat) = Claims::new(job.alloc, first, n, job.workers)?;
    let (rows, next) = steps::<Brand, R, G>(rt, job, plan, global, first, n, &claims, seat, gate)?;
    prove!(next == n);
    the_whole_is_the_labelling();
    Ok(rows)
}

/// Supersteps of this build from a table that is the canonical hub labelling up to the position `first`, from 0, until the next
/// root has the position `goal` or a later one: the labelling up to that root's position, and that position. The workers claim roots
/// with seats that are split from this one.
fn steps<B: Build + Send + Sync, R: Threads + Wait + Sync, G: Gate + Sync>(
    rt: &R,
    job: &Job<'_>,
    plan: Shards,
    global: RowList,
    first: u32,
    goal: u32,
    claims: &Claims,
    seat: ClaimSeat,
    gate: &G,
) -> Result<(SplitRows, u32), AllocError>
    requires edges { job.now.graph.now.edges ≡ B.edges }
    requires order { job.now.ranking.now ≡ B.order }
    requires shards { plan.shift ≡ B.shift }
    requires shift { plan.shift ≤ 30 }
    requires global { IsChlBelow B.edges B.order first global }
    requires first { first ≤ length B.order }
    requires goal { goal ≡ B.goal }
    requires goal_to { goal ≤ length B.order }
    requires workers { job.now.workers ≡ B.workers }
    requires claims { claims.now ≡ B.claims }
    requires claims_to { B.claims.n ≡ length B.order }
    requires claims_for { B.claims.seats ≡ B.workers }
    requires seat { IsFirstSeat B.claims first seat }
    ensures rows { IfOk result (λ r. IsChlBelow B.edges B.order r.1 r.0) }
    ensures far_enough { IfOk result (λ r. goal ≤ r.1) }
    ensures within { IfOk result (λ r. r.1 ≤ length B.order) }
{
    let context = BuildContext::<B>::new(
        rt,
        job.alloc,
        job.graph,
        job.ranking,
        plan,
        job.workers,
        claims,
        job.cut,
        goal,
    );
    let table = Table::of_rows(&context, &global, first)?;
    drop(global);
    let table = run_workers(rt, &context, table, seat, gate)?.into_table();
    let next = table.first();
    Ok((table.into_rows(job.alloc)?, next))
}

/// In shards of how many nodes a table of so many is cut: some four for each worker, so that each has as much to do as the
/// others, or a single one for one worker alone.
fn plan_for(n: u32, workers: u32) -> Shards
    requires { 1 ≤ workers }
    ensures { result.shift ≤ 30 }
{
    if workers == 1 {
        return Shards { shift: 30 };
    }
    let size = (n / workers / 4).max(LEAST_SHARD);
    Shards {
        shift: size.ilog2().min(30),
    }
}

/// The fewest nodes that are worth a shard.
const LEAST_SHARD: u32 = 16;

/// One superstep: of a table that is the canonical hub labelling up to the position `first`, the one up to the position of
/// the next root, and that position.
pub fn superstep<R: Threads + Wait + Sync, G: Gate + Sync>(
    rt: &R,
    alloc: Global,
    graph: &Graph,
    ranking: &Ranking,
    global: RowList,
    first: u32,
    workers: u32,
    cut: u32,
    gate: &G,
) -> Result<(RowList, u32), AllocError>
    requires nodes { length ranking.now ≡ graph.now.n }
    requires global { IsChlBelow graph.now.edges ranking.now first global }
    requires first { first < length ranking.now }
    requires workers_from { 1 ≤ workers }
    requires workers_to { workers ≤ 64 }
    requires cut_from { 1 ≤ cut }
    requires cut_to { cut ≤ 2 ^ 30 }
    ensures rows { IfOk result (λ r. IsChlBelow graph.now.edges ranking.now r.1 r.0) }
    ensures more { IfOk result (λ r. first < r.1) }
    ensures within { IfOk result (λ r. r.1 ≤ length ranking.now) }
{
    let n = graph.n();
    let ranked = ranking.n();
    prove!(n == ranked && first < n);
    let plan = plan_for(n, workers);
    let job = Job::new(alloc, graph, ranking, workers, cut);
    let (claims, seat) = Claims::new(alloc, first, n, workers)?;
    let (rows, next) = steps::<Brand, R, G>(
        rt,
        &job,
        plan,
        global,
        first,
        first + 1,
        &claims,
        seat,
        gate,
    )?;
    Ok((rows.into_rows(alloc)?, next))
}
