ghost use Rattle.std.specs.Prelude.{◌≡◌, ℕ, ◌-◌, ◌≤◌, [], All, length, IfOk, IfErr};
ghost use Rattle.walk_laws.specs.Joined.{Joined};
ghost use Rattle.walk_laws.specs.Labelling.{IsChl};
ghost use Rattle.walk_laws.specs.Overflow.{Overflows};
ghost use Rattle.hub_index.specs.Faults.{TellsFault};
ghost use Rattle.label_clean.specs.Below.{HoldsBelow, IsChlBelow};
ghost use Rattle.lcc_build.specs.Shares.{HasWorked, IsDone, IsNew, IsReady, IsShareOf, IsSoundGround};

use crate::ground::Ground;
use crate::in_order::rows_in_order;
use crate::share::Share;
use crate::workers::{Worker, joined, seated};
use desk_io::Gate;
use hub_index::{BuildFault, Index, RowList};
use label_clean::clean_in_place;
use label_clean::laws::the_whole_is_the_labelling;
use label_rows::Rows;
use rank_table::Ranking;
use renumbering::{Job, WorkingCopy};
use root_claims::Claims;
use std::alloc::{AllocError, Global};
use std::sync::Wait;
use std::thread;
use std::thread::Threads;
use walk_laws::Graph;

/// The index of the canonical hub labelling of a graph under a ranking of its nodes. It begins with a copy of both in which
/// neighbours stand near one another ([`WorkingCopy`]). One worker grows the pruned trees of the roots one after another, with
/// no lock and nothing to clean. Several claim roots one by one, and grow their pruned trees at the same time over rows that
/// all of them write; then the rows are cleaned, on all cores. The gate is told of each root when its tree begins and when
/// it ends. The errors are that a hub is too far for an index, and that memory ran out.
///
/// In the square 1-2-3-4-1 of weights 1, of which a smaller number ranks higher, the tree of node 2 ends at 3 where it comes
/// after that of node 1, which is a hub of 2 and of 4 and covers the way from 2 to 4. Where it comes before, or meanwhile,
/// it may put an entry at 4, too, and cleaning deletes that.
pub fn build_lcc<R: Threads + Wait + Sync, G: Gate + Sync>(
    rt: &R,
    alloc: Global,
    graph: &Graph,
    ranking: &Ranking,
    workers: u32,
    gate: &G,
) -> Result<Index, BuildFault>
    requires nodes { length ranking.now ≡ graph.now.n }
    requires workers_from { 1 ≤ workers }
    requires workers_to { workers ≤ 64 }
    ensures order { IfOk result (λ index. index.order ≡ ranking.now) }
    ensures labelling { IfOk result (λ index. IsChl (Joined graph.now.edges) ranking.now index.rows) }
    ensures fits { IfOk result (λ _. ¬ Overflows (Joined graph.now.edges) ranking.now) }
    ensures fault { IfErr result (λ fault. TellsFault (Joined graph.now.edges) ranking.now fault) }
{
    let copy = WorkingCopy::new(alloc, graph, ranking)?;
    let job = Job::new(alloc, &copy.graph, &copy.ranking, workers, 1);
    let rows = labelled_rows(rt, &job, gate)?;
    the_whole_is_the_labelling();
    copy.index(alloc, graph, ranking, rows)
}

/// The rows of the labelling: by one worker those of the trees as they come, and by several what cleaning leaves of them.
fn labelled_rows<R: Threads + Wait + Sync, G: Gate + Sync>(
    rt: &R,
    job: &Job<'_>,
    gate: &G,
) -> Result<RowList, AllocError>
    ensures { IfOk result (λ rows. IsChlBelow job.now.graph.now.edges job.now.ranking.now (length job.now.ranking.now) rows) }
{
    if job.workers == 1 {
        return rows_in_order(job, gate);
    }
    let raw = raw_rows(rt, job, gate)?;
    clean_in_place(rt, job.alloc, job.ranking, raw)
}

/// The rows that the trees of all roots leave, grown by so many workers: they have every canonical entry.
fn raw_rows<R: Threads + Wait + Sync, G: Gate + Sync>(
    rt: &R,
    job: &Job<'_>,
    gate: &G,
) -> Result<RowList, AllocError>
    ensures size { IfOk result (λ rows. length rows ≡ job.now.graph.now.n) }
    ensures held { IfOk result (λ rows. HoldsBelow job.now.graph.now.edges job.now.ranking.now (length job.now.ranking.now) [] rows) }
{
    let n = job.graph.n();
    let ranked = job.ranking.n();
    prove!(n == ranked);
    let (claims, claim_seat) = Claims::new(job.alloc, 0, n, job.workers)?;
    let (rows, row_seat) = Rows::new(job.alloc, job.graph, job.ranking, job.workers)?;
    let first = Share {
        claims: claim_seat,
        rows: row_seat,
        memory: Ok(()),
    };
    let ground = Ground {
        job,
        claims: &claims,
        rows: &rows,
    };
    let whole = grown_share(rt, &ground, first, gate)?;
    whole.memory?;
    claims.close(whole.claims);
    rows.close(whole.rows)
}

/// Lets so many workers grow trees, whose shares are split from the first one, and answers their shares as one. The only
/// error is that memory ran out before they began; in the share stands whether it sufficed for their trees.
fn grown_share<R: Threads + Wait + Sync, G: Gate + Sync>(
    rt: &R,
    ground: &Ground<'_>,
    first: Share,
    gate: &G,
) -> Result<Share, AllocError>
    requires ground { IsSoundGround ground.now }
    requires share { IsShareOf ground.now (ground.now.job.now.workers - 1) first }
    requires new { IsNew first }
    ensures share { IfOk result (IsShareOf ground.now (ground.now.job.now.workers - 1)) }
    ensures done { IfOk result (IsDone ground.now.job.now.graph.now.edges ground.now.job.now.ranking.now) }
{
    let mut seats = seated(ground, first)?;
    grow_all(rt, ground, seats.as_mut_slice(), gate);
    Ok(joined(ground, seats))
}

/// Lets all workers grow trees, each in a thread of its own where one can be made.
fn grow_all<R: Threads + Wait + Sync, G: Gate + Sync>(
    rt: &R,
    ground: &Ground<'_>,
    seats: &mut [Worker],
    gate: &G,
)
    requires ground { IsSoundGround ground.now }
    requires ready { All (IsReady ground.now) seats.old }
    ensures size { length seats.new ≡ length seats.old }
    ensures worked { All (HasWorked ground.now) seats.new }
{
    let grow = |_place: usize, worker: &mut Worker|
        requires { IsSoundGround ground.now × IsReady ground.now worker.now }
        ensures { HasWorked ground.entry.now worker.exit.now }
    { worker.grow_trees(rt, ground, gate) };
    thread::for_each_mut(rt, seats, ground.job.workers as usize, &grow);
}
