//! The workers of a build: each stays in a thread of its own from its beginning to its end.
ghost use Rattle.std.specs.Prelude.{◌<◌};
ghost use Rattle.gll_superstep.specs.Workers.{IsFirstSeat};
ghost use Rattle.std.specs.Thread.{IsSend, IsSync};

use crate::scheduler::{LastTable, Scheduler, Task};
use desk_io::Gate;
use gll_table::{Build, BuildContext, Table};
use label_clean::Cleaner;
use root_claims::ClaimSeat;
use std::alloc::AllocError;
use std::sync::Wait;
use std::thread::{Threads, join_mut};

/// What a build that begins with this table comes to, whose workers claim roots with seats that are split from this one. The only error is that memory ran out.
pub fn run_workers<B: Build + Send + Sync, R: Threads + Wait + Sync, G: Gate + Sync>(
    rt: &R,
    context: &BuildContext<'_, B>,
    table: Table<B>,
    seat: ClaimSeat,
    gate: &G,
) -> Result<LastTable<B>, AllocError>
    requires { IsFirstSeat B.claims table.first seat }
{
    let scheduler = Scheduler::new(context, table, seat)?;
    all_work(rt, context, &scheduler, gate, context.workers);
    scheduler.last_table(rt, context.rounds)
}

/// Lets so many workers work to the end, each in a thread of its own where one can be made: else one after another, and the first
/// does the work of all.
#[cycle(workers)]
fn all_work<B: Build + Send + Sync, R: Threads + Wait + Sync, G: Gate + Sync>(
    rt: &R,
    context: &BuildContext<'_, B>,
    scheduler: &Scheduler<B>,
    gate: &G,
    workers: u32,
) {
    if workers > 1 {
        work_beside(rt, context, scheduler, gate, workers);
    } else {
        work(rt, context, scheduler, gate, 0);
    }
}

/// Lets the last of so many workers work in a new thread, and the others beside it.
#[cycle(workers)]
fn work_beside<B: Build + Send + Sync, R: Threads + Wait + Sync, G: Gate + Sync>(
    rt: &R,
    context: &BuildContext<'_, B>,
    scheduler: &Scheduler<B>,
    gate: &G,
    workers: u32,
)
    requires { 1 < workers }
{
    let mut one = ||
        requires { IsSync R.row × IsSync G.row × IsSync B.row × IsSend B.row × (1 < workers) }
    { work(rt, context, scheduler, gate, workers - 1) };
    let mut rest = ||
        requires { IsSync R.row × IsSync G.row × IsSync B.row × IsSend B.row × (1 < workers) }
    { all_work(rt, context, scheduler, gate, workers - 1) };
    join_mut(rt, &mut one, &mut rest);
}

/// Does what is to be done until the build is over.
fn work<B: Build, R: Wait, G: Gate>(
    rt: &R,
    context: &BuildContext<'_, B>,
    scheduler: &Scheduler<B>,
    gate: &G,
    me: u32,
) {
    let mut cleaner = Cleaner::new(context.alloc);
    for _ in rt.forever() {
        let number = scheduler.number();
        match scheduler.take(rt, me, context.workers) {
            Task::Grow(task) => scheduler.hand_in_grown(rt, context, task.grow(rt, context, gate)),
            Task::Merge(task) => scheduler.hand_in_merged(rt, context, task.merge(&mut cleaner)),
            Task::Wait => {
                scheduler.make_next_pool(rt, context);
                scheduler.wait(rt, number, context.rounds);
            }
            Task::End => return,
        }
    }
}
