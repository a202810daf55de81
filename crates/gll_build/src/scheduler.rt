//! What is to be done in a build, and what is done.
ghost use Rattle.std.specs.Prelude.{◌≡◌, ◌<◌, ◌≤◌, ◌++◌, ◌∷◌, [], All, IfErr, IfNone, IfOk, IfSome, None, Ok, length};
ghost use Rattle.gll_merge.specs.Merging.{OneShard, are_filled, with_shard};
ghost use Rattle.gll_superstep.specs.Workers.{IsFirstSeat};
ghost use Rattle.gll_table.specs.Tasks.{IsTakenFrom};

use crate::next_stage::{after_merging, growing_or_over, merging};
use gll_merge::{MergeTask, Merged, Merging};
use gll_superstep::{GrowTask, GrowTasks, Grown, Outputs, PoolSlot};
use gll_table::{Build, BuildContext, Table, Workspaces};
use root_claims::ClaimSeat;
use std::alloc::AllocError;
use std::hint::spin_loop;
use std::marker::Model;
use std::mem::replace;
use std::sync::atomic::{AtomicBool, AtomicU64, Ordering};
use std::sync::{Mutex, Wait};
use std::thread::yield_now;

/// The table with which a build is over.
#[derive(Drop)]
pub struct LastTable<B: Build> {
    pub table: Table<B>,
}

impl<B: Build> Model for LastTable<B> {
    ghost use Rattle.std.specs.Prelude.{◌≤◌};
    ghost use Rattle.gll_table.specs.Tables.{ShardedTable};

    ghost Value = { ShardedTable };

    ghost view = { λ l. l.table };

    ghost invariant = { λ l. B.goal ≤ l.table.first };
}

impl<B: Build> LastTable<B> {
    /// The table.
    pub fn into_table(self) -> Table<B>
        ensures same { result ≡ self }
        ensures far_enough { B.goal ≤ result.first }
    {
        let LastTable { table } = self;
        table
    }
}

/// Trees grow: the tasks that nobody has taken, and what workers have handed in. That of one worker at least is to come.
#[derive(Drop)]
pub struct Growing<B: Build> {
    pub tasks: GrowTasks<B>,
    pub outputs: Outputs<B>,
}

impl<B: Build> Model for Growing<B> {
    ghost use Rattle.std.specs.Prelude.{◌<◌, length};
    ghost use Rattle.gll_build.specs.Views.{GrowingView};

    ghost Value = { GrowingView };

    ghost view = { λ g. record { tasks = g.tasks; outputs = g.outputs } };

    ghost invariant = { λ g. length g.outputs < B.workers };
}

/// What all workers have handed in at the end of a superstep.
#[derive(Drop)]
pub struct AllGrown<B: Build> {
    pub outputs: Outputs<B>,
}

impl<B: Build> Model for AllGrown<B> {
    ghost use Rattle.std.specs.Prelude.{◌≡◌, List, Result, length};
    ghost use Rattle.std.specs.declared.alloc.AllocError.{AllocError};
    ghost use Rattle.gll_table.specs.Outputs.{Output};

    ghost Value = { List (Result Output AllocError) };

    ghost view = { λ a. a.outputs };

    ghost invariant = { λ a. length a.outputs ≡ B.workers };
}

impl<B: Build> Growing<B> {
    /// Takes a task out for the worker of this number, from 0, of so many. It answers None only where no task is left.
    fn take(&mut self, me: u32, workers: u32) -> Option<GrowTask<B>>
        ensures taken { IfSome result (λ task. IsTakenFrom self.old.tasks task self.new.tasks) }
        ensures none { IfNone result (All (λ place. place ≡ None) self.old.tasks) }
        ensures as_they_were { IfNone result (self.new.tasks ≡ self.old.tasks) }
        ensures outputs { self.new.outputs ≡ self.old.outputs }
    {
        self.tasks.take(me, workers)
    }

    /// Adds what a worker hands in: if it is the last, nothing but all of it is left. The only error is that memory ran out.
    fn with(
        self,
        context: &BuildContext<'_, B>,
        one: Result<Grown<B>, AllocError>,
    ) -> Result<Result<AllGrown<B>, Growing<B>>, AllocError>
        ensures all { IfOk result (λ added. IfOk added (λ all. all ≡ self.outputs ++ one ∷ [])) }
        ensures some { IfOk result (λ added. IfErr added (λ growing. growing.outputs ≡ self.outputs ++ one ∷ [])) }
        ensures tasks { IfOk result (λ added. IfErr added (λ growing. growing.tasks ≡ self.tasks)) }
    {
        let Growing { tasks, mut outputs } = self;
        outputs.add(one)?;
        if outputs.len() < context.workers as usize {
            return Ok(Err(Growing { tasks, outputs }));
        }
        Ok(Ok(AllGrown { outputs }))
    }
}

/// What was put is merged in the shards, of which one at least is to come; and the seat for the next superstep.
#[derive(Drop)]
pub struct MergingShards<B: Build> {
    pub merging: Merging<B>,
    pub seat: ClaimSeat,
}

impl<B: Build> Model for MergingShards<B> {
    ghost use Rattle.std.specs.Prelude.{◌≡◌, false};
    ghost use Rattle.gll_merge.specs.Merging.{MergingView, are_filled};
    ghost use Rattle.gll_superstep.specs.Workers.{IsFirstSeat};

    ghost Value = { MergingView };

    ghost view = { λ s. s.merging };

    ghost invariant = { λ s. (are_filled s.merging.places ≡ false) × IsFirstSeat B.claims s.merging.next s.seat };
}

/// All shards are merged.
#[derive(Drop)]
pub struct AllMerged<B: Build> {
    pub merging: Merging<B>,
    pub seat: ClaimSeat,
}

impl<B: Build> Model for AllMerged<B> {
    ghost use Rattle.std.specs.Prelude.{◌≡◌, true};
    ghost use Rattle.gll_merge.specs.Merging.{MergingView, are_filled};
    ghost use Rattle.gll_superstep.specs.Workers.{IsFirstSeat};

    ghost Value = { MergingView };

    ghost view = { λ s. s.merging };

    ghost invariant = { λ s. (are_filled s.merging.places ≡ true) × IsFirstSeat B.claims s.merging.next s.seat };
}

impl<B: Build> MergingShards<B> {
    /// Takes a task out for the worker of this number, from 0, of so many. It answers None only where no task is left.
    fn take(&mut self, me: u32, workers: u32) -> Option<MergeTask<B>>
        ensures taken { IfSome result (λ task. IsTakenFrom self.old.tasks task self.new.tasks) }
        ensures none { IfNone result (All (λ place. place ≡ None) self.old.tasks) }
        ensures as_they_were { IfNone result (self.new.tasks ≡ self.old.tasks) }
        ensures places { self.new.places ≡ self.old.places }
        ensures next { self.new.next ≡ self.old.next }
        ensures workspaces { self.new.workspaces ≡ self.old.workspaces }
    {
        self.merging.take(me, workers)
    }

    /// Adds a shard that is merged: if it is the last, nothing but all of them is left. The only error is that memory ran out, for the
    /// shard or here.
    fn with(self, one: Merged<B>) -> Result<Result<AllMerged<B>, MergingShards<B>>, AllocError>
        ensures all { IfOk result (λ added. IfOk added (λ all. (shard : OneShard) × (one.shard ≡ Ok shard) × (all.places ≡ with_shard self.next self.places shard))) }
        ensures some { IfOk result (λ added. IfErr added (λ still. (shard : OneShard) × (one.shard ≡ Ok shard) × (still.places ≡ with_shard self.next self.places shard))) }
        ensures next { IfOk result (λ added. IfErr added (λ still. still.next ≡ self.next)) }
        ensures next_of_all { IfOk result (λ added. IfOk added (λ all. all.next ≡ self.next)) }
        ensures tasks { IfOk result (λ added. IfErr added (λ still. still.tasks ≡ self.tasks)) }
        ensures workspaces { IfOk result (λ added. IfErr added (λ still. still.workspaces ≡ self.workspaces)) }
        ensures all_workspaces { IfOk result (λ added. IfOk added (λ all. all.workspaces ≡ self.workspaces)) }
    {
        let MergingShards { mut merging, seat } = self;
        merging.add(one)?;
        if merging.is_whole() {
            return Ok(Ok(AllMerged { merging, seat }));
        }
        Ok(Err(MergingShards { merging, seat }))
    }
}

/// What the workers of a build are at. A worker takes a task, and hands in what it has done; who hands in the last makes the
/// next stage, while the others wait.
#[derive(Drop)]
pub enum Stage<B: Build> {
    Growing(Growing<B>),
    Merging(MergingShards<B>),
    /// A worker makes the next stage.
    Advancing,
    /// The build is over: with a table, or since memory ran out.
    Over(Result<LastTable<B>, AllocError>),
}

impl<B: Build> Stage<B> {
    ghost use Rattle.std.specs.Prelude.{◌≡◌, Err, IfErr, IfOk};
    ghost use Rattle.gll_build.specs.Stages.{AddsGrown, AddsMerged, Answers, Ends};
    ghost use Rattle.gll_build.specs.declared.scheduler.Stage.TheVariants.{Over};

    /// A task for the worker of this number, from 0, of so many.
    fn task(&mut self, me: u32, workers: u32) -> Task<B>
        ensures { Answers self.old result self.new }
    {
        match self {
            Stage::Growing(growing) => match growing.take(me, workers) {
                Some(task) => Task::Grow(task),
                None => Task::Wait,
            },
            Stage::Merging(shards) => match shards.take(me, workers) {
                Some(task) => Task::Merge(task),
                None => Task::Wait,
            },
            Stage::Advancing => Task::Wait,
            Stage::Over(_) => Task::End,
        }
    }

    /// Adds what a worker has put, and takes the stage out where no other is to come, or where memory ran out.
    fn add_grown(
        &mut self,
        context: &BuildContext<'_, B>,
        one: Result<Grown<B>, AllocError>,
    ) -> Option<Result<AllGrown<B>, AllocError>>
        ensures { AddsGrown self.old one result self.new }
    {
        match replace(self, Stage::Advancing) {
            Stage::Growing(growing) => match growing.with(context, one) {
                Ok(Ok(all)) => Some(Ok(all)),
                Ok(Err(growing)) => {
                    *self = Stage::Growing(growing);
                    None
                }
                Err(fault) => Some(Err(fault)),
            },
            other => {
                *self = other;
                Grown::let_go(one);
                None
            }
        }
    }

    /// Adds a shard that is merged, and takes the stage out where no other is to come, or where memory ran out.
    fn add_merged(&mut self, one: Merged<B>) -> Option<Result<AllMerged<B>, AllocError>>
        ensures { AddsMerged self.old one result self.new }
    {
        match replace(self, Stage::Advancing) {
            Stage::Merging(shards) => match shards.with(one) {
                Ok(Ok(all)) => Some(Ok(all)),
                Ok(Err(shards)) => {
                    *self = Stage::Merging(shards);
                    None
                }
                Err(fault) => Some(Err(fault)),
            },
            other => {
                *self = other;
                one.let_go();
                None
            }
        }
    }

    /// Takes what the build has come to, if it is over.
    fn take_table(&mut self) -> Option<Result<LastTable<B>, AllocError>>
        ensures { Ends self.old result self.new }
    {
        match replace(self, Stage::Advancing) {
            Stage::Over(table) => Some(table),
            other => {
                *self = other;
                None
            }
        }
    }

    /// The stage that was made, or the end where memory ran out.
    fn or_over(next: Result<Stage<B>, AllocError>) -> Stage<B>
        ensures made { IfOk next (λ stage. result ≡ stage) }
        ensures over { IfErr next (λ fault. result ≡ Over (Err fault)) }
    {
        match next {
            Ok(stage) => stage,
            Err(fault) => Stage::Over(Err(fault)),
        }
    }
}

/// What a worker is to do.
pub enum Task<B: Build> {
    Grow(GrowTask<B>),
    Merge(MergeTask<B>),
    Wait,
    End,
}

/// Where workers take tasks and hand in what they have done. The number of the stage grows with each.
#[derive(Drop)]
pub struct Scheduler<B: Build> {
    stage: Mutex<Stage<B>>,
    number: AtomicU64,
    /// The pool of the next superstep, where one was made.
    next_pool: Mutex<PoolSlot<B>>,
    /// Whether nobody has made that pool yet, or is about to.
    wanted: AtomicBool,
}

impl<B: Build> Scheduler<B> {
    /// The scheduler of a build that begins with this table, and with the seat of all workers. The only error is that memory ran out.
    pub fn new(
        context: &BuildContext<'_, B>,
        table: Table<B>,
        seat: ClaimSeat,
    ) -> Result<Scheduler<B>, AllocError>
        requires { IsFirstSeat B.claims table.first seat }
    {
        let workspaces = Workspaces::new(context.alloc);
        let stage = growing_or_over(context, table, seat, workspaces, PoolSlot::empty())?;
        Ok(Scheduler {
            stage: Mutex::new(stage),
            number: AtomicU64::new(0),
            next_pool: Mutex::new(PoolSlot::empty()),
            wanted: AtomicBool::new(true),
        })
    }

    /// The number of the stage.
    pub fn number(&self) -> u64 {
        self.number.load(Ordering::SeqCst)
    }

    /// A task for the worker of this number, from 0, of so many.
    pub fn take<R: Wait>(&self, rt: &R, me: u32, workers: u32) -> Task<B> {
        let mut stage = self.stage.lock(rt);
        stage.task(me, workers)
    }

    /// Hands in what a worker has put.
    pub fn hand_in_grown<R: Wait>(
        &self,
        rt: &R,
        context: &BuildContext<'_, B>,
        one: Result<Grown<B>, AllocError>,
    ) {
        if let Some(all) = self.add_grown(rt, context, one) {
            self.advance(rt, merging(rt, context, all));
        }
    }

    /// Adds what a worker has put, and takes the stage out where no other is to come, or where memory ran out.
    fn add_grown<R: Wait>(
        &self,
        rt: &R,
        context: &BuildContext<'_, B>,
        one: Result<Grown<B>, AllocError>,
    ) -> Option<Result<AllGrown<B>, AllocError>> {
        let mut stage = self.stage.lock(rt);
        stage.add_grown(context, one)
    }

    /// Hands in a shard that is merged.
    pub fn hand_in_merged<R: Wait>(&self, rt: &R, context: &BuildContext<'_, B>, one: Merged<B>) {
        if let Some(all) = self.add_merged(rt, one) {
            let next_pool = self.take_next_pool(rt);
            self.advance(rt, after_merging(context, all, next_pool));
        }
    }

    /// Adds a shard that is merged, and takes the stage out where no other is to come, or where memory ran out.
    fn add_merged<R: Wait>(
        &self,
        rt: &R,
        one: Merged<B>,
    ) -> Option<Result<AllMerged<B>, AllocError>> {
        let mut stage = self.stage.lock(rt);
        stage.add_merged(one)
    }

    /// Makes the pool of the next superstep, unless somebody has or is about to: for a worker that has nothing else to do. Where
    /// memory doesn't suffice it is made when it is needed.
    pub fn make_next_pool<R: Wait>(&self, rt: &R, context: &BuildContext<'_, B>) {
        if !self.wanted.swap(false, Ordering::SeqCst) {
            return;
        }
        let Ok(made) = PoolSlot::new(context) else {
            return;
        };
        let mut next_pool = self.next_pool.lock(rt);
        *next_pool = made;
    }

    /// Takes the pool that was made for the next superstep, if there is one, and asks for another.
    fn take_next_pool<R: Wait>(&self, rt: &R) -> PoolSlot<B> {
        let mut next_pool = self.next_pool.lock(rt);
        let made = replace(&mut *next_pool, PoolSlot::empty());
        if made.is_made() {
            self.wanted.store(true, Ordering::SeqCst);
        }
        made
    }

    /// Advances to the next stage, or to the end where memory ran out, and wakes who sleeps.
    fn advance<R: Wait>(&self, rt: &R, next: Result<Stage<B>, AllocError>) {
        let next = Stage::or_over(next);
        let mut stage = self.stage.lock(rt);
        *stage = next;
        drop(stage);
        self.number.fetch_add(1, Ordering::SeqCst);
        self.number.wake_all();
    }

    /// Waits until there is another stage than that of this number: it looks for it in so many rounds, and then sleeps. It may
    /// come back sooner.
    pub fn wait<R: Wait>(&self, rt: &R, number: u64, rounds: u32) {
        for _ in 0..rounds {
            for _ in 0..LOOKS {
                if self.number() != number {
                    return;
                }
                spin_loop();
            }
            yield_now();
        }
        self.number.park(rt, (number & 0xffff_ffff) as u32);
    }

    /// The table that the build has come to, once it is over. The error is that memory ran out.
    pub fn last_table<R: Wait>(&self, rt: &R, rounds: u32) -> Result<LastTable<B>, AllocError> {
        for _ in rt.forever() {
            let number = self.number();
            if let Some(table) = self.take_table(rt) {
                return table;
            }
            self.wait(rt, number, rounds);
        }
        unreachable!()
    }

    /// Takes the table that the build has come to, if it is over.
    fn take_table<R: Wait>(&self, rt: &R) -> Option<Result<LastTable<B>, AllocError>> {
        let mut stage = self.stage.lock(rt);
        stage.take_table()
    }
}

/// How often a worker looks for the next stage in a round.
const LOOKS: u32 = 64;
