//! The shards of a table while what all workers have put is merged in them: the tasks that are left, and the shards that are done.
ghost use Rattle.std.specs.Prelude.{◌≡◌, ℕ, ◌+◌, ◌<◌, ◌≤◌, List, [], ◌∷◌, ◌++◌, All, None, Ok, length, map, replicate, take, vec_len, IfNone, IfOk, IfSome, OnOk};
ghost use Rattle.std.specs.List.Sorted.{IsPermutation};
ghost use Rattle.hub_index.specs.Shards.{shard_count};
ghost use Rattle.label_clean.specs.declared.hub_rows.HubEntry.{HubEntry};
ghost use Rattle.label_clean.specs.HubRows.{AreGathered};
ghost use Rattle.gll_table.specs.Partition.{ListsHubs};
ghost use Rattle.table_seats.specs.Numbers.{numbers};
ghost use Rattle.gll_table.specs.Outputs.{IsOutput, all_put, all_roots};
ghost use Rattle.gll_merge.specs.Merging.{AreTasksFrom, IsMerge, OneShard, are_filled, lists_at, with_shard};
ghost use Rattle.gll_table.specs.Tables.{AreShardsBelow, IsShardBelow};
ghost use Rattle.gll_table.specs.Tasks.{IsTakenFrom};

use crate::merge_task::{MergeTask, Merged, Shard};
use crate::putting_together::{places_for, put_at};
use gll_table::{Build, BuildContext, Table, WorkerOutput, Workspaces, hubs_below, take_from};
use hub_index::SplitRows;
use label_clean::{HubRows, RunList};
use std::alloc::{AllocError, Global};
use std::marker::{Model, PhantomData};
use std::sync::Arc;

/// The shards of a table on their way up to the position `next`, from 0, of the next root: the tasks that nobody has taken, the rows of
/// each shard that is merged, at the place of its number, and the workers' workspaces. Contracts see them.
pub struct Merging<B: Build> {
    pub(crate) tasks: Vec<Option<MergeTask<B>>>,
    pub(crate) places: Vec<Option<SplitRows>>,
    pub(crate) next: u32,
    pub(crate) workspaces: Workspaces<B>,
}

impl<B: Build> Model for Merging<B> {
    ghost use Rattle.gll_merge.specs.Merging.{ArePlaced, MergingView};

    ghost Value = { MergingView };

    ghost view = { λ m. record { tasks = m.tasks.items; places = m.places.items; next = m.next; workspaces = m.workspaces } };

    ghost invariant = { λ m. ArePlaced B.edges B.order B.shift m.next m.places.items };
}

// Written out, so that crates above prove no drop of what it holds.
impl<B: Build> Drop for Merging<B> {
    fn drop(self) {
        let Merging {
            tasks: _,
            places: _,
            next: _,
            workspaces: _,
        } = self;
    }
}

impl<B: Build> Merging<B> {
    /// Takes a task out for the worker of this number, from 0, of so many. It answers None only where no task is left.
    pub fn take(&mut self, me: u32, workers: u32) -> Option<MergeTask<B>>
        ensures taken { IfSome result (λ task. IsTakenFrom self.old.tasks task self.new.tasks) }
        ensures none { IfNone result (All (λ place. place ≡ None) self.old.tasks) }
        ensures as_they_were { IfNone result (self.new.tasks ≡ self.old.tasks) }
        ensures places { self.new.places ≡ self.old.places }
        ensures next { self.new.next ≡ self.old.next }
        ensures workspaces { self.new.workspaces ≡ self.old.workspaces }
    {
        take_from(&mut self.tasks, me, workers)
    }

    /// Adds a shard that is merged, and hands its lists back to the workspaces. A shard that has no place, or not this position, is
    /// let go. The only error is that memory ran out, for the shard or here.
    pub fn add(&mut self, one: Merged<B>) -> Result<(), AllocError>
        ensures added { OnOk result ((shard : OneShard) × (one.shard ≡ Ok shard) × (self.new.places ≡ with_shard self.old.next self.old.places shard)) }
        ensures tasks { self.new.tasks ≡ self.old.tasks }
        ensures next { self.new.next ≡ self.old.next }
        ensures workspaces { self.new.workspaces ≡ self.old.workspaces }
    {
        let Merged { shard, lists } = one;
        self.workspaces.hand_back(lists)?;
        put_at(self.next, shard?, &mut self.places);
        Ok(())
    }

    /// Whether each shard is merged.
    pub fn is_whole(&self) -> bool
        ensures { result ≡ are_filled self.now.places }
    {
        for place in &self.places {
            if place.is_none() {
                return false;
            }
        }
        true
    }
}

/// For each shard of the table the task to merge what all workers of the build have put there over it: that is of the roots from its
/// first position up to the position `next`, from 0, each once. The only error is that memory ran out.
pub fn begin_merging<B: Build>(
    context: &BuildContext<'_, B>,
    table: Table<B>,
    outputs: Vec<WorkerOutput<B>>,
    next: u32,
) -> Result<Merging<B>, AllocError>
    requires workers { vec_len outputs ≡ B.workers }
    requires up { table.first ≤ next }
    requires within { next ≤ length B.order }
    requires over { All (λ o. o.first ≡ table.first) outputs.items }
    requires are { All (IsOutput B.edges B.order B.shift) outputs.items }
    requires roots { IsPermutation (all_roots outputs.items) (numbers table.first next) }
    ensures next { IfOk result (λ merging. merging.next ≡ next) }
    ensures tasks { IfOk result (λ merging. AreTasksFrom 0 table.first next table.shards (map (λ o. o.parts) outputs.items) merging.tasks) }
    ensures none_yet { IfOk result (λ merging. merging.places ≡ replicate (shard_count B.shift (length B.order)) None) }
    ensures workspaces { IfOk result (λ merging. merging.workspaces ≡ vec_len outputs) }
{
    let n = context.graph.n();
    let ranked = context.ranking.n();
    prove!(n == ranked);
    let alloc = context.alloc;
    let first = table.first();
    let hub_rows = rows_of_hubs(context, first, next, &outputs)?;
    let (workspaces, parts) = taken_apart(alloc, outputs)?;
    let shards = table.into_shards();
    let tasks = tasks_for(alloc, first, context.count, shards, next, parts, &hub_rows)?;
    let places = places_for(alloc, context.count)?;
    Ok(Merging {
        tasks,
        places,
        next,
        workspaces,
    })
}

/// The rows of the nodes with positions from the first one on and below the next root's, of what all have put there. The only error
/// is that memory ran out.
fn rows_of_hubs<B: Build>(
    context: &BuildContext<'_, B>,
    first: u32,
    next: u32,
    outputs: &[WorkerOutput<B>],
) -> Result<Arc<HubRows, Global>, AllocError>
    requires { first ≤ next }
    ensures { IfOk result (λ rows. (hubs : List HubEntry) × ListsHubs B.order next (all_put outputs.now) hubs × AreGathered first next hubs rows.value) }
{
    let hubs = hubs_below(context, next, outputs)?;
    let mut rows = HubRows::new(context.alloc);
    rows.gather(first, next, &[hubs])?;
    let rows = Arc::new(context.alloc, rows)?;
    Ok(rows)
}

/// The workspaces, and what each worker put for the shards. The only error is that memory ran out.
fn taken_apart<B: Build>(
    alloc: Global,
    outputs: Vec<WorkerOutput<B>>,
) -> Result<(Workspaces<B>, Vec<Vec<RunList>>), AllocError>
    ensures workspaces { IfOk result (λ parts. parts.0 ≡ vec_len outputs) }
    ensures parts { IfOk result (λ parts. map (λ d. d.items) parts.1.items ≡ map (λ o. o.parts) outputs.items) }
{
    let mut workspaces = Workspaces::new(alloc);
    let mut parts = Vec::with_capacity(alloc, outputs.len())?;
    for output in outputs {
        add_parts(alloc, output, &mut workspaces, &mut parts)?;
    }
    Ok((workspaces, parts))
}

/// Adds a worker's workspace, and what it put for the shards, to those of others. The only error is that memory ran out.
fn add_parts<B: Build>(
    alloc: Global,
    output: WorkerOutput<B>,
    workspaces: &mut Workspaces<B>,
    parts: &mut Vec<Vec<RunList>>,
) -> Result<(), AllocError>
    ensures workspaces { OnOk result (workspaces.new ≡ workspaces.old + 1) }
    ensures parts { OnOk result (map (λ d. d.items) parts.new.items ≡ map (λ d. d.items) parts.old.items ++ output.parts ∷ []) }
{
    let (workspace, lists) = output.into_parts(alloc);
    parts.push(lists)?;
    workspaces.add(workspace)?;
    Ok(())
}

/// For each of so many shards, which are a table up to the position `first`, from 0, the task to merge in it the parts that are for
/// it, as many as workers. The only error is that memory ran out.
fn tasks_for<B: Build>(
    alloc: Global,
    first: u32,
    count: u32,
    shards: Vec<SplitRows>,
    next: u32,
    parts: Vec<Vec<RunList>>,
    hub_rows: &Arc<HubRows, Global>,
) -> Result<Vec<Option<MergeTask<B>>>, AllocError>
    requires shards { AreShardsBelow B.edges B.order B.shift first shards.items }
    requires count { length shards.items ≡ count }
    requires long { All (λ d. length d.items ≡ shard_count B.shift (length B.order)) parts.items }
    requires each { (number : ℕ) → number < shard_count B.shift (length B.order) → IsMerge B.edges B.order B.shift number first next (lists_at (map (λ d. d.items) parts.items) number) hub_rows.now.value }
    ensures { IfOk result (λ tasks. AreTasksFrom 0 first next shards.items (map (λ d. d.items) parts.items) tasks.items) }
{
    let mut shards = shards;
    let mut parts = parts;
    let mut tasks = Vec::with_capacity(alloc, count as usize)?;
    while let Some(rows) = shards.pop() {
        let number = shards.len() as u32;
        let lists = last_lists(alloc, &mut parts)?;
        tasks.push(Some(task_for(rows, number, first, next, lists, hub_rows)?))?;
    }
    Ok(tasks)
}

/// A shard of the table, which is up to the position `first`, from 0, with the lists to be merged in it. The only error is that memory
/// ran out.
fn task_for<B: Build>(
    rows: SplitRows,
    number: u32,
    first: u32,
    next: u32,
    lists: Vec<RunList>,
    hub_rows: &Arc<HubRows, Global>,
) -> Result<MergeTask<B>, AllocError>
    requires within { first ≤ length B.order }
    requires shard { IsShardBelow B.edges B.order B.shift first number rows }
    requires lists { IsMerge B.edges B.order B.shift number first next lists.items hub_rows.now.value }
    ensures { IfOk result (λ task. task ≡ record { shard = record { number = number; first = first; rows = rows }; next = next; lists = lists.items }) }
{
    let hub_rows = Arc::try_clone(hub_rows)?;
    Ok(MergeTask {
        shard: Shard {
            rows,
            number,
            first,
            of: PhantomData,
        },
        next,
        lists,
        hub_rows,
    })
}

/// Takes the last list of each. The only error is that memory ran out.
fn last_lists(alloc: Global, parts: &mut Vec<Vec<RunList>>) -> Result<Vec<RunList>, AllocError>
    ensures size { vec_len parts.new ≡ vec_len parts.old }
    ensures lists { (number : ℕ) → All (λ d. length d.items ≡ number + 1) parts.old.items → IfOk result (λ lists. lists.items ≡ lists_at (map (λ d. d.items) parts.old.items) number) }
    ensures left { (number : ℕ) → All (λ d. length d.items ≡ number + 1) parts.old.items → IfOk result (λ _. map (λ d. d.items) parts.new.items ≡ map (λ d. take number d.items) parts.old.items) }
{
    let mut lists = Vec::with_capacity(alloc, parts.len())?;
    for k in 0..parts.len() {
        if let Some(list) = parts[k].pop() {
            lists.push(list)?;
        }
    }
    Ok(lists)
}
