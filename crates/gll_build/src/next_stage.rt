//! The stages, one after another: each is made of all that came of the one before it.
ghost use Rattle.std.specs.Prelude.{◌≡◌, IfOk, length};
ghost use Rattle.hub_index.specs.Shards.{shard_count};
ghost use Rattle.gll_table.specs.Tables.{ShardedTable};
ghost use Rattle.gll_superstep.specs.Workers.{IsFirstSeat};
ghost use Rattle.gll_build.specs.Stages.{Begins, BeginsMerging};

use crate::scheduler::{AllGrown, AllMerged, Growing, LastTable, MergingShards, Stage};
use gll_merge::{begin_merging, merged_table};
use gll_superstep::{EndedSuperstep, Outputs, PoolSlot, begin_superstep, end_superstep};
use gll_table::{Build, BuildContext, Table, Workspaces};
use root_claims::ClaimSeat;
use std::alloc::AllocError;
use std::sync::Wait;

/// The stage in which trees grow over this table, with the seat of all workers, or the end where the table goes far enough. The only
/// error is that memory ran out.
pub fn growing_or_over<B: Build>(
    context: &BuildContext<'_, B>,
    table: Table<B>,
    seat: ClaimSeat,
    workspaces: Workspaces<B>,
    next_pool: PoolSlot<B>,
) -> Result<Stage<B>, AllocError>
    requires { IsFirstSeat B.claims table.first seat }
    ensures { IfOk result (λ stage. Begins B.goal B.workers table stage) }
{
    if table.first() >= context.goal {
        return Ok(Stage::Over(Ok(LastTable { table })));
    }
    let tasks = begin_superstep(context, table, seat, workspaces, next_pool)?;
    let outputs = Outputs::new(context)?;
    Ok(Stage::Growing(Growing { tasks, outputs }))
}

/// The stage in which all that workers have put is merged in the table of their superstep. The only error is that memory ran out.
pub fn merging<B: Build, R: Wait>(
    rt: &R,
    context: &BuildContext<'_, B>,
    all: Result<AllGrown<B>, AllocError>,
) -> Result<Stage<B>, AllocError>
    ensures { IfOk result (λ stage. IfOk all (λ outputs. BeginsMerging (shard_count B.shift (length B.order)) outputs stage)) }
{
    let AllGrown { outputs } = all?;
    let EndedSuperstep {
        table,
        outputs,
        next,
        seat,
    } = end_superstep(rt, context, outputs)?;
    let merging = begin_merging(context, table, outputs, next)?;
    Ok(Stage::Merging(MergingShards { merging, seat }))
}

/// The stage after the shards are merged: trees grow over their table, or the end. The only error is that memory ran out.
pub fn after_merging<B: Build>(
    context: &BuildContext<'_, B>,
    all: Result<AllMerged<B>, AllocError>,
    next_pool: PoolSlot<B>,
) -> Result<Stage<B>, AllocError>
    ensures { IfOk result (λ stage. IfOk all (λ merged. (table : ShardedTable) × (table.first ≡ merged.next) × Begins B.goal B.workers table stage)) }
{
    let AllMerged { merging, seat } = all?;
    let (table, workspaces) = merged_table(context, merging)?;
    growing_or_over(context, table, seat, workspaces, next_pool)
}
