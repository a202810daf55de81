//! What all workers have put in a superstep comes together.
ghost use Rattle.std.specs.Prelude.{◌≡◌, ◌++◌, List, IfOk, OnOk};
ghost use Rattle.walk_laws.specs.Ranking.{IsRanking};
ghost use Rattle.label_clean.specs.declared.hub_rows.HubEntry.{HubEntry};
ghost use Rattle.gll_table.specs.Outputs.{HavePutOver, IsOutput, all_put};
ghost use Rattle.gll_table.specs.Partition.{ListsHubs};

use crate::context::BuildContext;
use crate::named::Build;
use crate::partitioning::{list_hubs, partition};
use crate::workspace::Workspace;
use label_clean::{HubEntry, RunList};
use std::alloc::{AllocError, Global};
use std::marker::Model;
use std::mem::replace;

/// Of how many positions from the first root's on a worker lists what it put at the nodes there, before anyone knows which
/// root comes next.
const NEXT_ROOTS: u32 = 1024;

/// What a worker has put in a superstep: it stands in the workspace. `first` is the position, from 0, up to which the table was the
/// labelling, and `far` the one up to which what was put at roots is listed. Contracts see it.
#[derive(Drop)]
pub struct WorkerOutput<B: Build> {
    workspace: Workspace<B>,
    first: u32,
    far: u32,
}

impl<B: Build> Model for WorkerOutput<B> {
    ghost use Rattle.gll_table.specs.Outputs.{IsOutput, Output};

    ghost Value = { Output };

    ghost view = { λ o. record { first = o.first; far = o.far; roots = o.workspace.roots.items; list = o.workspace.list.items; parts = o.workspace.parts.items; hubs = o.workspace.hubs.items } };

    ghost invariant = { λ o. IsOutput B.edges B.order B.shift (record { first = o.first; far = o.far; roots = o.workspace.roots.items; list = o.workspace.list.items; parts = o.workspace.parts.items; hubs = o.workspace.hubs.items }) };
}

impl<B: Build> WorkerOutput<B> {
    /// What a worker has put over the table up to the position `first`, from 0, as the workspace lists it: here it is cut in parts for
    /// the shards. The only error is that memory ran out.
    pub fn new(
        context: &BuildContext<'_, B>,
        workspace: Workspace<B>,
        first: u32,
    ) -> Result<WorkerOutput<B>, AllocError>
        requires { HavePutOver B.edges B.order first workspace.roots.items workspace.list.items }
        ensures first { IfOk result (λ output. output.first ≡ first) }
        ensures roots { IfOk result (λ output. output.roots ≡ workspace.roots.items) }
        ensures list { IfOk result (λ output. output.list ≡ workspace.list.items) }
        ensures is { IfOk result (IsOutput B.edges B.order B.shift) }
    {
        let mut workspace = workspace;
        let room = &mut workspace;
        let far = first.saturating_add(NEXT_ROOTS);
        partition(
            context.alloc,
            context.plan,
            context.count,
            &room.list,
            &mut room.parts,
        )?;
        list_hubs(context.ranking, far, &room.list, &mut room.hubs)?;
        Ok(WorkerOutput {
            workspace,
            first,
            far,
        })
    }

    /// The workspace, and what was put for each shard, which goes out of it.
    pub fn into_parts(self, alloc: Global) -> (Workspace<B>, Vec<RunList>)
        ensures { result.1.items ≡ self.parts }
    {
        let WorkerOutput {
            mut workspace,
            first: _,
            far: _,
        } = self;
        let parts = replace(&mut workspace.parts, Vec::new(alloc));
        (workspace, parts)
    }
}

/// What all have put at the nodes with positions below the next root's, of hubs that rank above the node: that is all but each
/// node's entry of itself, since no hub ranks below the node at which it was put. The only error is that memory ran out.
pub fn hubs_below<B: Build>(
    context: &BuildContext<'_, B>,
    next: u32,
    outputs: &[WorkerOutput<B>],
) -> Result<Vec<HubEntry>, AllocError>
    ensures { IfOk result (λ hubs. ListsHubs B.order next (all_put outputs.now) hubs.items) }
{
    let n = context.graph.n();
    let ranked = context.ranking.n();
    prove!(n == ranked);
    let mut hubs = Vec::new(context.alloc);
    let mut more = Vec::new(context.alloc);
    for output in outputs {
        add_hubs(context, next, output, &mut more, &mut hubs)?;
    }
    Ok(hubs)
}

/// Adds what a worker put at the nodes with positions below the next root's, of hubs that rank above the node. It is listed in
/// `more`, instead of what there was, where the worker's own list doesn't go as far. The only error is that memory ran out.
fn add_hubs<B: Build>(
    context: &BuildContext<'_, B>,
    next: u32,
    output: &WorkerOutput<B>,
    more: &mut Vec<HubEntry>,
    hubs: &mut Vec<HubEntry>,
) -> Result<(), AllocError>
    requires { IsRanking B.order }
    ensures { OnOk result ((list : List HubEntry) × (hubs.new.items ≡ hubs.old.items ++ list) × ListsHubs B.order next output.now.list list) }
{
    if output.far < next {
        list_hubs(context.ranking, next, &output.workspace.list, more)?;
        hubs.extend_from_slice(more.as_slice())?;
        return Ok(());
    }
    hubs.extend_from_slice(&output.workspace.hubs)?;
    Ok(())
}
