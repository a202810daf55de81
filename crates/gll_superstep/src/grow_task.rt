//! What a worker is to do in a superstep.
ghost use Rattle.std.specs.Prelude.{◌≡◌, All, IfNone, IfSome, None};
ghost use Rattle.gll_table.specs.Tasks.{IsTakenFrom};

use crate::growing::{Seats, grow_share};
use crate::grown::Grown;
use crate::superstep::Superstep;
use desk_io::Gate;
use gll_table::{Build, BuildContext, WorkerOutput, Workspace, take_from};
use std::alloc::{AllocError, Global};
use std::marker::Model;
use std::sync::{Arc, Wait};

/// To grow trees in a superstep, with seats there and in a workspace. Contracts see the superstep.
#[derive(Drop)]
pub struct GrowTask<B: Build> {
    pub(crate) superstep: Arc<Superstep<B>, Global>,
    pub(crate) seats: Seats,
    pub(crate) workspace: Workspace<B>,
}

impl<B: Build> Model for GrowTask<B> {
    ghost use Rattle.gll_superstep.specs.Workers.{SuperstepView};
    ghost use Rattle.gll_superstep.specs.Workers.{AreNew, AreSeatsOf};

    ghost Value = { SuperstepView };

    ghost view = { λ t. t.superstep.value };

    ghost invariant = { λ t. AreSeatsOf t.superstep.value.claims t.superstep.value.pool 0 t.seats × AreNew t.seats };
}

/// The tasks of a superstep, each at a place until somebody takes it. Contracts see the places.
pub struct GrowTasks<B: Build> {
    pub(crate) tasks: Vec<Option<GrowTask<B>>>,
}

impl<B: Build> Model for GrowTasks<B> {
    ghost use Rattle.std.specs.Prelude.{List, Option};
    ghost use Rattle.gll_superstep.specs.Workers.{SuperstepView};

    ghost Value = { List (Option SuperstepView) };

    ghost view = { λ t. t.tasks.items };
}

// Written out, so that crates above prove no drop of what it holds.
impl<B: Build> Drop for GrowTasks<B> {
    fn drop(self) {
        let GrowTasks { tasks: _ } = self;
    }
}

impl<B: Build> GrowTasks<B> {
    /// Takes a task out for the worker of this number, from 0, of so many. It answers None only where no task is left.
    pub fn take(&mut self, me: u32, workers: u32) -> Option<GrowTask<B>>
        ensures taken { IfSome result (λ task. IsTakenFrom self.old task self.new) }
        ensures none { IfNone result (All (λ place. place ≡ None) self.old) }
        ensures as_they_were { IfNone result (self.new ≡ self.old) }
    {
        take_from(&mut self.tasks, me, workers)
    }
}

impl<B: Build> GrowTask<B> {
    /// Claims roots and grows their trees until the worker is done, and then cuts what it put in parts for the shards. Its gate
    /// is told of each root when its tree begins, and when it ends with the number of entries put. The only error is that memory
    /// ran out.
    pub fn grow<R: Wait, G: Gate>(
        self,
        rt: &R,
        context: &BuildContext<'_, B>,
        gate: &G,
    ) -> Result<Grown<B>, AllocError> {
        let GrowTask {
            superstep,
            seats,
            workspace,
        } = self;
        let (seats, workspace, memory) = grow_share(
            rt, context, &superstep, seats, workspace, gate,
        );
        memory?;
        let output = WorkerOutput::new(context, workspace, superstep.table.first())?;
        let Seats {
            claims: seat,
            pool: _,
        } = seats;
        Ok(Grown {
            superstep,
            seat,
            output,
        })
    }
}
