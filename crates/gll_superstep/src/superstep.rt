//! A superstep: what all its workers share, and how it begins.
ghost use Rattle.std.specs.Prelude.{◌≡◌, ℕ, ◌+◌, ◌-◌, ◌<◌, [], ◌++◌, ◌∷◌, Some, length, replicate, IfOk, OnOk};
ghost use Rattle.root_claims.specs.Seats.{IsSeatAt};
ghost use Rattle.gll_superstep.specs.Workers.{AreNew, AreSeatsOf, IsFirstSeat, SuperstepView};

use crate::grow_task::{GrowTask, GrowTasks};
use crate::growing::Seats;
use crate::next_pool::{NextPool, PoolSlot};
use gll_table::{Build, BuildContext, Table, Workspace, Workspaces};
use label_pool::Pool;
use pool_view::Fits;
use root_claims::ClaimSeat;
use std::alloc::{AllocError, Global};
use std::marker::Model;
use std::sync::Arc;
use std::sync::atomic::AtomicU32;

/// What the workers of a superstep share: the table over which they grow trees, the pool, and how many workers have put their
/// cut. Contracts see the table, the claims of the roots from the next one on, and the pool.
#[derive(Drop)]
pub struct Superstep<B: Build> {
    pub(crate) table: Table<B>,
    pub(crate) pool: Pool<Fits>,
    pub(crate) filled: AtomicU32,
}

impl<B: Build> Model for Superstep<B> {
    ghost use Rattle.std.specs.Prelude.{◌<◌, length};
    ghost use Rattle.root_claims.specs.Seats.{from};
    ghost use Rattle.gll_superstep.specs.Workers.{IsPoolOf, SuperstepView};

    ghost Value = { SuperstepView };

    ghost view = { λ s. record { table = s.table; claims = from s.table.first B.claims; pool = s.pool } };

    ghost invariant = { λ s. (s.table.first < length B.order) × IsPoolOf B.edges B.order s.pool };
}

impl<B: Build> Superstep<B> {
    /// Its table.
    pub fn into_table(self) -> Table<B>
        ensures same { result ≡ self.table }
        ensures more { result.first < length B.order }
    {
        let Superstep {
            table,
            pool: _,
            filled: _,
        } = self;
        table
    }
}

/// The tasks of a superstep over this table with this pool, or with a new one, one for each worker, in one of the workspaces, or in
/// a new one where there are fewer. Their seats are split from this one, with which nobody has claimed a root from the next one on.
/// The only error is that memory ran out.
pub fn begin_superstep<B: Build>(
    context: &BuildContext<'_, B>,
    table: Table<B>,
    seat: ClaimSeat,
    workspaces: Workspaces<B>,
    next_pool: PoolSlot<B>,
) -> Result<GrowTasks<B>, AllocError>
    requires more { table.first < length B.order }
    requires seat { IsFirstSeat B.claims table.first seat }
    ensures { IfOk result (λ tasks. (superstep : SuperstepView) × (superstep.table ≡ table) × (tasks ≡ replicate B.workers (Some superstep))) }
{
    let next_pool = next_pool.or_new(context)?;
    let (superstep, first) = superstep_over(context, table, seat, next_pool)?;
    let tasks = tasks_on(context, &superstep, first, workspaces)?;
    Ok(GrowTasks { tasks })
}

/// A superstep over this table with this pool, and its first seats, from which those of all workers may be split. The only error
/// is that memory ran out.
fn superstep_over<B: Build>(
    context: &BuildContext<'_, B>,
    table: Table<B>,
    seat: ClaimSeat,
    next_pool: NextPool<B>,
) -> Result<(Arc<Superstep<B>, Global>, Seats), AllocError>
    requires more { table.first < length B.order }
    requires seat { IsFirstSeat B.claims table.first seat }
    ensures over { IfOk result (λ r. r.0.value.table ≡ table) }
    ensures at { IfOk result (λ r. IsSeatAt context.now.claims.now r.1.claims) }
    ensures seats { IfOk result (λ r. AreSeatsOf r.0.value.claims r.0.value.pool (context.now.workers - 1) r.1) }
    ensures new { IfOk result (λ r. AreNew r.1) }
{
    let NextPool {
        pool,
        seat: pool_seat,
        of: _,
    } = next_pool;
    let superstep = Arc::new(
        context.alloc,
        Superstep {
            table,
            pool,
            filled: AtomicU32::new(0),
        },
    )?;
    let seats = Seats {
        claims: seat,
        pool: pool_seat,
    };
    Ok((superstep, seats))
}

/// A task of the superstep for each worker, with seats that are split from the first ones. The only error is that memory ran out.
fn tasks_on<B: Build>(
    context: &BuildContext<'_, B>,
    superstep: &Arc<Superstep<B>, Global>,
    first: Seats,
    workspaces: Workspaces<B>,
) -> Result<Vec<Option<GrowTask<B>>>, AllocError>
    requires at { IsSeatAt context.now.claims.now first.claims }
    requires seats { AreSeatsOf superstep.now.value.claims superstep.now.value.pool (context.now.workers - 1) first }
    requires new { AreNew first }
    ensures { IfOk result (λ tasks. tasks.items ≡ replicate context.now.workers (Some superstep.now.value)) }
{
    let mut first = first;
    let mut workspaces = workspaces;
    let mut tasks = Vec::with_capacity(context.alloc, context.workers as usize)?;
    for _ in 1..context.workers {
        let seats = split_off(context, superstep, &mut first);
        add_task(context, superstep, seats, &mut workspaces, &mut tasks)?;
    }
    add_task(context, superstep, first, &mut workspaces, &mut tasks)?;
    Ok(tasks)
}

/// Adds a task with these seats, in the last of the workspaces, or in a new one where there is none. The only error is that memory
/// ran out.
fn add_task<B: Build>(
    context: &BuildContext<'_, B>,
    superstep: &Arc<Superstep<B>, Global>,
    seats: Seats,
    workspaces: &mut Workspaces<B>,
    tasks: &mut Vec<Option<GrowTask<B>>>,
) -> Result<(), AllocError>
    requires seats { AreSeatsOf superstep.now.value.claims superstep.now.value.pool 0 seats }
    requires new { AreNew seats }
    ensures { OnOk result (tasks.new.items ≡ tasks.old.items ++ Some superstep.now.value ∷ []) }
{
    let workspace = workspaces.take(context)?;
    tasks.push(Some(task_with(superstep, seats, workspace)?))?;
    Ok(())
}

/// New seats, from which no more may be split.
fn split_off<B: Build>(
    context: &BuildContext<'_, B>,
    superstep: &Superstep<B>,
    seats: &mut Seats,
) -> Seats
    requires at { IsSeatAt context.now.claims.now seats.old.claims }
    requires seats { (left : ℕ) × (0 < left) × AreSeatsOf superstep.now.claims superstep.now.pool left seats.old }
    requires new { AreNew seats.old }
    ensures at { seats.new.claims.claims ≡ seats.old.claims.claims }
    ensures seats { (left : ℕ) → AreSeatsOf superstep.now.claims superstep.now.pool (left + 1) seats.old → AreSeatsOf superstep.now.claims superstep.now.pool left seats.new }
    ensures new { AreNew seats.new }
    ensures split { AreSeatsOf superstep.now.claims superstep.now.pool 0 result × AreNew result }
{
    Seats {
        claims: context.claims.split(&mut seats.claims, 0),
        pool: superstep.pool.split(&mut seats.pool, 0),
    }
}

/// A task with these seats. The only error is that memory ran out.
fn task_with<B: Build>(
    superstep: &Arc<Superstep<B>, Global>,
    seats: Seats,
    workspace: Workspace<B>,
) -> Result<GrowTask<B>, AllocError>
    requires seats { AreSeatsOf superstep.now.value.claims superstep.now.value.pool 0 seats }
    requires new { AreNew seats }
    ensures { IfOk result (λ task. task ≡ superstep.now.value) }
{
    Ok(GrowTask {
        superstep: Arc::try_clone(superstep)?,
        seats,
        workspace,
    })
}
