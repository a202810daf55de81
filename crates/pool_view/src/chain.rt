//! Whole walks of the chain of a node: each ends where the chain does.
ghost use Rattle.std.specs.Prelude.{◌≡◌, ◌^◌, ◌<◌, ◌≤◌, List, All, Contains, length, IfSome, IfNone};
ghost use Rattle.hub_index.specs.RootDistances.{noted, IsCover};
ghost use Rattle.hub_index.specs.Views.{IsNode};
ghost use Rattle.label_pool.specs.declared.rule.Linked.{Linked};
ghost use Rattle.label_pool.specs.Chains.{entries_of};
ghost use Rattle.label_pool.specs.Seats.{IsSeatOf, HasFound};
ghost use Rattle.pool_view.specs.Fitting.{MayStand, order_of};

use crate::fits::Fits;
use hub_index::RootTable;
use label_pool::{Pool, PoolSeat};
use walk_laws::Entry;

/// Notes the entries of the chain of the node `v`, a number from 1, in the table, newest first.
pub fn note_chain(pool: &Pool<Fits>, seat: &mut PoolSeat<Fits>, v: u32, table: &mut RootTable)
    requires seat { IsSeatOf pool.now seat.old }
    requires node { IsNode pool.now.n v }
    requires cells { pool.now.cells < 2 ^ 32 }
    requires size { length table.old ≡ length (order_of pool.now.fact) }
    ensures chain { (found : List Linked) × HasFound MayStand pool.now seat.old v found seat.new × (table.new ≡ noted table.old (entries_of found)) }
{
    let mut walk = pool.visit(seat, v);
    for _ in 0..u64::MAX {
        let Some(entry) = walk.next(pool, seat) else {
            break;
        };
        table.note(entry);
    }
}

/// The newest entry of the chain of the node `v`, a number from 1, that covers one at the position `pos`, from 0, with the
/// distance `dist` by way of the root's hubs in the table, or None where none of the whole chain does.
pub fn covered_in_chain(
    pool: &Pool<Fits>,
    seat: &mut PoolSeat<Fits>,
    v: u32,
    table: &RootTable,
    pos: u32,
    dist: u128,
) -> Option<Entry>
    requires seat { IsSeatOf pool.now seat.old }
    requires node { IsNode pool.now.n v }
    requires cells { pool.now.cells < 2 ^ 32 }
    requires pos { pos ≤ length table.now }
    ensures chain { (found : List Linked) × HasFound MayStand pool.now seat.old v found seat.new
        × IfSome result (λ c. Contains (entries_of found) c × IsCover table.now pos dist c)
        × IfNone result (All (λ c. ¬ IsCover table.now pos dist c) (entries_of found)) }
{
    let mut cover = None;
    let mut walk = pool.visit(seat, v);
    for _ in 0..u64::MAX {
        let Some(other) = walk.next(pool, seat) else {
            break;
        };
        let other = &other;
        if cover.is_none() && table.covers(*other, pos, dist) {
            cover = Some(*other);
        }
    }
    cover
}
