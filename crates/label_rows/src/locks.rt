//! The locks of nodes: a seat takes the lock of a node with its row, and gives both back.
ghost use Rattle.std.specs.Prelude.{◌≡◌, ◌+◌, ◌-◌, ◌≤◌, None, [], ◌∷◌, All, length};
ghost use Rattle.walk_laws.specs.Joined.{Joined};
ghost use Rattle.walk_laws.specs.Labelling.{EntryFits};
ghost use Rattle.hub_index.specs.Views.{IsNode, GoesOnFrom};
ghost use Rattle.label_rows.specs.Lawful.{took, gave, MayGive};
ghost use Rattle.label_rows.specs.Visits.{seen_of};

use crate::rule::{About, Gives, Law, Takes, View};
use atomic_table::{Seat, Shared};
use hub_index::Row;
use std::alloc::Global;
use std::hint::spin_loop;
use std::sync::Wait;
use std::thread::yield_now;
use table_seats::SeatView;

/// The words and slots of rows.
pub type Locks = Shared<Row, SeatView<View>, About, Law>;

/// Takes the lock of the node `v`, a number from 1, and its row out of the slot, by one swap for each try. It waits while
/// another seat has the lock.
pub fn take<R: Wait>(
    rt: &R,
    alloc: Global,
    locks: &Locks,
    seat: &mut Seat<Row, SeatView<View>>,
    v: u32,
) -> Row
    requires table { seat.old.table_id ≡ locks.now.table_id }
    requires words { locks.now.table_id.words ≡ length seat.old.me.0.knows.order + 1 }
    requires live { 1 ≤ seat.old.me.0.seats }
    requires free { (seat.old.me.0.knows.hold ≡ None) × (seat.old.me.1 ≡ []) }
    requires node { IsNode (length seat.old.me.0.knows.order) v }
    ensures same { (seat.new.table_id ≡ seat.old.table_id) × (seat.new.id ≡ seat.old.id) }
    ensures took { seat.new.me ≡ (took seat.old.me.0 v result, (v - 1, []) ∷ []) }
    ensures fit { All (EntryFits (Joined seat.old.me.0.knows.edges) seat.old.me.0.knows.order v) result }
    ensures goes_on { GoesOnFrom (seen_of seat.old.me.0.knows.visits v) result }
{
    let mut tries = 0;
    for _ in rt.forever() {
        if locks.swap::<Takes>(seat, v as usize, 1) == 0 {
            return locks.exchange(seat, v as usize - 1, Row::new(alloc));
        }
        tries = pause(tries);
    }
    unreachable!()
}

/// After so many tries in vain a seat yields its processor between one and the next.
const TRIES_BEFORE_YIELDING: u32 = 100;

/// Lets a moment pass between two tries: a lock is held for the scan of one row, so the first of them come in a spin. It
/// answers how many tries there were, counted up to where the seat yields.
fn pause(tries: u32) -> u32 {
    if tries < TRIES_BEFORE_YIELDING {
        spin_loop();
        return tries + 1;
    }
    yield_now();
    tries
}

/// Puts the row of the node `v`, a number from 1, back into its slot, and gives the lock back. The row is as it was found, or
/// has one entry more.
pub fn give(locks: &Locks, seat: &mut Seat<Row, SeatView<View>>, v: u32, row: Row)
    requires table { seat.old.table_id ≡ locks.now.table_id }
    requires words { locks.now.table_id.words ≡ length seat.old.me.0.knows.order + 1 }
    requires live { 1 ≤ seat.old.me.0.seats }
    requires node { IsNode (length seat.old.me.0.knows.order) v }
    requires slot { seat.old.me.1 ≡ (v - 1, []) ∷ [] }
    requires may { MayGive seat.old.me.0 v row }
    ensures same { (seat.new.table_id ≡ seat.old.table_id) × (seat.new.id ≡ seat.old.id) }
    ensures gave { seat.new.me ≡ (gave seat.old.me.0 row, []) }
{
    locks.exchange(seat, v as usize - 1, row);
    locks.store::<Gives>(seat, v as usize, 0);
}
