//! One split and one join of seats, at any table. Both take no memory and never wait.
ghost use Rattle.std.specs.Prelude.{◌≡◌, ◌≤◌, ◌<◌, []};
ghost use mathlib.Core.Option.{none};
ghost use Rattle.atomic_table.specs.Table.{Allows, Joins, Splits, step};
ghost use Rattle.table_seats.specs.Seats.{kept_of, given_of, joined, spent, looked};

use crate::seat_view::SeatView;
use atomic_table::{Join, Play, Seat, Shared, Split, TableRule};
use std::marker::{Brand, PhantomData};

/// What becomes of a seat's knowledge where seats are split and joined.
pub trait Shares<W> {
    /// What a seat knows that was just split from one which knows this; that one goes on knowing it.
    ghost given: { W → W };

    /// What a seat knows into which another was joined.
    ghost both: { W → W → W };

    /// What a seat knows that was joined into another.
    ghost nothing: { W };
}

/// What a look shows of the seat that looks.
pub trait Sees<W> {
    ghost sees: { W → Type 0 };
}

/// How many seats a split gives away. The call that splits picks it.
pub trait Giving {
    ghost use Rattle.std.specs.Prelude.{ℕ};

    ghost give: { ℕ };
}

impl Giving for Brand {
    ghost give = { 0 };
}

/// A new seat is split from a seat.
pub struct Parts<H, G> {
    marker: PhantomData<(H, G)>,
}

impl<W, H: Shares<W>, G: Giving> Split<SeatView<W>> for Parts<H, G> {
    ghost use Rattle.table_seats.specs.Seats.{kept_of, given_of};

    ghost left = { kept_of G.give };

    ghost right = { given_of H.given G.give };
}

/// A seat is joined into another.
pub struct Merges<H> {
    marker: PhantomData<H>,
}

impl<W, H: Shares<W>> Join<SeatView<W>> for Merges<H> {
    ghost use Rattle.table_seats.specs.Seats.{joined, spent};

    ghost both = { joined H.both };

    ghost spent = { spent H.nothing };
}

/// Nothing changes, and the seat is seen to be one of at most 64.
pub struct Looks<T> {
    marker: PhantomData<T>,
}

impl<S, W, T: Sees<W>> Play<S, SeatView<W>> for Looks<T> {
    ghost use Rattle.table_seats.specs.Seats.{looked};

    ghost then = { looked T.sees };
}

/// Splits a new seat off, from which `give` more may be split; the old one loses those and one for the new seat itself.
pub fn split_off<H: Shares<W>, S, W, K, P: TableRule<S, SeatView<W>, K>>(
    table: &Shared<S, SeatView<W>, K, P>,
    seat: &mut Seat<S, SeatView<W>>,
    give: u32,
) -> Seat<S, SeatView<W>>
    requires table { (seat.old.table_id ≡ table.now.table_id) × (1 ≤ table.now.table_id.words) }
    requires may { Splits (P.holds table.now.key) seat.old.id seat.old.me.0 (kept_of give seat.old.me.0) (given_of H.given give seat.old.me.0) }
    ensures old { (seat.new.table_id ≡ seat.old.table_id) × (seat.new.id ≡ seat.old.id) × (seat.new.me ≡ (kept_of give seat.old.me.0, seat.old.me.1)) }
    ensures new { (result.table_id ≡ seat.old.table_id) × (result.me ≡ (given_of H.given give seat.old.me.0, [])) }
{
    part::<H, Brand, S, W, K, P>(table, seat, give)
}

// `G` tells the rule how many seats are given away.
fn part<H: Shares<W>, G: Giving, S, W, K, P: TableRule<S, SeatView<W>, K>>(
    table: &Shared<S, SeatView<W>, K, P>,
    seat: &mut Seat<S, SeatView<W>>,
    give: u32,
) -> Seat<S, SeatView<W>>
    requires give { give ≡ G.give }
    requires table { (seat.old.table_id ≡ table.now.table_id) × (1 ≤ table.now.table_id.words) }
    requires may { Splits (P.holds table.now.key) seat.old.id seat.old.me.0 (kept_of G.give seat.old.me.0) (given_of H.given G.give seat.old.me.0) }
    ensures old { (seat.new.table_id ≡ seat.old.table_id) × (seat.new.id ≡ seat.old.id) × (seat.new.me ≡ (kept_of G.give seat.old.me.0, seat.old.me.1)) }
    ensures new { (result.table_id ≡ seat.old.table_id) × (result.me ≡ (given_of H.given G.give seat.old.me.0, [])) }
{
    table.split_seat::<Parts<H, G>>(seat)
}

/// Joins the other seat into this one, and then looks, so that what the joined seat counts for is seen to be small.
pub fn join_in<H: Shares<W>, T: Sees<W>, S, W, K, P: TableRule<S, SeatView<W>, K>>(
    table: &Shared<S, SeatView<W>, K, P>,
    seat: &mut Seat<S, SeatView<W>>,
    other: Seat<S, SeatView<W>>,
)
    requires table { (seat.old.table_id ≡ table.now.table_id) × (other.table_id ≡ table.now.table_id) × (1 ≤ table.now.table_id.words) }
    requires slots { other.me.1 ≡ [] }
    requires may { Joins (P.holds table.now.key) seat.old.id seat.old.me.0 other.id other.me.0 (joined H.both seat.old.me.0 other.me.0) (spent H.nothing) }
    requires look { Allows (P.holds table.now.key) table.now.table_id.slots seat.old.id (joined H.both seat.old.me.0 other.me.0, seat.old.me.1) 0 (λ n. n) (looked T.sees (step table.now.table_id.slots 0 0 0 none) (joined H.both seat.old.me.0 other.me.0, seat.old.me.1)) }
    ensures seat { (seat.new.table_id ≡ seat.old.table_id) × (seat.new.id ≡ seat.old.id) × (seat.new.me ≡ (joined H.both seat.old.me.0 other.me.0, seat.old.me.1)) }
    ensures few { seat.new.me.0.seats ≤ 64 }
    ensures sees { T.sees seat.new.me.0.knows }
{
    table.join_seat::<Merges<H>>(seat, other);
    table.load::<Looks<T>>(seat, 0);
}
