ghost use Rattle.std.specs.Prelude.{◌≡◌};

use crate::rule::View;
use atomic_table::Seat;
use std::marker::Model;
use table_seats::SeatView;

/// The right of one worker to put entries into a pool, to walk its chains, and to split seats off. It goes from thread to
/// thread and is never copied. Between two calls it has less than a block of cells in reserve. Contracts see whose it is, how
/// many seats may still be split from it, what it drew, put and found, each with what was joined into it, which cells it has
/// in reserve and which were left to those seats, what it and the seat that it was split from saw, and whether it drew past
/// the last cell.
#[derive(Drop)]
pub struct PoolSeat<F> {
    pub(crate) seat: Seat<(), SeatView<View<F>>>,
    pub(crate) left: u32,
    /// The first cell that it has in reserve, a number from 0, and the one after the last.
    pub(crate) next: u32,
    pub(crate) end: u32,
}

impl<F> Model for PoolSeat<F> {
    ghost use Rattle.std.specs.Prelude.{◌≡◌, ◌<◌, ◌+◌, None, []};
    ghost use Rattle.label_pool.specs.Seats.{AreWithin, HasReserve, Seated, seated};

    ghost Value = { Seated F };

    ghost view = { λ s. seated s.seat.table_id s.left s.seat.me.0.knows };

    ghost invariant = { λ s. (s.seat.me.0.seats ≡ s.left + 1) × (s.left < 64) × (s.seat.me.0.knows.filling ≡ None) × (s.seat.me.1 ≡ []) × AreWithin s.seat.me.0.knows
        × HasReserve s.seat.me.0.knows s.next s.end × (s.end < s.next + s.seat.me.0.knows.block) };
}

impl<F> PoolSeat<F> {
    /// How many seats may still be split from this one.
    pub fn left(&self) -> u32
        ensures { result ≡ self.now.left }
    {
        self.left
    }
}
