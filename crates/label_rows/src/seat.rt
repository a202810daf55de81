ghost use Rattle.std.specs.Prelude.{◌≡◌};

use crate::rule::View;
use atomic_table::Seat;
use hub_index::Row;
use std::marker::Model;
use table_seats::SeatView;

/// The right of one worker to take locks at rows, and to split seats off. It goes from thread to thread and is never
/// copied. Contracts see whose it is, how many seats may still be split from it, and its visits: at which node it found
/// which row and put which entry, with the visits of the seats that were joined into it.
#[derive(Drop)]
pub struct RowSeat {
    pub(crate) seat: Seat<Row, SeatView<View>>,
    pub(crate) left: u32,
}

impl Model for RowSeat {
    ghost use Rattle.std.specs.Prelude.{◌≡◌, ◌<◌, ◌+◌, None, []};
    ghost use Rattle.label_rows.specs.Seats.{Seated, rows_id};

    ghost Value = { Seated };

    ghost view = { λ s. record { rows = rows_id s.seat.table_id s.seat.me.0.knows; left = s.left; visits = s.seat.me.0.knows.visits } };

    ghost invariant = { λ s. (s.seat.me.0.seats ≡ s.left + 1) × (s.left < 64) × (s.seat.me.0.knows.hold ≡ None) × (s.seat.me.1 ≡ []) };
}

impl RowSeat {
    /// How many seats may still be split from this one.
    pub fn left(&self) -> u32
        ensures { result ≡ self.now.left }
    {
        self.left
    }
}
