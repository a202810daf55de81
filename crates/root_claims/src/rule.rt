//! The rule of the claims: what a seat knows, and what a draw changes. The definitions stand in `specs/Lawful`.
use atomic_table::{Play, TableRule};
use std::collections::LinkedList;
use table_seats::{SeatView, Sees, Shares};

/// The numbers from `first` up to but not including `n` are drawn, by at most so many seats at one time. The last two are fixed
/// when claims are made; `first` goes on where the last seat settles what was drawn.
#[derive(Drop)]
pub struct Bounds {
    pub first: u32,
    pub n: u32,
    pub seats: u32,
}

/// What a seat at the table knows. No value of it is made.
pub struct View {
    pub of: Bounds,
    /// The numbers that it drew, and those of the seats that were joined into it.
    pub got: LinkedList<u32>,
    /// Whether it drew the end, or was split from a seat or joined with one that was over.
    pub over: bool,
    /// Whether the seat that was last joined into it drew from the same number on.
    pub alike: bool,
}

pub struct Law;

impl TableRule<(), SeatView<View>, Bounds> for Law {
    ghost use Rattle.root_claims.specs.Lawful.{Holds, first_view};

    ghost holds = { Holds };

    ghost first = { first_view };
}

/// A number is drawn.
pub struct Draws;

impl Play<(), SeatView<View>> for Draws {
    ghost use Rattle.root_claims.specs.Lawful.{Drew};

    ghost then = { Drew };
}

/// The last seat settles what was drawn, and draws from the next number on.
pub struct Settles;

impl Play<(), SeatView<View>> for Settles {
    ghost use Rattle.root_claims.specs.Lawful.{Settled};

    ghost then = { Settled };
}

/// A split seat has got no number; a join puts the numbers of both seats together.
pub struct Handing;

impl Shares<View> for Handing {
    ghost use Rattle.root_claims.specs.Lawful.{given, both, nothing};

    ghost given = { given };

    ghost both = { both };

    ghost nothing = { nothing };
}

impl Sees<View> for Handing {
    ghost use Rattle.root_claims.specs.Lawful.{GotOnce};

    ghost sees = { GotOnce };
}
