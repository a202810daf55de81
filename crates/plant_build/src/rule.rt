//! The rule of a deque of batches: what was put into it is what its passes have taken and what it still holds, each number
//! as often. It holds between any two steps of any number of hands.
use crossbeam_deque::protocol::{Join, Lesson, Outcome, Protocol, Split};
use crossbeam_deque::{Pass, Stealer, Worker};
use std::alloc::Global;
use std::collections::LinkedList;

/// What a pass knows. The first pass of a deque is its owner's, who lends the others. No value of it is made.
pub struct Known {
    /// The batches that the owner has put.
    pub put: LinkedList<u32>,
    /// The batches that were taken with this pass.
    pub got: LinkedList<u32>,
    /// How many passes the owner has lent, and how many of them have come back.
    pub lent: u64,
    pub back: u64,
    /// Whether the pass is lent, and has not come back.
    pub out: bool,
}

pub struct Balance;

impl Protocol<u32, Known> for Balance {
    ghost use Rattle.plant_build.specs.Balance.{IsBalanced, nothing};

    ghost holds = { IsBalanced };

    ghost first = { nothing };

    ghost guest = { nothing };
}

/// A batch is put.
pub struct Puts;

impl Outcome<u32, Known> for Puts {
    ghost use Rattle.std.specs.Prelude.{◌≡◌};
    ghost use Rattle.plant_build.specs.Balance.{with_put};

    ghost then = { λ v xs w. w ≡ with_put v xs };
}

/// A batch is taken.
pub struct Gets;

impl Outcome<u32, Known> for Gets {
    ghost use Rattle.std.specs.Prelude.{◌≡◌};
    ghost use Rattle.plant_build.specs.Balance.{with_got};

    ghost then = { λ v xs w. w ≡ with_got v xs };
}

/// The owner lends a pass.
pub struct Lends;

impl Split<Known> for Lends {
    ghost use Rattle.plant_build.specs.Balance.{with_lent, lent};

    ghost left = { with_lent };

    ghost right = { λ v. lent };
}

/// A pass comes back, and what was taken with it is the owner's.
pub struct Returns;

impl Join<Known> for Returns {
    ghost use Rattle.plant_build.specs.Balance.{with_returned, nothing};

    ghost both = { with_returned };

    ghost spent = { nothing };
}

/// Where all passes have come back, the owner knows all that was taken.
pub struct Whole;

impl Lesson<u32, Known> for Whole {
    ghost use Rattle.plant_build.specs.Balance.{IsWhole};

    ghost fact = { IsWhole };
}

/// A deque of batches, with its owner's end.
pub type Deque = Worker<u32, Global, Known, Balance>;

/// The other end of it, from which any thread steals.
pub type Thief = Stealer<u32, Global, Known, Balance>;

/// What a thief knows.
pub type ThiefPass = Pass<u32, Known>;
