//! The seats of many workers at one table: how many there may be, how one is split in two and two are joined, and the
//! numbers that they draw from one counter.
//!
//! It stands on atomic_table. A crate above it has a table whose seats know something of its own; that is `W` here, and a
//! seat's whole view is a [`SeatView`] of it: how many seats the seat counts for, and what it knows. [`split_off`] and
//! [`join_in`] are one split and one join of any such table. Rules above say of their seats `IsSeating`, and of numbers that
//! seats draw `IsDrawn` (`specs/Seats`, `specs/Draws`); `proofs/Seating` and `proofs/Drawing` say that each kind of step
//! keeps them. `proofs/Counting` counts how often a number stands in a list.
#![tactic(auto)]

mod parting;
mod seat_view;

pub use parting::{Giving, Looks, Merges, Parts, Sees, Shares, join_in, split_off};
pub use seat_view::SeatView;
