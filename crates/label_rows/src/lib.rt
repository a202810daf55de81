//! The label rows that many workers write at the same time, and lose no entry of.
//!
//! [`Rows`] has a row for each node, after a lock of its own; each worker has a [`RowSeat`], and through its [`RowHand`]
//! it sees and grows rows as pruned trees do (`hub_index::RowView`). It stands on atomic_table: the locks are words of a
//! table and the rows its slots, under a rule (`rule`, `specs/Lawful`) which holds between any two steps of any number of
//! seats; how these are counted, split and joined is table_seats' matter. Its callers' clauses use `specs/Seats` (`IsSeatOf`) and `specs/Visits` (`puts_of`, `seen_of`).
#![tactic(auto)]

mod hand;
pub mod laws;
mod locks;
mod rows;
mod rule;
mod seat;

pub use hand::RowHand;
pub use rows::Rows;
pub use seat::RowSeat;
