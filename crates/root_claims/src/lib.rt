//! The claims of roots: numbers that the seats of many workers draw, each once.
//!
//! [`Claims`] has a counter that goes from a first number up to `n`; each [`ClaimSeat`] draws by one atomic step and never
//! waits, may be split in two and joined with another, and the last one closes the claims. It stands on atomic_table: the
//! counter is a word of a table under a rule of its own (`rule`, `specs/Lawful`), which holds between any two steps of any
//! number of seats. How seats are counted, split and joined is table_seats' matter. Its callers' clauses use `specs/Seats`
//! (`IsSeatOf`) and `numbers` of table_seats.
#![tactic(auto)]

mod claim;
mod claims;
pub mod laws;
mod rule;

pub use claim::Claim;
pub use claims::{ClaimSeat, Claims};
