//! The frontier of a shortest-path tree: which nodes are queued, at which distance, and which are settled.
//!
//! [`Frontier`] keeps for each node a [`Reach`]; an offer lowers it, and a take settles a nearest queued node. What a node
//! carries beside its distance is the user's, who says by [`Carry`] which of two counts that came at one distance. It
//! stands on std alone, over its `BinaryHeap`, of which callers learn nothing. Their clauses use `specs/Reaches`
//! (`reach_at`, `improves`, `better`, `offered`, `with_offer`, `settled`).
#![tactic(auto)]

mod carry;
mod frontier;
mod heap_entries;
mod heap_entry;
mod places;
mod reach;

pub use carry::Carry;
pub use frontier::Frontier;
pub use reach::{Found, Reach};
