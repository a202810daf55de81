//! Other numbers for the nodes of a graph, by which neighbours stand near one another in memory, and the way back.
//!
//! [`bfs_order`] is an order of the nodes by breadth-first search; a node's new number is its place there. [`renumbered_graph`] and
//! [`renumbered_ranking`] are a graph and a ranking by the new numbers, and [`rows_back`] gives each node the row that stands
//! under its new number, [`split_rows_back`] of split rows. `laws` has the law that the labelling comes back so. It stands on
//! walk_laws, rank_table and hub_index. Its callers' clauses use `number_in`, `renumbered` and `renumbered_edges`
//! (specs/Renumbered). [`Job`] is what a build stands on.
#![tactic(auto)]

mod job;
pub mod laws;
mod renumbered;
mod rows;
mod search;
mod working;

pub use job::Job;
pub use renumbered::{renumbered_graph, renumbered_ranking};
pub use rows::{rows_back, split_rows_back};
pub use search::bfs_order;
pub use working::WorkingCopy;
