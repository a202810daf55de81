//! A workload made of two numbers: the graph of a square grid whose edges have weights from a seed, and what the rows of an
//! index come to in all.
//!
//! [`grid_graph`] makes the graph, and [`totals_of`] counts the entries of an index and adds up their distances. `worked` has the
//! grid of side 2 from the seed 1, worked by hand. It stands on walk_laws (`Graph`) and hub_index (`Index`). Its callers'
//! clauses use `grid` and `grid_edges` (specs/Grid) and `entry_count` and `distance_sum` (specs/Totals).
#![tactic(auto)]

mod grid;
mod totals;
mod weights;
pub mod worked;

pub use grid::grid_graph;
pub use totals::{Totals, totals_of};
