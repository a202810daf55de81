//! An order of the nodes of a small graph by a greedy cover of its shortest paths: [`cover_order`]. A hub labelling of the graph
//! under that order is small.
//!
//! A [`CoreRoads`] holds the graph, row after row of [`Road`]s. It stands on nothing; [`number_at`], [`set_number`] and
//! [`key_of`], by which it reads and writes tables and queues, are its caller's, too. That the order is a good one is measured
//! and not proved, so nothing of it is promised.
#![tactic(auto)]

mod core_roads;
mod cover;
mod forest;
mod grove;
mod growing;
mod road;
mod table;
mod thinning;
mod worths;

pub use core_roads::CoreRoads;
pub use cover::cover_order;
pub use road::{FAR, Road, key_of, length_of, node_of};
pub use table::{number_at, set_number};
