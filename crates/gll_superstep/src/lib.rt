//! What the workers of a superstep do, each for itself: they claim the next roots, and grow their trees over a global table that
//! nobody writes.
//!
//! [`begin_superstep`] makes a [`GrowTask`] for each worker, in its workspace, with a pool that was made before ([`PoolSlot`]);
//! [`GrowTask::grow`] is a worker's whole work; [`end_superstep`] takes the [`Outputs`] of all. It stands on gll_table (the table,
//! the workspace and what a worker hands in), pruned_tree, pool_view over label_pool, root_claims, label_clean, hub_index and
//! desk_io (the gate).
#![tactic(auto)]

mod grow_task;
mod growing;
mod grown;
mod next_pool;
mod superstep;

pub use grow_task::{GrowTask, GrowTasks};
pub use grown::{EndedSuperstep, Grown, Outputs, end_superstep};
pub use next_pool::PoolSlot;
pub use superstep::begin_superstep;
