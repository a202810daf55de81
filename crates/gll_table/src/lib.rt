//! The global table of a build by GLL, and what its workers put for it in a superstep.
//!
//! [`BuildContext`] is what they know of a build, which contracts call a [`Build`]. [`Table`] is the table, in shards. In its
//! [`Workspace`] a worker lists what it put; [`WorkerOutput::new`] cuts that in parts for the shards. [`hubs_below`] looks at those
//! of all workers together; [`take_from`] is how workers take their tasks. It stands on root_claims, pruned_tree and pool_view (a
//! worker's memory), label_clean and hub_index. Its callers' clauses use `specs/Tables` (`AreShardsBelow`, `IsShardBelow`),
//! `specs/Outputs` (`HavePutOver`, `Output`), `specs/Partition` (`ListsHubs`) and `specs/Tasks` (`IsTakenFrom`).
#![tactic(auto)]

mod context;
mod named;
mod outputs;
mod partitioning;
mod table;
mod tasks;
mod workspace;

pub use context::BuildContext;
pub use named::Build;
pub use outputs::{WorkerOutput, hubs_below};
pub use table::Table;
pub use tasks::take_from;
pub use workspace::{Workspace, Workspaces};
