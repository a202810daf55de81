//! What all workers have put in a superstep is cleaned and merged in the global table, shard by shard.
//!
//! [`begin_merging`] makes a [`MergeTask`] for each shard of a table, [`MergeTask::merge`] does it, and [`merged_table`] makes a
//! table of the shards again. It stands on gll_table (the table, and what workers hand in), label_clean and hub_index. Its callers'
//! clauses use `specs/Merging` (`AreTasksFrom`, and what contracts see of a task and of a merged shard).
#![tactic(auto)]

mod merge_task;
mod merging;
mod putting_together;

pub use merge_task::{MergeTask, Merged};
pub use merging::{Merging, begin_merging};
pub use putting_together::merged_table;
