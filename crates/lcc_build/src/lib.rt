//! LCC, the build of the canonical hub labelling by pruned trees and cleaning (Planting Trees, PVLDB 2019): many workers grow
//! the trees of their roots at the same time, each pruned by the rows as they are then, and afterwards the entries that are
//! not canonical are deleted. One worker alone grows them in order, and then there are none to delete; in its rows an entry
//! takes 8 bytes, up to the first whose distance is 2^32 or more, and 16 from there on. [`build_lcc`] is the whole build,
//! [`lcc_share`] one worker of several. It stands on root_claims (which root comes next), label_rows (the rows that all
//! workers write), pruned_tree (one tree), label_clean (cleaning), hub_index, desk_io (the gate that watches a build),
//! walk_laws and rank_table. Its callers' clauses use `IsChl` and `Overflows` of walk_laws, and `HubIndex` and `TellsFault` of
//! hub_index; those of a worker `HasGrown` of pruned_tree.
#![tactic(auto)]

mod build;
mod ground;
mod in_order;
mod share;
mod workers;

pub use build::build_lcc;
pub use share::{Share, lcc_share};
