//! PLaNT, the build of the canonical hub labelling by planted trees (Planting Trees, PVLDB 2019): each root's tree is
//! planted on its own, with no look at any row, so trees grow on many cores side by side.
//!
//! [`deal`] deals batches of roots to the deques of the workers, and a [`Hand`] takes them, or steals them from the others;
//! [`settle`] accounts for them all; `batch` plants the roots of a batch; [`plant_first`] has the rows of the first so many
//! roots, [`plant_roots`] those of a job, and [`build_plant`] is the whole build. It stands on plant_tree (one tree), entry_sinks
//! (what workers put), hub_index (rows and the index), renumbering (the job, and the copy that the build works on), desk_io (the gate that watches a build), walk_laws and
//! rank_table, and on crossbeam_deque, whose handles are of atomic_blocks.
//! Its callers' clauses use `IsChl` and `IsPartChl` of walk_laws and `HubIndex` of hub_index.
#![tactic(auto)]

mod batch;
mod build;
mod collecting;
mod crew;
mod dealing;
mod hand;
mod other;
mod own;
mod rule;
mod settling;
mod worker;

pub use build::{build_plant, plant_first, plant_roots};
pub use dealing::deal;
pub use hand::Hand;
pub use settling::settle;
