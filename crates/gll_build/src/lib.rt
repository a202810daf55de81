//! The build of the canonical hub labelling in supersteps (GLL; Planting Trees, PVLDB 2019): workers grow the trees of the
//! next roots over a global table that nobody writes; what they put is cleaned and merged in the table, shard by shard.
//!
//! [`build_gll`] is the whole build, [`build_gll_split`] the same in the rows that it worked with; [`build_gll_from`] and
//! [`gll_rows_from`] begin with the rows of the first roots, as [`grow_roots`] does by a job; [`superstep`] is one step.
//! It stands on root_claims, gll_table (the table), gll_superstep (what a worker does), gll_merge (what is done with what they
//! put), label_clean, hub_index, renumbering and desk_io (the gate). Its callers' clauses use `IsChl` of walk_laws and `IsChlBelow`
//! of label_clean.
#![tactic(auto)]

mod build;
mod next_stage;
mod scheduler;
mod workers;

pub use build::{build_gll, build_gll_from, build_gll_split, gll_rows_from, grow_roots, superstep};
