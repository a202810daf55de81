//! The hybrid build of the canonical hub labelling: the trees of the first roots are planted (PLaNT), and those of the others
//! pruned in supersteps that begin with their rows (GLL; Planting Trees, PVLDB 2019). The first trees reach nearly everything, so
//! pruning would save nothing there, and planted trees need no look at rows; the later ones are small only as they are pruned.
//!
//! [`build_hybrid`] is the build, [`build_hybrid_split`] the same in the rows that it worked with. Both halves work on one copy
//! with other numbers, and nothing is brought back between them. It stands on plant_build and gll_build (the halves), renumbering
//! (the copy), hub_index, rank_table, walk_laws and desk_io (the gate). Its callers' clauses use `IsChl` of walk_laws.
#![tactic(auto)]

mod build;
mod halves;

pub use build::{build_hybrid, build_hybrid_split};
