//! Trees that are gone on with (dynamic pruned landmark labelling, WWW 2014): where a graph has gained edges, the tree of a
//! root goes on from the ends of those, over rows that have its entries of before. [`resume`] goes on with one tree in a
//! [`Work`](pruned_tree::Work), the memory of all of them; what it changes are entries of its root alone. It stands on
//! pruned_tree (how arcs are gone along), frontier (the nodes to come), hub_index (the rows), walk_laws and rank_table. Its
//! callers' clauses use specs/Resumed (`AreWalks`, `Has`, `CameToHave`, `IsResumed`).
#![tactic(auto)]

mod resuming;
mod taking;

pub use resuming::{Start, resume};
