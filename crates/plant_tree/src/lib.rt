//! Planted trees (Planting Trees, PVLDB 2019): the shortest-path tree of one root, which finds without any label of another
//! root for which nodes this root is canonical. [`plant`] makes one tree; a [`Planter`] makes one after another in the same
//! memory, for builds. It stands on frontier (the nodes to come), walk_laws (graphs, and what a canonical hub is) and
//! rank_table (rankings). Its callers' clauses use `IsCanonical` and `Joined` of walk_laws, and `AreOfNodes` and
//! `NamesEachOnce` of specs/Planted.
#![tactic(auto)]

mod highest;
mod planter;
mod tree;

pub use planter::Planter;
pub use tree::{Planted, plant, plant_counted};
