//! Weighted undirected graphs, walks, hubs and label rows: what they are, and the laws that hold of them.
//!
//! `graph` has the type `Graph`, which keeps its edge list and each node's arcs in compressed rows, `rows` places
//! the rows, and `arc_row` has the arcs in half the room; `lightest` keeps the edges that matter; `entry` has the entries of label rows and `dist` their distances. `laws` has a function for each law of walks and hubs, and `worked` has
//! two small graphs, worked by hand. It stands on std alone. Its callers' clauses use `specs/Graph` (`WeightedGraph`,
//! `IsGraph`, `IsEdge`, `greatest_weight`, `arcs_at`), `specs/Lightest`, `specs/Joined`, `specs/Ranking`, and of walks and hubs `specs/Walk`,
//! `Least`, `On`, `Top`, `Canonical`, `Cover`, `Labelling`, `Answer` and `Meet`. `tools/definitions walk_laws` prints each.
#![tactic(auto)]

mod arc_row;
mod dist;
mod entry;
mod graph;
pub mod laws;
mod lightest;
mod rows;
pub mod worked;

pub use arc_row::{AnyArc, ArcRow, NarrowArc};
pub use dist::Dist;
pub use entry::Entry;
pub use graph::{Arc, Edge, Graph};

/// Memory ran out: the only error of this crate.
pub use std::alloc::AllocError as NoMemory;
