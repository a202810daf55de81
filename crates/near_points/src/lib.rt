//! The nearest of a set of points to each source, from the rows of an index, with no search of a graph.
//!
//! A [`Points`] is a set of nodes, with the entries of their rows in lists by position. [`Points::nearest`] merges the lists
//! of the hubs of one source, and looks at no more of them than it gives and passes over; [`nearest_all`] does so for many
//! sources, in their order and on all cores, and gives [`Hits`]. What is given is what the rows say (`IsNearest`), for every
//! index; where they are the canonical hub labelling of a graph, it is the nearest points of the graph (`laws`).
//! It stands on hub_index (`Index`) and hub_query (of which it uses laws). Its callers' clauses use `IsNearest`
//! (specs/Nearest), `PointSet` and `IsNearestOf` (specs/PointSets).
#![tactic(auto)]

mod asking;
mod cursor;
mod hit;
mod hits;
pub mod laws;
mod merging;
mod point_words;
mod points;
mod workspace;

pub use asking::nearest_all;
pub use hit::Hit;
pub use hits::Hits;
pub use points::Points;
