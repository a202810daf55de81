//! Rankings of the nodes of a graph: a [`Ranking`] lists the nodes 1..n from the highest rank down, and finds the position
//! of a node in one step. [`by_degree`] ranks the nodes of a graph by their degrees.
//! It stands on walk_laws (a ranking as a list, `specs/Ranking`). Its callers' clauses use `IsByDegree` (specs/ByDegree).
#![tactic(auto)]

mod degrees;
mod laws;
mod ranking;

pub use degrees::by_degree;
pub use laws::{each_graph_is_ranked_by_degree, the_ranking_by_degree_is_unique};
pub use ranking::Ranking;
