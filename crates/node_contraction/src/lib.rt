//! A ranking of the nodes of a graph by contraction, the top of it by a cover of shortest paths: [`contraction_order`]. It
//! suits road networks and most others, and makes an index far smaller than a ranking by degree does.
//!
//! It stands on walk_laws (graphs), rank_table (rankings) and path_cover (the order of the core). Its callers' clauses use `IsRanking` of walk_laws alone: that
//! the ranking is a good one is measured and not proved, so nothing else of it is promised.
#![tactic(auto)]

mod contraction;
mod costs;
mod lengths;
mod order;
mod roads;
mod weights;
mod witness;

pub use order::contraction_order;
