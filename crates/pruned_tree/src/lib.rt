//! Pruned trees (pruned landmark labelling, SIGMOD 2013; Planting Trees, PVLDB 2019): the tree of one root, which puts the
//! root's entries in rows that others may write at the same time. [`grow`] grows one tree in a [`Work`], the memory in
//! which a worker grows one after another. What trees that begin elsewhere share with it is public: the parts of a work, and
//! [`relax_row`], which goes along the arcs of one node. It stands on frontier (the nodes to come), hub_index (the rows, as a
//! view sees them), walk_laws (graphs, and what a canonical hub is) and rank_table (rankings). Its callers' clauses use
//! specs/Grown (`IsGrown`), and of relaxing specs/Relaxed (`IsRelaxed`).
#![tactic(auto)]

mod bare;
mod growing;
mod work;

pub use bare::Bare;
pub use growing::{grow, relax_row};
pub use work::Work;
