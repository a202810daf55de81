//! The rows of a superstep as one worker sees and grows them: the global table, which nobody writes, the pool, which all
//! workers write, and the worker's own rows, which take what the pool has no cell for.
//!
//! A [`PoolView`] is a `hub_index::RowView`, so pruned trees grow over it as they do over plain rows. It is made of a pool
//! whose entries may stand in the rows of a graph's nodes ([`Fits`]), of a seat at it, of the global table, of [`OwnRows`],
//! which a worker keeps from one superstep to the next, chains through the end of a list, which gets all that the worker puts. It
//! stands on label_pool (the pool and its seats) and hub_index (rows, tables, what a view promises). Its callers' clauses use
//! `specs/Fitting` (`Fitting`, `IsFittingPool`) and `specs/Viewing` (`Viewing`, `whole_row`, `seen_row`, `puts_row`).
#![tactic(auto)]

mod chain;
mod chains;
mod fits;
mod node_chain;
mod puts;
mod view;

pub use fits::Fits;
pub use puts::OwnRows;
pub use view::PoolView;
