//! The node before each entry: of each entry of an index the neighbour of its node by which a shortest walk from the hub
//! comes, so that walks can be told without the graph.
//!
//! [`vias_of`] finds the vias of all entries from the rows of a finished index and the graph, in one pass by many workers: by
//! inheritance a hub's entry in the row of the neighbour is nearer by just the weight of the arc between. [`Vias`] has a list of
//! vias for each node, and a [`TracedIndex`] is an index with its vias. `slot` and `looking` find those of one row; [`ranges`]
//! shares nodes out; `laws` has the laws of vias. It stands on walk_laws (`Graph`, the laws of hubs) and hub_index (`Index`). Its
//! callers' clauses use `specs/Vias` (`IsVia`, of walks) and `specs/RowVias` (`IsRowVia`, `AreVias`, `HaveVias`, `via_row`, of
//! rows).
#![tactic(auto)]

pub mod laws;
mod looking;
mod making;
pub mod ranges;
mod slot;
mod traced_index;
mod vias;

pub use making::vias_of;
pub use traced_index::TracedIndex;
pub use vias::Vias;
