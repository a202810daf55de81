//! Walks without the graph: an index with its vias tells the nodes of a walk from two rows and the rows on the way, in time that
//! grows with the walk. [`trace`] answers for every such index; where it is the canonical hub labelling of a graph with its vias,
//! the walk is a shortest one by way of the highest-ranked node. `laws` has the laws of traces. It stands on entry_vias
//! (`TracedIndex`), hub_index and hub_query (`ask`, `Nodes`). Its callers' clauses use `IsTraceOf` and `TellsTheTrace`
//! (specs/Traces).
#![tactic(auto)]

pub mod laws;
mod lookup;
mod trace_answer;
mod tracing;

pub use trace_answer::Trace;
pub use tracing::trace;
