//! Opened edges: yesterday's index of a graph and the few edges of today give the index of the longer graph, with no build
//! (dynamic pruned landmark labelling, WWW 2014).
//!
//! [`open_edges`] finds where the hubs of one end of an edge go on at the other, in both directions of each edge. Then each hub
//! goes on from all these starts, by one resumed tree that changes only what the edges make nearer; at the end the needless
//! entries are cleaned away.
//! [`opened_graph`] is the longer graph. It stands on resumed_tree (a tree that goes on), pruned_tree (its memory),
//! label_clean (cleaning), hub_index, rank_table and walk_laws. Its callers' clauses use `opened` (specs/Opened), `IsChl` and
//! `Overflows` of walk_laws, and `TellsFault` of hub_index.
#![tactic(auto)]

mod graph;
mod opening;
mod starts;
mod trees;

pub use graph::opened_graph;
pub use opening::open_edges;
