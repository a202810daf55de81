//! Label rows as they are gathered, and the index: a ranking with a well formed row of hubs for each node.
//!
//! A [`RowList`] has a row of entries for each of the nodes 1..n, to which entries are pushed; [`SplitRows`] are such rows in
//! which most entries take half the room, and [`FromLast`] gives those of one row from the last one on. [`Shards`] says how
//! the nodes are dealt to shards, each of them split rows of its own that one worker may write, and [`ShardedRows`] are the
//! rows of all shards, lent as one table. A [`RootTable`] has the least distances of a row by position, by which entries of
//! another row are seen to cover. A [`RowView`] is what one worker sees of rows while it grows trees, [`PlainRows`] being
//! that of one thread over split rows, and a [`Row`] is one row, to which entries are offered. A [`NodeEntry`] is an entry with
//! the node to whose row it belongs. An [`Index`] is a ranking with its rows, and keeps that they are well formed; so is a
//! [`SplitIndex`], over split rows, and [`IndexRows`] are the rows of either, lent. Each is made of a labelling unless a hub is
//! too far, which a [`BuildFault`] then tells. `laws` has the law that all other canonical hub labellings are well formed.
//! It stands on walk_laws (`Entry`, `label_row`) and rank_table (`Ranking`). Its callers' clauses use `specs/HubIndex`
//! (`HubIndex`, `with_entry`), `specs/WellFormed` (`IsWellFormed`, `IsWellFormedRow`, `own_entry`), `specs/Faults` (`TellsFault`), `specs/Reach` (`AreBelow`), `specs/RootDistances`
//! (`root_distance`, `noted`, `IsCover`, `HoldsRow`), `specs/Views` (`IsNode`, `IsFound`, `IsFoundOnward`, `IsAnswerOf`,
//! `with_put`), `specs/CompactRows` (`row_of_parts`, `rows_of_parts`), `specs/NodeEntries` (`entries_of_node`, `IsGatheredRow`),
//! `specs/PlainRows` (`IsGathered`) and `specs/Shards` (`shard_number`, `shard_place`, `node_at`, `shard_size`,
//! `AreShards`, `shard_of`, `sharded_rows`), of which `proofs/DealtNodes` and `proofs/RowsInShards` have the laws.
#![tactic(auto)]

mod build_fault;
mod compact_row;
mod from_last;
mod full_rows;
mod index;
mod index_rows;
pub mod laws;
mod node_entry;
mod plain_rows;
mod reach;
mod root_table;
mod row;
mod row_list;
mod row_view;
mod sharded_rows;
mod shards;
mod split_index;
mod split_rows;

pub use build_fault::BuildFault;
pub use compact_row::CompactEntry;
pub use from_last::FromLast;
pub use index::Index;
pub use index_rows::IndexRows;
pub use node_entry::NodeEntry;
pub use plain_rows::PlainRows;
pub use root_table::{RootTable, covered};
pub use row::Row;
pub use row_list::RowList;
pub use row_view::{Offer, RowView};
pub use sharded_rows::ShardedRows;
pub use shards::Shards;
pub use split_index::SplitIndex;
pub use split_rows::SplitRows;
pub use walk_laws::Entry;
