//! Entries as workers put them, and the rows that are gathered of them.
//!
//! An [`EntrySink`] takes what one worker puts, in any order, and [`gather`] makes rows of what many put. `laws` has the law
//! that such rows are a part of the canonical hub labelling. It stands on walk_laws (`Entry`, `IsPartChl`) and hub_index
//! (`NodeEntry`, `RowList`). Its callers' clauses use `specs/Sunk` (`Sunk`, `sunk_at`, `all_sunk`,
//! `HoldsPart`), of which `proofs/PartsOfLabellings` has the law.
#![tactic(auto)]

mod entry_sink;
mod gathering;
pub mod laws;
mod range_entries;

pub use entry_sink::EntrySink;
pub use gathering::gather;
pub use range_entries::{AnyNodeEntry, CompactNodeEntry, RangeEntries};
