//! Cleaning of label rows: of the entries that workers put, as they went, exactly the canonical ones are kept.
//!
//! [`clean`] makes the canonical hub labelling, up to a position, of a global table and raw rows; [`clean_in_place`] takes
//! the raw rows and gives the whole labelling, with no copy of the rows; a [`Cleaner`] lets later entries, which come in
//! [`RunList`]s, join any of the rows of a global table in place, whose entries take 8 bytes where their distances fit, at the
//! cost of the later entries alone. It needs the late rows of the hubs, [`HubRows`], which are gathered of [`HubEntry`]s once for
//! all that clean. An entry is needless, and deleted, where a hub that ranks above its own is shared by the rows of its hub and
//! of its node at no greater length. It stands on walk_laws (`Entry`, the laws of covers), rank_table (`Ranking`) and hub_index
//! (`RowList`, `SplitRows`, `RootTable`, `NodeEntry`). Its callers' clauses use `HoldsBelow`, `IsRowBelow` and `IsChlBelow`
//! (specs/Below), `JoinsRow` and `JoinsUnder` (specs/Joining), `AreGathered` and `all_hub_entries` (specs/HubRows), `IsRawRow`
//! and `both_rows` (specs/RawRows), `IsNeedless` (specs/Needless), `HasItsRuns` and `all_entries` (specs/RunLists).
#![tactic(auto)]

mod cleaning;
mod cover;
mod hub_rows;
mod joining;
pub mod laws;
mod rows;
mod runs;
mod sorting;
mod taking;
mod testing;
mod turns;

pub use cleaning::{clean, clean_in_place};
pub use hub_rows::{HubEntry, HubRows};
pub use joining::Cleaner;
pub use runs::{Run, RunList};
