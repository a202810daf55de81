//! The audit of an index that somebody else made: whether it is the canonical hub labelling of a graph under a ranking, and
//! if not, the first entry that is at fault. It looks at the rows of a node, its hubs and its neighbours alone, makes no
//! search and takes no memory: see [`audit`], [`audit_on`] for all cores, and [`audit_traced_on`] for an index whose vias are
//! judged, too. [`upgrade`] gives an index that it finds to be the labelling its vias. `laws` has the laws that these checks
//! decide, and that each index has one answer. It stands on walk_laws (`Graph`, the laws of hubs), rank_table (`Ranking`),
//! hub_index (`Index`), entry_vias (`TracedIndex`, `vias_of`) and, in its proofs alone, on hub_query (rows and arcs in order).
//! Its callers' clauses use `IsAuditOf` (specs/Audited), `IsTracedAuditOf` (specs/TracedAudits) and `IsUpgradeOf`
//! (specs/Upgrades), which stand on the checks of an entry (specs/Checks).
#![tactic(auto)]

mod answer;
mod auditing;
mod beside;
mod covering;
mod entry_checks;
pub mod laws;
mod lookup;
mod neighbours;
mod upgraded;
mod upgrading;

pub use answer::Audit;
pub use auditing::{audit, audit_on, audit_traced_on};
pub use upgraded::Upgrade;
pub use upgrading::upgrade;
