use crate::answer::Audit;
use entry_vias::TracedIndex;

/// What an upgrade of an index comes to.
#[derive(Debug, Drop)]
pub enum Upgrade {
    /// The index isn't the canonical hub labelling of the graph under its own ranking, and this is the first thing that is wrong
    /// with it, never [`Audit::Same`].
    Not(Audit),
    /// It is, and here it has its vias.
    Made(TracedIndex),
}
