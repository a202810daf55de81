//! The law of rows. The function does nothing: its contract is the law, over every graph.
ghost use Rattle.hub_index.specs.Laws.{TheLabellingIsWellFormed};

/// The canonical hub labelling of a graph none of whose hubs is too far is well formed: positions rise, a node's own entry is
/// the last of its row, and every other distance is at least 1 and below 2^64.
pub fn the_labelling_is_well_formed()
    ensures { TheLabellingIsWellFormed }
{}
