//! The laws of vias. Each function does nothing: its contract is the law, over every graph, ranking and index.
ghost use Rattle.entry_vias.specs.Laws.{TheViaIsThere, TheRowsTellTheVia, EachRowHasVias, ViasAreOne, TheLabellingHasVias};

/// In the canonical hub labelling each entry but the node's own has a neighbour that is nearer to the hub by the weight of the
/// arc between.
pub fn the_via_is_there()
    ensures { TheViaIsThere }
{}

/// The least such neighbour is the least node before the entry's node on a shortest walk from the hub.
pub fn the_rows_tell_the_via()
    ensures { TheRowsTellTheVia }
{}

/// Any rows have vias.
pub fn each_row_has_vias()
    ensures { EachRowHasVias }
{}

/// And only one list of them.
pub fn vias_are_one()
    ensures { ViasAreOne }
{}

/// The vias of the canonical hub labelling, where an index can keep it, may stand beside its rows: 0 for a node's own entry, and a
/// node, but the row's own, for each other.
pub fn the_labelling_has_vias()
    ensures { TheLabellingHasVias }
{}
