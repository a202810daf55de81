//! The law of gathered rows. The function does nothing: its contract is the law, over every graph.
ghost use Rattle.entry_sinks.specs.Laws.{TheGatheredAreThePart};

/// Entries in any order that are those of the hubs at some positions, none twice, are gathered to that part of the
/// canonical hub labelling.
pub fn the_gathered_are_the_part()
    ensures { TheGatheredAreThePart }
{}
