//! The law of labellings up to a position. The function does nothing: its contract is the law, over every graph.
ghost use Rattle.label_clean.specs.Laws.{TheWholeIsTheLabelling};

/// The canonical hub labelling up to the end of the ranking is the canonical hub labelling.
pub fn the_whole_is_the_labelling()
    ensures { TheWholeIsTheLabelling }
{}
