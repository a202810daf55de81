//! The laws of what two rows say of a pair. Each function does nothing: its contract is the law, over all rows.
ghost use Rattle.hub_query.specs.Laws.{EachPairHasAMeet, TheMeetIsUnique, EachPairHasAPath, ThePathIsUnique, ThePathIsTheWalk};

/// The rows of each two nodes of an index say something of the pair.
pub fn each_pair_has_a_meet()
    ensures { EachPairHasAMeet }
{}

/// And they say one thing only.
pub fn the_meet_is_unique()
    ensures { TheMeetIsUnique }
{}

/// The walk of each two nodes of an index is answered something, for every graph.
pub fn each_pair_has_a_path()
    ensures { EachPairHasAPath }
{}

/// And it is answered one thing only.
pub fn the_path_is_unique()
    ensures { ThePathIsUnique }
{}

/// Where the rows are the canonical hub labelling of the graph, the walk by them is the first shortest walk.
pub fn the_path_is_the_walk()
    ensures { ThePathIsTheWalk }
{}
