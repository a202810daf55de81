//! The laws of walks and hubs. Each function does nothing: its contract is the law, over every list of edges.
ghost use Rattle.walk_laws.specs.Laws.{PartsOfLeastAreLeast, LengthsAddUpOnTheWay, NodesBeforeTheEndAreNearer, LeastLengthsAreShort, HubsAreInherited, HubsHaveNoCover, TheTopIsAHubOfBothEnds, TheTopExists, TheTopIsUnique, OthersHaveACover, TheLabellingExists, TheLabellingIsUnique, EachPairHasAnAnswer, AnswersAreUnique, EachPairHasAWalkAnswer, WalkAnswersAreUnique, TheRowsTellTheAnswer, TheLightestKeepLengths, TheLightestKeepHubs, TheLightestKeepTheLabelling};

/// Where a walk to a node and one from it together have the least length, each of them has the least length.
pub fn a_part_of_a_least_walk_is_least()
    ensures { PartsOfLeastAreLeast }
{}

/// A node is on a shortest walk exactly where the least lengths to it and from it add up to the least length.
pub fn lengths_add_up_on_the_way()
    ensures { LengthsAddUpOnTheWay }
{}

/// Each node on a shortest walk but its end is strictly nearer to the start, as all weights are at least 1.
pub fn nodes_before_the_end_are_nearer()
    ensures { NodesBeforeTheEndAreNearer }
{}

/// A shortest walk passes no node twice, so its length is at most n - 1 times the greatest weight.
pub fn least_lengths_are_short()
    ensures { LeastLengthsAreShort }
{}

/// A hub of a node is a hub of each node on a shortest walk between the two.
pub fn a_canonical_hub_is_inherited()
    ensures { HubsAreInherited }
{}

/// No higher-ranked node has walks to a hub and to its node that are together no longer than the hub's distance.
pub fn no_cover_of_a_canonical_entry()
    ensures { HubsHaveNoCover }
{}

/// The highest-ranked node on the shortest walks of a pair is a hub of both.
pub fn the_top_is_a_hub_of_both_ends()
    ensures { TheTopIsAHubOfBothEnds }
{}

/// Where a walk leads from a node, some node is the highest-ranked one on the shortest walks.
pub fn the_top_exists()
    ensures { TheTopExists }
{}

/// On the shortest walks from a node there is one highest-ranked node at most.
pub fn the_top_is_unique()
    ensures { TheTopIsUnique }
{}

/// The end of a walk has its start for a hub, at no greater distance, or a higher-ranked hub of both covers the walk.
pub fn every_other_entry_has_a_cover()
    ensures { OthersHaveACover }
{}

/// A graph and a ranking have a canonical hub labelling.
pub fn the_labelling_exists()
    ensures { TheLabellingExists }
{}

/// A graph and a ranking have one canonical hub labelling at most.
pub fn the_labelling_is_unique()
    ensures { TheLabellingIsUnique }
{}

/// Each pair of nodes has an answer: it is apart, or has a least length and a highest-ranked node between.
pub fn each_pair_has_an_answer()
    ensures { EachPairHasAnAnswer }
{}

/// Each pair of nodes has one answer at most.
pub fn the_answer_is_unique()
    ensures { AnswersAreUnique }
{}

/// Each pair of nodes has an answer where a walk is asked for: it is apart, or has a first shortest walk.
pub fn each_pair_has_a_walk_answer()
    ensures { EachPairHasAWalkAnswer }
{}

/// Each pair of nodes has one answer at most where a walk is asked for.
pub fn the_walk_answer_is_unique()
    ensures { WalkAnswersAreUnique }
{}

/// The two rows of a pair in the canonical hub labelling say its answer: the least sum of the distances at a shared
/// position, and the node at the first position that has it.
pub fn the_rows_tell_the_answer()
    ensures { TheRowsTellTheAnswer }
{}

/// By the lightest of the edges between two nodes alone, least lengths, hubs and the canonical hub labelling are the same.
pub fn the_lightest_edges_keep_the_labelling()
    ensures lengths { TheLightestKeepLengths }
    ensures hubs { TheLightestKeepHubs }
    ensures labelling { TheLightestKeepTheLabelling }
{}
