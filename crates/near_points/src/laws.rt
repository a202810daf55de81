//! The laws of the nearest points. Each function does nothing: its contract is the law, over all rows.
ghost use Rattle.near_points.specs.Laws.{EachSourceHasNearest, TheNearestAreUnique, TheDistancesAreLeast, TheMissingAreApart};

/// Each source has nearest points, whatever the index is.
pub fn each_source_has_nearest()
    ensures { EachSourceHasNearest }
{}

/// And only one list of them is right.
pub fn the_nearest_are_unique()
    ensures { TheNearestAreUnique }
{}

/// Where the rows are the canonical hub labelling of the graph, the distance of each is the least length of a walk.
pub fn the_distances_are_least()
    ensures { TheDistancesAreLeast }
{}

/// And where fewer than k are given, the points that are missing are those to which no walk leads.
pub fn the_missing_are_apart()
    ensures { TheMissingAreApart }
{}
