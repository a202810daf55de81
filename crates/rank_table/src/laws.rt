//! The laws of rankings by degree: each function does nothing, and its contract is the law.
ghost use Rattle.rank_table.specs.DegreeLaws.{EachGraphIsRankedByDegree, RankingsByDegreeAreUnique};

/// Each graph has a ranking by degree.
pub fn each_graph_is_ranked_by_degree()
    ensures { EachGraphIsRankedByDegree }
{}

/// And only one.
pub fn the_ranking_by_degree_is_unique()
    ensures { RankingsByDegreeAreUnique }
{}
