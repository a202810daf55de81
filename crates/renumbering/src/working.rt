ghost use Rattle.std.specs.Prelude.{◌≡◌, length, IfOk, IfErr};
ghost use Rattle.walk_laws.specs.Joined.{Joined};
ghost use Rattle.walk_laws.specs.Labelling.{IsChl};
ghost use Rattle.walk_laws.specs.Overflow.{Overflows};
ghost use Rattle.hub_index.specs.Faults.{TellsFault};
ghost use Rattle.renumbering.specs.Copies.{IsCopyOf};

use crate::renumbered::{renumbered_graph, renumbered_ranking};
use crate::rows::{rows_back, split_rows_back};
use crate::search::bfs_order;
use hub_index::{BuildFault, Index, RowList, SplitIndex, SplitRows};
use rank_table::Ranking;
use std::alloc::{AllocError, Global};
use walk_laws::Graph;

/// A graph and a ranking as a build works on them: of the edges between two nodes the lightest alone, and neighbours by
/// numbers near one another. Positions, lengths and hubs are those of the graph and the ranking that it was made of.
#[derive(Debug, Drop)]
pub struct WorkingCopy {
    /// The graph by its new numbers.
    pub graph: Graph,
    /// The ranking by the new numbers.
    pub ranking: Ranking,
    /// The nodes by their old numbers, in the order of the new ones.
    pub bfs_order: Ranking,
}

impl WorkingCopy {
    /// The copy that a build of this graph and this ranking works on, in O(n log n + m log d) for n nodes and m edges, with
    /// at most d at a node. The only error is that memory ran out.
    pub fn new(alloc: Global, graph: &Graph, ranking: &Ranking) -> Result<WorkingCopy, AllocError>
        requires { length ranking.now ≡ graph.now.n }
        ensures copy { IfOk result (λ copy. IsCopyOf graph.now ranking.now copy) }
        ensures nodes { IfOk result (λ copy. length copy.ranking ≡ copy.graph.n) }
    {
        let lightest = graph.lightest(alloc)?;
        let n = lightest.n();
        let ranked = ranking.n();
        prove!(n == ranked);
        let bfs_order = bfs_order(alloc, &lightest)?;
        let graph = renumbered_graph(alloc, &lightest, &bfs_order)?;
        let ranking = renumbered_ranking(alloc, ranking, &bfs_order)?;
        Ok(WorkingCopy {
            graph,
            ranking,
            bfs_order,
        })
    }

    /// The index of the graph and the ranking that the copy was made of, from the labelling of the copy, or its first hub that is
    /// too far for an index. No entry is copied, and the only other error is that memory ran out.
    pub fn index(
        self,
        alloc: Global,
        graph: &Graph,
        ranking: &Ranking,
        rows: RowList,
    ) -> Result<Index, BuildFault>
        requires nodes { length ranking.now ≡ graph.now.n }
        requires copy { IsCopyOf graph.now ranking.now self }
        requires labelling { IsChl (Joined self.graph.edges) self.ranking rows }
        ensures order { IfOk result (λ index. index.order ≡ ranking.now) }
        ensures labelling { IfOk result (λ index. IsChl (Joined graph.now.edges) ranking.now index.rows) }
        ensures fits { IfOk result (λ _. ¬ Overflows (Joined graph.now.edges) ranking.now) }
        ensures fault { IfErr result (λ fault. TellsFault (Joined graph.now.edges) ranking.now fault) }
    {
        let n = graph.n();
        let ranked = ranking.n();
        let bfs_ordered = self.bfs_order.n();
        prove!(n == ranked && n == bfs_ordered);
        let order = ranking.copy(alloc)?;
        let back = rows_back(alloc, &self.bfs_order, rows)?;
        Index::of_labelling(graph, order, back)
    }

    /// The same from a labelling in split rows.
    pub fn split_index(
        self,
        alloc: Global,
        graph: &Graph,
        ranking: &Ranking,
        rows: SplitRows,
    ) -> Result<SplitIndex, BuildFault>
        requires nodes { length ranking.now ≡ graph.now.n }
        requires copy { IsCopyOf graph.now ranking.now self }
        requires labelling { IsChl (Joined self.graph.edges) self.ranking rows }
        ensures order { IfOk result (λ index. index.order ≡ ranking.now) }
        ensures labelling { IfOk result (λ index. IsChl (Joined graph.now.edges) ranking.now index.rows) }
        ensures fits { IfOk result (λ _. ¬ Overflows (Joined graph.now.edges) ranking.now) }
        ensures fault { IfErr result (λ fault. TellsFault (Joined graph.now.edges) ranking.now fault) }
    {
        let n = graph.n();
        let ranked = ranking.n();
        let bfs_ordered = self.bfs_order.n();
        prove!(n == ranked && n == bfs_ordered);
        let back = split_rows_back(alloc, &self.bfs_order, rows)?;
        SplitIndex::of_labelling(graph, ranking.copy(alloc)?, back)
    }
}
