ghost use Rattle.std.specs.Prelude.{◌≡◌};

use label_pool::LinkFact;
use rank_table::Ranking;
use std::marker::Model;
use std::snapshot::Snapshot;
use walk_laws::Graph;

/// The fact of a pool whose entries may stand in the rows of a graph's nodes under a ranking: each is the length of a walk
/// to a hub ranked no lower than the node. The graph and the ranking are kept for contracts alone, without bytes. Contracts
/// see the edges and the order of the nodes.
#[derive(Drop)]
pub struct Fits {
    graph: Snapshot<Graph>,
    ranking: Snapshot<Ranking>,
}

impl Model for Fits {
    ghost use Rattle.pool_view.specs.Fitting.{Fitting};

    ghost Value = { Fitting };

    ghost view = { λ f. record { edges = f.graph.value.edges; order = f.ranking.value } };
}

impl LinkFact for Fits {
    ghost use Rattle.pool_view.specs.Fitting.{MayStand};

    ghost fact = { MayStand };
}

impl Fits {
    /// The fact for this graph and this ranking.
    pub fn of(graph: &Graph, ranking: &Ranking) -> Fits
        ensures edges { result.edges ≡ graph.now.edges }
        ensures order { result.order ≡ ranking.now }
    {
        Fits {
            graph: Snapshot::of(graph),
            ranking: Snapshot::of(ranking),
        }
    }
}
