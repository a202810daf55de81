ghost use Rattle.std.specs.Prelude.{◌≡◌, ◌≢◌, length, IfOk, IfErr};
ghost use Rattle.walk_laws.specs.Joined.{Joined};
ghost use Rattle.walk_laws.specs.Labelling.{IsChl};
ghost use Rattle.walk_laws.specs.Overflow.{Overflows};
ghost use Rattle.hub_index.specs.declared.build_fault.BuildFault.TheVariants.{NoMemory};
ghost use Rattle.hub_index.specs.Faults.{TellsFault};
ghost use Rattle.hub_index.specs.WellFormed.{IsWellFormed};

use crate::build_fault::BuildFault;
use crate::index::Index;
use crate::index_rows::IndexRows;
use crate::reach::{NOT_SHORT, TOO_FAR};
use crate::split_rows::SplitRows;
use rank_table::Ranking;
use std::alloc::{AllocError, Global};
use std::marker::Model;
use walk_laws::Graph;

/// An index most of whose entries take half the room: a ranking of the nodes 1..n, and for each node its row. Contracts see the
/// order of the nodes and the rows.
#[derive(Drop)]
pub struct SplitIndex {
    ranking: Ranking,
    rows: SplitRows,
}

impl Model for SplitIndex {
    ghost use Rattle.hub_index.specs.HubIndex.{HubIndex};
    ghost use Rattle.hub_index.specs.WellFormed.{IsWellFormed};

    ghost Value = { HubIndex };

    ghost view = { λ i. record { order = i.ranking; rows = i.rows } };

    ghost invariant = { λ i. IsWellFormed i.ranking i.rows };
}

impl SplitIndex {
    /// The index of this ranking and these rows. It takes no memory.
    pub fn new(ranking: Ranking, rows: SplitRows) -> SplitIndex
        requires { IsWellFormed ranking rows }
        ensures order { result.order ≡ ranking }
        ensures rows { result.rows ≡ rows }
    {
        SplitIndex { ranking, rows }
    }

    /// The index of the canonical hub labelling of the graph, or its first hub that is too far for an index. It looks only at
    /// entries in full room, and takes no memory.
    pub fn of_labelling(
        graph: &Graph,
        ranking: Ranking,
        rows: SplitRows,
    ) -> Result<SplitIndex, BuildFault>
        requires nodes { length ranking ≡ graph.now.n }
        requires labelling { IsChl (Joined graph.now.edges) ranking rows }
        ensures order { IfOk result (λ index. index.order ≡ ranking) }
        ensures rows { IfOk result (λ index. index.rows ≡ rows) }
        ensures fits { IfOk result (λ _. ¬ Overflows (Joined graph.now.edges) ranking) }
        ensures fault { IfErr result (λ fault. TellsFault (Joined graph.now.edges) ranking fault) }
        ensures overflow { IfErr result (λ fault. fault ≢ NoMemory) }
    {
        let _n = graph.n();
        let _ranked = ranking.n();
        if let Some(far) = rows.first_from(TOO_FAR) {
            return Err(BuildFault::Overflow {
                v: far.node,
                hub: ranking.at(far.pos),
            });
        }
        Ok(SplitIndex::new(ranking, rows))
    }

    /// Its rows, to be gone along. It takes no memory.
    pub fn rows(&self) -> IndexRows<'_>
        ensures order { result.order ≡ self.now.order }
        ensures rows { result.rows ≡ self.now.rows }
    {
        self.rows.under(&self.ranking)
    }

    /// The same index, whose entries all take the full room. The only error is that memory ran out.
    pub fn into_index(self, alloc: Global) -> Result<Index, AllocError>
        ensures order { IfOk result (λ index. index.order ≡ self.order) }
        ensures rows { IfOk result (λ index. index.rows ≡ self.rows) }
    {
        let SplitIndex { ranking, rows } = self;
        let is_short = rows.first_from(NOT_SHORT).is_none();
        Ok(Index::with_reach(ranking, rows.into_rows(alloc)?, is_short))
    }
}
