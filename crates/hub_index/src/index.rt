ghost use Rattle.std.specs.Prelude.{◌≡◌, ◌≢◌, ℕ, ◌^◌, ◌<◌, ◌≤◌, All, length, IfOk, IfErr, IsTrue};
ghost use Rattle.walk_laws.specs.Joined.{Joined};
ghost use Rattle.walk_laws.specs.Labelling.{IsChl, label_row};
ghost use Rattle.walk_laws.specs.Overflow.{Overflows};
ghost use Rattle.hub_index.specs.declared.build_fault.BuildFault.TheVariants.{NoMemory};
ghost use Rattle.hub_index.specs.Faults.{TellsFault};
ghost use Rattle.hub_index.specs.Reach.{AreBelow};
ghost use Rattle.hub_index.specs.WellFormed.{IsWellFormed};

use crate::build_fault::BuildFault;
use crate::index_rows::IndexRows;
use crate::reach::{NOT_SHORT, TOO_FAR};
use crate::row_list::RowList;
use rank_table::Ranking;
use std::marker::Model;
use walk_laws::{Entry, Graph};

/// A ranking of the nodes 1..n, and for each node its row: the positions of its hubs, which rise, with their distances.
/// The row of a node ends with the node itself at distance 0. Contracts see the order of the nodes and the rows.
#[derive(Debug, Drop)]
pub struct Index {
    ranking: Ranking,
    rows: RowList,
    /// Whether all distances are known to be below 2^62.
    is_short: bool,
}

impl Model for Index {
    ghost use Rattle.std.specs.Prelude.{◌^◌, IsTrue};
    ghost use Rattle.hub_index.specs.HubIndex.{HubIndex};
    ghost use Rattle.hub_index.specs.Reach.{AreBelow};
    ghost use Rattle.hub_index.specs.WellFormed.{IsWellFormed};

    ghost Value = { HubIndex };

    ghost view = { λ i. record { order = i.ranking; rows = i.rows } };

    ghost invariant = { λ i. IsWellFormed i.ranking i.rows × (IsTrue i.is_short → AreBelow (2 ^ 62) i.rows) };
}

impl Index {
    /// The index of this ranking and these rows. It goes along the rows once, and takes no memory.
    pub fn new(ranking: Ranking, rows: RowList) -> Index
        requires { IsWellFormed ranking rows }
        ensures order { result.order ≡ ranking }
        ensures rows { result.rows ≡ rows }
    {
        let is_short = rows.first_from(NOT_SHORT).is_none();
        Index::with_reach(ranking, rows, is_short)
    }

    /// The index of this ranking and these rows, where it is known of them whether all distances are below 2^62. It takes no
    /// memory.
    pub fn with_reach(ranking: Ranking, rows: RowList, is_short: bool) -> Index
        requires well_formed { IsWellFormed ranking rows }
        requires short { IsTrue is_short → AreBelow (2 ^ 62) rows }
        ensures order { result.order ≡ ranking }
        ensures rows { result.rows ≡ rows }
    {
        Index {
            ranking,
            rows,
            is_short,
        }
    }

    /// The index of the canonical hub labelling of the graph, or its first hub that is too far for an index. It takes no
    /// memory.
    pub fn of_labelling(graph: &Graph, ranking: Ranking, rows: RowList) -> Result<Index, BuildFault>
        requires nodes { length ranking ≡ graph.now.n }
        requires labelling { IsChl (Joined graph.now.edges) ranking rows }
        ensures order { IfOk result (λ index. index.order ≡ ranking) }
        ensures rows { IfOk result (λ index. index.rows ≡ rows) }
        ensures fits { IfOk result (λ _. ¬ Overflows (Joined graph.now.edges) ranking) }
        ensures fault { IfErr result (λ fault. TellsFault (Joined graph.now.edges) ranking fault) }
        ensures overflow { IfErr result (λ fault. fault ≢ NoMemory) }
    {
        let _n = graph.n();
        let _ranked = ranking.n();
        if rows.first_from(NOT_SHORT).is_none() {
            return Ok(Index::with_reach(ranking, rows, true));
        }
        if let Some(far) = rows.first_from(TOO_FAR) {
            return Err(BuildFault::Overflow {
                v: far.node,
                hub: ranking.at(far.pos),
            });
        }
        Ok(Index::with_reach(ranking, rows, false))
    }

    /// Its ranking and its rows. It takes no memory.
    pub fn into_parts(self) -> (Ranking, RowList)
        ensures order { result.0 ≡ self.order }
        ensures rows { result.1 ≡ self.rows }
        ensures well_formed { IsWellFormed self.order self.rows }
    {
        let Index {
            ranking,
            rows,
            is_short: _,
        } = self;
        (ranking, rows)
    }

    /// Whether all distances are known to be below 2^62.
    pub fn is_short(&self) -> bool
        ensures { IsTrue result → (v : ℕ) → 1 ≤ v → v ≤ length self.now.order → All (λ e. e.dist < 2 ^ 62) (label_row self.now.rows v) }
    {
        self.is_short
    }

    /// How many nodes there are.
    pub fn n(&self) -> u32
        ensures value { result ≡ length self.now.order }
        ensures well_formed { IsWellFormed self.now.order self.now.rows }
    {
        self.ranking.n()
    }

    /// The ranking of the nodes.
    pub fn ranking(&self) -> &Ranking
        ensures value { result.now ≡ self.now.order }
        ensures well_formed { IsWellFormed self.now.order self.now.rows }
    {
        &self.ranking
    }

    /// Its rows, to be gone along. It takes no memory.
    pub fn rows(&self) -> IndexRows<'_>
        ensures order { result.order ≡ self.now.order }
        ensures rows { result.rows ≡ self.now.rows }
    {
        IndexRows {
            ranking: &self.ranking,
            compact: &[],
            full: &self.rows,
        }
    }

    /// The row of the node `v`, a number from 1: its hubs' positions, from 0, with their distances. It is lent in O(1).
    pub fn row(&self, v: u32) -> &[Entry]
        requires node { 1 ≤ v }
        requires within { v ≤ length self.now.order }
        ensures value { result.now ≡ label_row self.now.rows v }
        ensures well_formed { IsWellFormed self.now.order self.now.rows }
    {
        self.rows.row(v)
    }
}
