ghost use Rattle.std.specs.Prelude.{◌≡◌, ◌≢◌, ℕ, ◌≤◌, [], length, replicate, IfOk};
ghost use Rattle.walk_laws.specs.Joined.{Joined};
ghost use Rattle.walk_laws.specs.Labelling.{EntryFits, label_row};
ghost use Rattle.hub_index.specs.PlainRows.{IsGathered};
ghost use Rattle.hub_index.specs.RootDistances.{HoldsRow};
ghost use Rattle.hub_index.specs.Views.{IsNode, IsFoundOnward, IsAnswerOf, with_put};

use crate::root_table::RootTable;
use crate::row_list::RowList;
use crate::row_view::{Offer, RowView};
use crate::split_rows::SplitRows;
use rank_table::Ranking;
use std::alloc::{AllocError, Global};
use std::marker::Model;
use std::snapshot::Snapshot;
use walk_laws::{Entry, Graph};

/// The rows of a graph's nodes under a ranking, for one thread, in which most entries take half the room. The graph and the ranking are kept for contracts alone,
/// without bytes. Contracts see the edges, the order of the nodes and the rows.
#[derive(Drop)]
pub struct PlainRows {
    rows: SplitRows,
    graph: Snapshot<Graph>,
    ranking: Snapshot<Ranking>,
}

impl Model for PlainRows {
    ghost use Rattle.hub_index.specs.PlainRows.{GatheredRows, IsGathered};

    ghost Value = { GatheredRows };

    ghost view = { λ r. record { edges = r.graph.value.edges; order = r.ranking.value; rows = r.rows } };

    ghost invariant = { λ r. IsGathered r.graph.value.edges r.ranking.value r.rows };
}

impl PlainRows {
    /// An empty row for each node of the graph. The only error is that memory ran out.
    pub fn new(alloc: Global, graph: &Graph, ranking: &Ranking) -> Result<PlainRows, AllocError>
        requires { length ranking.now ≡ graph.now.n }
        ensures edges { IfOk result (λ view. view.edges ≡ graph.now.edges) }
        ensures order { IfOk result (λ view. view.order ≡ ranking.now) }
        ensures rows { IfOk result (λ view. view.rows ≡ replicate graph.now.n []) }
    {
        Ok(PlainRows {
            rows: SplitRows::new(alloc, graph.n())?,
            graph: Snapshot::of(graph),
            ranking: Snapshot::of(ranking),
        })
    }

    /// The rows, with the entries that were put in them, each in just the room that it takes. Each row goes as soon as its
    /// entries stand there. The only error is that memory ran out.
    pub fn into_rows(self, alloc: Global) -> Result<RowList, AllocError>
        ensures rows { IfOk result (λ rows. rows ≡ self.rows) }
        ensures gathered { IsGathered self.edges self.order self.rows }
    {
        let PlainRows {
            rows,
            graph: _,
            ranking: _,
        } = self;
        rows.into_rows(alloc)
    }
}

/// The rows themselves are what was last seen of them, and all that was put: the row that a call finds is the list seen
/// before, and after a put the list seen is that row with the entry after it.
impl RowView for PlainRows {
    ghost use Rattle.walk_laws.specs.Joined.{Joined};
    ghost use Rattle.walk_laws.specs.Labelling.{EntryFits, label_row};

    ghost edges = { λ view. view.edges };

    ghost order = { λ view. view.order };

    ghost fact = { λ view v e. EntryFits (Joined view.edges) view.order v e };

    ghost seen = { λ view v. label_row view.rows v };

    ghost puts = { λ view v. label_row view.rows v };

    ghost Kept = { Unit {0} };

    ghost kept = { λ _. tt };

    ghost fact_fits = { λ view v e. (λ fits. fits, λ fits. fits) };

    fn load_root(&mut self, h: u32, table: &mut RootTable)
        requires node { IsNode (length self.old.order) h }
        requires size { length table.old ≡ length self.old.order }
        ensures same { self.new ≡ self.old }
        ensures found { IsFoundOnward (EntryFits (Joined self.old.edges) self.old.order h) (label_row self.old.rows h) (label_row self.new.rows h) }
        ensures held { HoldsRow table.new (label_row self.new.rows h) }
        ensures size { length table.new ≡ length table.old }
    {
        self.rows.load(h, table);
    }

    fn offer(&mut self, v: u32, entry: Entry, table: &RootTable) -> Offer
        requires node { IsNode (length self.old.order) v }
        requires size { length table.now ≡ length self.old.order }
        requires fits { EntryFits (Joined self.old.edges) self.old.order v entry }
        ensures edges { self.new.edges ≡ self.old.edges }
        ensures order { self.new.order ≡ self.old.order }
        ensures found { IsFoundOnward (EntryFits (Joined self.old.edges) self.old.order v) (label_row self.old.rows v) (label_row self.old.rows v) }
        ensures answer { IsAnswerOf table.now (label_row self.old.rows v) entry result }
        ensures row { label_row self.new.rows v ≡ with_put (label_row self.old.rows v) entry result }
        ensures others { (x : ℕ) → 1 ≤ x → x ≢ v → label_row self.new.rows x ≡ label_row self.old.rows x }
    {
        self.rows.offer(v, entry, table)
    }
}
