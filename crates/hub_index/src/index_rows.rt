//! The rows of an index, lent to whoever goes along each of them from its first entry on.
ghost use Rattle.std.specs.Prelude.{◌≡◌, ◌≤◌, length};
ghost use Rattle.walk_laws.specs.Labelling.{label_row};
ghost use Rattle.hub_index.specs.CompactRows.{row_of_parts};
ghost use Rattle.hub_index.specs.WellFormed.{IsWellFormed};

use crate::compact_row::CompactEntry;
use crate::row_list::RowList;
use rank_table::Ranking;
use std::marker::Model;
use walk_laws::Entry;

/// The rows of an index and its ranking, however the rows are stored: each has two parts, entries that take half the room and
/// after them entries in full room. Contracts see the order of the nodes and the rows.
#[derive(Drop)]
pub struct IndexRows<'a> {
    pub(crate) ranking: &'a Ranking,
    /// The first part of each node's row, or nothing where all rows are in full room.
    pub(crate) compact: &'a [Vec<CompactEntry>],
    /// The second part of each node's row.
    pub(crate) full: &'a RowList,
}

impl<'a> Model for IndexRows<'a> {
    ghost use Rattle.std.specs.Prelude.{map};
    ghost use Rattle.hub_index.specs.HubIndex.{HubIndex};
    ghost use Rattle.hub_index.specs.CompactRows.{rows_after};
    ghost use Rattle.hub_index.specs.WellFormed.{IsWellFormed};

    ghost Value = { HubIndex };

    ghost view = { λ i. record { order = i.ranking.now; rows = rows_after (map (λ row. row.items) i.compact.now) i.full.now } };

    ghost invariant = { λ i. IsWellFormed i.ranking.now (rows_after (map (λ row. row.items) i.compact.now) i.full.now) };
}

impl<'a> IndexRows<'a> {
    /// How many nodes there are.
    pub fn n(&self) -> u32
        ensures value { result ≡ length self.now.order }
        ensures well_formed { IsWellFormed self.now.order self.now.rows }
    {
        self.ranking.n()
    }

    /// The ranking of the nodes.
    pub fn ranking(&self) -> &Ranking
        ensures value { result.now ≡ self.now.order }
        ensures well_formed { IsWellFormed self.now.order self.now.rows }
    {
        self.ranking
    }

    /// The two parts of the row of the node `v`, a number from 1: hubs' positions, from 0, with their distances. They are lent
    /// in O(1).
    pub fn row(&self, v: u32) -> (&[CompactEntry], &[Entry])
        requires node { 1 ≤ v }
        requires within { v ≤ length self.now.order }
        ensures value { row_of_parts result.0.now result.1.now ≡ label_row self.now.rows v }
        ensures well_formed { IsWellFormed self.now.order self.now.rows }
    {
        let full = self.full.row(v);
        let place = v as usize - 1;
        if place < self.compact.len() {
            return (&self.compact[place], full);
        }
        (&[], full)
    }
}
