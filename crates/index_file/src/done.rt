ghost use Rattle.std.specs.Prelude.{◌≡◌, ◌↔◌, ℕ, ◌+◌, ◌^◌, ◌<◌, ◌≤◌, ◌==◌, [], All, length, is_some, IsTrue, IfSome, IfOk, OnOk};
ghost use Rattle.walk_laws.specs.Ranking.{IsRanking};
ghost use Rattle.hub_index.specs.Reach.{IsBelow};
ghost use Rattle.hub_index.specs.WellFormed.{IsWellFormed};
ghost use Rattle.entry_vias.specs.RowVias.{HaveVias};
ghost use Rattle.index_file.specs.Parts.{next_node, next_own, no_vias, more_vias, with_row};
ghost use Rattle.index_file.specs.Stored.{stored_index};

use crate::stored_index::StoredIndex;
use entry_vias::{TracedIndex, Vias};
use hub_index::{Index, RowList};
use rank_table::Ranking;
use std::alloc::{AllocError, Global};
use std::marker::Model;
use walk_laws::Entry;

/// A ranking, the rows of its first nodes, and their vias where the index has such.
#[derive(Drop)]
pub struct Done {
    ranking: Ranking,
    rows: Vec<Vec<Entry>>,
    vias: Option<Vias>,
    /// Whether all distances are below 2^62.
    is_short: bool,
}

impl Model for Done {
    ghost use Rattle.std.specs.Prelude.{◌^◌, map, IsTrue};
    ghost use Rattle.hub_index.specs.Reach.{AreBelow};
    ghost use Rattle.index_file.specs.Parts.{ReadRows};

    ghost Value = { ReadRows };

    ghost view = { λ d. record { order = d.ranking; rows = map (λ row. row.items) d.rows.items; vias = d.vias } };

    ghost invariant = { λ d. IsTrue d.is_short → AreBelow (2 ^ 62) (map (λ row. row.items) d.rows.items) };
}

impl Done {
    /// The ranking with this order of nodes, without rows, of an index with vias or without.
    pub fn new(alloc: Global, order: Vec<u32>, traced: bool) -> Result<Done, AllocError>
        requires { IsRanking order.items }
        ensures { IfOk result (λ done. done ≡ record { order = order.items; rows = []; vias = no_vias traced }) }
    {
        Ok(Done {
            ranking: Ranking::new(alloc, order)?,
            rows: Vec::new(alloc),
            vias: none_yet(alloc, traced)?,
            is_short: true,
        })
    }

    /// How many nodes there are.
    pub fn n(&self) -> u32
        ensures { result ≡ length self.now.order }
    {
        self.ranking.n()
    }

    /// Whether the index has vias.
    pub fn is_traced(&self) -> bool
        ensures { result ≡ is_some self.now.vias }
    {
        self.vias.is_some()
    }

    /// Whether each node has its row.
    pub fn is_whole(&self) -> bool
        ensures { result ≡ (length self.now.rows == length self.now.order) }
    {
        self.rows.len() == self.ranking.n() as usize
    }

    /// Whether the next row isn't the last one.
    pub fn has_more(&self) -> bool
        ensures { IsTrue result ↔ (length self.now.rows + 1 < length self.now.order) }
    {
        self.rows.len() + 1 < self.ranking.n() as usize
    }

    /// The node, a number from 1, whose row is the next one.
    pub fn node(&self) -> u32
        requires { length self.now.rows < 2 ^ 30 }
        ensures { result ≡ next_node self.now }
    {
        self.rows.len() as u32 + 1
    }

    /// The position, from 0, of the node whose row is the next one.
    pub fn own(&self) -> u32
        requires small { length self.now.rows < 2 ^ 30 }
        requires more { length self.now.rows < length self.now.order }
        ensures { result ≡ next_own self.now }
    {
        self.ranking.pos(self.node())
    }

    /// Puts one row more last, with its vias where the index has such; it may be said that its distances are below 2^62.
    pub fn push(
        &mut self,
        row: Vec<Entry>,
        row_vias: &[u32],
        is_short: bool,
    ) -> Result<(), AllocError>
        requires few { IfSome self.old.vias (λ vias. length vias + 1 < 2 ^ 32) }
        requires short { IsTrue is_short → All (IsBelow (2 ^ 62)) row.items }
        ensures { OnOk result (self.new ≡ with_row self.old row.items row_vias.now) }
    {
        self.is_short = self.is_short && is_short;
        self.rows.push(row)?;
        push_vias(&mut self.vias, row_vias)
    }

    /// The index, where each node has its row.
    pub fn into_stored(self) -> StoredIndex
        requires rows { IsWellFormed self.order self.rows }
        requires vias { IfSome self.vias (HaveVias self.rows) }
        ensures { result ≡ stored_index self.order self.rows self.vias }
    {
        let Done {
            ranking,
            rows,
            vias,
            is_short,
        } = self;
        let index = Index::with_reach(ranking, RowList::from_rows(rows), is_short);
        match vias {
            None => StoredIndex::Plain(index),
            Some(vias) => StoredIndex::Traced(TracedIndex::new(index, vias)),
        }
    }
}

/// No lists of vias yet, of an index with vias or without; only the former takes memory.
fn none_yet(alloc: Global, traced: bool) -> Result<Option<Vias>, AllocError>
    ensures { IfOk result (λ vias. vias ≡ no_vias traced) }
{
    if !traced {
        return Ok(None);
    }
    let vias = Vias::new(alloc)?;
    Ok(Some(vias))
}

/// Puts the vias of a row last, where the index has such.
fn push_vias(vias: &mut Option<Vias>, row: &[u32]) -> Result<(), AllocError>
    requires { IfSome vias.old (λ lists. length lists + 1 < 2 ^ 32) }
    ensures { OnOk result (vias.new ≡ more_vias vias.old row.now) }
{
    match vias {
        None => Ok(()),
        Some(lists) => lists.push_row(row),
    }
}
