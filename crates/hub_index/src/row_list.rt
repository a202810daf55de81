ghost use Rattle.std.specs.Prelude.{◌≡◌, ℕ, ◌+◌, ◌-◌, ◌^◌, ◌<◌, ◌≤◌, [], ◌++◌, length, map, replicate, slice_set, vec_len, IfOk, IfSome, IfNone, OnOk, OnErr};
ghost use Rattle.walk_laws.specs.Labelling.{label_row};
ghost use Rattle.hub_index.specs.HubIndex.{with_entry};
ghost use Rattle.hub_index.specs.NodeEntries.{IsGatheredRow};
ghost use Rattle.hub_index.specs.Reach.{AreBelow, IsFirstOfRows};

use crate::node_entry::NodeEntry;
use crate::reach::first_from;
use std::alloc::{AllocError, Global};
use std::marker::Model;
use walk_laws::Entry;

/// A row of entries for each of the nodes 1..n. Contracts see the list of the rows, node 1 first.
#[derive(Debug, Drop)]
pub struct RowList {
    rows: Vec<Vec<Entry>>,
}

impl Model for RowList {
    ghost use Rattle.std.specs.Prelude.{◌≡◌, ℕ, ◌^◌, ◌<◌, List, map, length};
    ghost use Rattle.walk_laws.specs.declared.entry.Entry.{Entry};

    ghost Value = { List (List Entry) };

    ghost view = { λ r. map (λ row. row.items) r.rows.items };

    ghost invariant = { λ r. length r.rows.items < 2 ^ 32 };
}

impl RowList {
    /// An empty row for each of the nodes 1..n. The only error is that memory ran out.
    pub fn new(alloc: Global, n: u32) -> Result<RowList, AllocError>
        ensures { IfOk result (λ rows. rows ≡ replicate n []) }
    {
        let mut rows = Vec::with_capacity(alloc, n as usize)?;
        for _ in 0..n {
            rows.push(Vec::new(alloc))?;
        }
        Ok(RowList { rows })
    }

    /// These rows, the first being that of node 1. It takes no memory.
    pub fn from_rows(rows: Vec<Vec<Entry>>) -> RowList
        requires { vec_len rows < 2 ^ 32 }
        ensures { result ≡ map (λ row. row.items) rows.items }
    {
        RowList { rows }
    }

    /// The rows, the first being that of node 1. It takes no memory.
    pub fn into_rows(self) -> Vec<Vec<Entry>>
        ensures { map (λ row. row.items) result.items ≡ self }
    {
        self.rows
    }

    /// An empty row for each number, with room for so many entries. The only error is that memory ran out.
    pub fn with_room(alloc: Global, room: &[usize]) -> Result<RowList, AllocError>
        requires { length room.now < 2 ^ 32 }
        ensures { IfOk result (λ rows. rows ≡ replicate (length room.now) []) }
    {
        let mut rows = Vec::with_capacity(alloc, room.len())?;
        for count in room {
            rows.push(Vec::with_capacity(alloc, *count)?)?;
        }
        Ok(RowList { rows })
    }

    /// Puts the rows of others after these. The only error is that memory ran out, and then nothing has changed.
    pub fn append(&mut self, others: RowList) -> Result<(), AllocError>
        requires { length self.old + length others < 2 ^ 32 }
        ensures ok { OnOk result (self.new ≡ self.old ++ others) }
        ensures err { OnErr result (self.new ≡ self.old) }
    {
        let mut rows = others.rows;
        self.rows.append(&mut rows)?;
        Ok(())
    }

    /// Sorts each row by position. It takes no memory.
    pub fn sort(&mut self)
        ensures size { length self.new ≡ length self.old }
        ensures rows { (v : ℕ) → 1 ≤ v → v ≤ length self.old → IsGatheredRow (label_row self.old v) (label_row self.new v) }
    {
        for k in 0..self.rows.len() {
            self.rows[k].sort_unstable_by_key(|e| e.pos);
        }
    }

    /// How many nodes there are.
    pub fn n(&self) -> u32
        ensures { result ≡ length self.now }
    {
        self.rows.len() as u32
    }

    /// The row of the node `v`, a number from 1, in the order in which its entries were pushed. It is lent in O(1).
    pub fn row(&self, v: u32) -> &[Entry]
        requires node { 1 ≤ v }
        requires within { v ≤ length self.now }
        ensures { result.now ≡ label_row self.now v }
    {
        &self.rows[v as usize - 1]
    }

    /// The first entry, by rising node and then by its place in the row, whose distance is `limit` or more, or None where there
    /// is none.
    pub(crate) fn first_from(&self, limit: u128) -> Option<NodeEntry>
        ensures some { IfSome result (IsFirstOfRows limit self.now) }
        ensures none { IfNone result (AreBelow limit self.now) }
    {
        for k in 0..self.n() {
            let v = k + 1;
            if let Some(entry) = first_from(self.row(v), limit) {
                return Some(NodeEntry::of(v, entry));
            }
        }
        None
    }

    /// Puts the entry last in the row of the node `v`, a number from 1. The only error is that memory ran out, and then
    /// nothing has changed.
    pub fn push(&mut self, v: u32, entry: Entry) -> Result<(), AllocError>
        requires node { 1 ≤ v }
        requires within { v ≤ length self.old }
        ensures ok { OnOk result (self.new ≡ with_entry self.old v entry) }
        ensures err { OnErr result (self.new ≡ self.old) }
    {
        self.rows[v as usize - 1].push(entry)?;
        Ok(())
    }

    /// Puts the entry at a place of the row of the node `v`, a number from 1, instead of the one that stood there; places count
    /// from 0. It takes no memory.
    pub fn set(&mut self, v: u32, place: usize, entry: Entry)
        requires node { 1 ≤ v }
        requires within { v ≤ length self.old }
        requires place { place < length (label_row self.old v) }
        ensures { self.new ≡ slice_set self.old (v - 1) (slice_set (label_row self.old v) place entry) }
    {
        self.rows[v as usize - 1][place] = entry;
    }

    /// Makes these entries the row of the node `v`, a number from 1. It takes no memory.
    pub(crate) fn put_row(&mut self, v: u32, row: Vec<Entry>)
        requires node { 1 ≤ v }
        requires within { v ≤ length self.old }
        ensures { self.new ≡ slice_set self.old (v - 1) row.items }
    {
        self.rows[v as usize - 1] = row;
    }
}
