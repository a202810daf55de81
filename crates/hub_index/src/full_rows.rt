//! Rows that are nearly always all empty.
ghost use Rattle.std.specs.Prelude.{◌≡◌, ◌-◌, ◌≤◌, [], length, replicate, slice_set, IfOk, OnOk, OnErr};
ghost use Rattle.walk_laws.specs.Labelling.{label_row};
ghost use Rattle.hub_index.specs.HubIndex.{with_entry};

use crate::row_list::RowList;
use std::alloc::{AllocError, Global};
use std::marker::Model;
use walk_laws::Entry;

/// A row for each of the nodes 1..n. Of rows that were made empty none is looked at before an entry is put. Contracts see the
/// list of the rows, node 1 first.
#[derive(Drop)]
pub struct FullRows {
    rows: RowList,
    /// Whether an entry was put in one of them.
    any: bool,
}

impl Model for FullRows {
    ghost use Rattle.std.specs.Prelude.{◌≡◌, List, [], All, false};
    ghost use Rattle.walk_laws.specs.declared.entry.Entry.{Entry};

    ghost Value = { List (List Entry) };

    ghost view = { λ r. r.rows };

    ghost invariant = { λ r. r.any ≡ false → All (λ row. row ≡ []) r.rows };
}

impl FullRows {
    /// An empty row for each of the nodes 1..n. The only error is that memory ran out.
    pub fn new(alloc: Global, n: u32) -> Result<FullRows, AllocError>
        ensures { IfOk result (λ rows. rows ≡ replicate n []) }
    {
        Ok(FullRows {
            rows: RowList::new(alloc, n)?,
            any: false,
        })
    }

    /// The row of the node `v`, a number from 1. It is lent in O(1).
    pub fn row(&self, v: u32) -> &[Entry]
        requires node { 1 ≤ v }
        requires within { v ≤ length self.now }
        ensures { result.now ≡ label_row self.now v }
    {
        if !self.any {
            return &[];
        }
        self.rows.row(v)
    }

    /// Puts the entry last in the row of the node `v`, a number from 1. The only error is that memory ran out, and then
    /// nothing has changed.
    pub fn push(&mut self, v: u32, entry: Entry) -> Result<(), AllocError>
        requires node { 1 ≤ v }
        requires within { v ≤ length self.old }
        ensures ok { OnOk result (self.new ≡ with_entry self.old v entry) }
        ensures err { OnErr result (self.new ≡ self.old) }
    {
        self.rows.push(v, entry)?;
        self.any = true;
        Ok(())
    }

    /// Makes these entries the row of the node `v`, a number from 1. It takes no memory.
    pub fn put_row(&mut self, v: u32, row: Vec<Entry>)
        requires node { 1 ≤ v }
        requires within { v ≤ length self.old }
        ensures { self.new ≡ slice_set self.old (v - 1) row.items }
    {
        if self.any || !row.is_empty() {
            self.rows.put_row(v, row);
            self.any = true;
        }
    }

    /// These rows. It takes no memory.
    pub fn of(rows: RowList) -> FullRows
        ensures { result ≡ rows }
    {
        FullRows { rows, any: true }
    }

    /// The rows, lent.
    pub fn list(&self) -> &RowList
        ensures { result.now ≡ self.now }
    {
        &self.rows
    }

    /// The rows. It takes no memory.
    pub fn into_list(self) -> RowList
        ensures { result ≡ self }
    {
        let FullRows { rows, any: _ } = self;
        rows
    }
}
