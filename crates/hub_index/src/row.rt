//! The row of one node by itself, most of whose entries take half the room.
ghost use Rattle.std.specs.Prelude.{◌≡◌, ℕ, ◌<◌, ◌≤◌, [], ◌∷◌, ◌++◌, All, length, IfOk, OnOk, OnErr};
ghost use Rattle.hub_index.specs.RootDistances.{HoldsRow};
ghost use Rattle.hub_index.specs.Views.{IsAnswerOf, with_put};

use crate::compact_row::{CompactEntry, cover_of_parts, joined_parts, note_parts};
use crate::root_table::RootTable;
use crate::row_view::Offer;
use crate::split_rows::FIRST_ROOM;
use std::alloc::{AllocError, Global};
use std::marker::Model;
use walk_laws::Entry;

/// The row of a node: entries of 8 bytes, and from the first on whose distance is too great for that, entries of 16. Contracts
/// see the list of its entries.
#[derive(Drop)]
pub struct Row {
    compact: Vec<CompactEntry>,
    full: Vec<Entry>,
}

impl Model for Row {
    ghost use Rattle.std.specs.Prelude.{List};
    ghost use Rattle.walk_laws.specs.declared.entry.Entry.{Entry};
    ghost use Rattle.hub_index.specs.CompactRows.{row_of_parts};

    ghost Value = { List Entry };

    ghost view = { λ r. row_of_parts r.compact.items r.full.items };
}

impl Row {
    /// A row without entries. It takes no memory.
    pub fn new(alloc: Global) -> Row
        ensures { result ≡ [] }
    {
        Row {
            compact: Vec::new(alloc),
            full: Vec::new(alloc),
        }
    }

    /// A row without entries, with room for some, so that a short row asks for memory once. The only error is that memory ran
    /// out.
    pub fn with_room(alloc: Global) -> Result<Row, AllocError>
        ensures { IfOk result (λ row. row ≡ []) }
    {
        Ok(Row {
            compact: Vec::with_capacity(alloc, FIRST_ROOM)?,
            full: Vec::new(alloc),
        })
    }

    /// Makes the table hold the least distance of each position of the row, and nothing else. It takes no memory.
    pub fn load(&self, table: &mut RootTable)
        requires { All (λ e. e.pos < length table.old) self.now }
        ensures held { HoldsRow table.new self.now }
        ensures size { length table.new ≡ length table.old }
    {
        table.clear();
        note_parts(&self.compact, &self.full, table);
    }

    /// Puts the entry after the row unless an entry of the row covers it by way of the root's hubs in the table. No memory
    /// is taken where an entry covers, and where there is none the row stays as it was.
    pub fn offer(&mut self, entry: Entry, table: &RootTable) -> Offer
        requires { entry.pos ≤ length table.now }
        ensures answer { IsAnswerOf table.now self.old entry result }
        ensures row { self.new ≡ with_put self.old entry result }
    {
        if let Some(cover) = cover_of_parts(
            &self.compact,
            &self.full,
            table,
            entry.pos,
            entry.dist.get(),
        ) {
            return Offer::Covered {
                pos: cover.pos,
                dist: cover.dist.get(),
            };
        }
        if self.push(entry).is_err() {
            return Offer::NoMemory;
        }
        Offer::Put
    }

    /// Puts the entry after the row. The only error is that memory ran out, and then nothing has changed.
    fn push(&mut self, entry: Entry) -> Result<(), AllocError>
        ensures ok { OnOk result (self.new ≡ self.old ++ entry ∷ []) }
        ensures err { OnErr result (self.new ≡ self.old) }
    {
        let near = entry.dist.to_u32();
        if self.full.is_empty() {
            if let Some(dist) = near {
                self.compact.push(CompactEntry {
                    pos: entry.pos,
                    dist,
                })?;
                return Ok(());
            }
        }
        self.full.push(entry)?;
        Ok(())
    }

    /// The entries of the row, in just the room that they take. The only error is that memory ran out.
    pub fn into_entries(self, alloc: Global) -> Result<Vec<Entry>, AllocError>
        ensures { IfOk result (λ entries. entries.items ≡ self) }
    {
        let Row { compact, full } = self;
        joined_parts(alloc, &compact, &full)
    }
}
