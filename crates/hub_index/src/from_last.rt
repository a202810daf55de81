//! A walk along a row from its last entry on: first the entries in full room, then those in half the room.
ghost use Rattle.std.specs.Iterator.{YieldsFirst, item_count};

use crate::compact_row::CompactEntry;
use std::marker::Model;
use walk_laws::Entry;

/// The entries of a row, from the last one on. Contracts see the list of those that are left.
#[derive(Drop)]
pub struct FromLast<'a> {
    pub(crate) compact: &'a [CompactEntry],
    pub(crate) full: &'a [Entry],
}

impl<'a> Model for FromLast<'a> {
    ghost use Rattle.std.specs.Prelude.{List, reverse};
    ghost use Rattle.walk_laws.specs.declared.entry.Entry.{Entry};
    ghost use Rattle.hub_index.specs.CompactRows.{row_of_parts};

    ghost Value = { List Entry };

    ghost view = { λ c. reverse (row_of_parts c.compact.now c.full.now) };
}

impl<'a> Iterator for FromLast<'a> {
    type Item = Entry;

    ghost next_gives = { YieldsFirst (λ rest. rest) };

    ghost remaining = { item_count (λ rest. rest) };

    fn next(&mut self) -> Option<Entry> {
        if let Some((entry, rest)) = self.full.split_last() {
            self.full = rest;
            return Some(*entry);
        }
        let (entry, rest) = self.compact.split_last()?;
        self.compact = rest;
        Some(entry.widened())
    }
}
