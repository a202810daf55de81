//! The row of a node in two parts: entries that take half the room of an [`Entry`], and from the first on whose distance is
//! too great for that, whole entries.
ghost use Rattle.std.specs.Prelude.{◌≡◌, ◌<◌, ◌≤◌, All, Contains, length, map, IfOk, IfSome, IfNone};
ghost use Rattle.hub_index.specs.Reach.{IsBelow, IsFirstFrom};
ghost use Rattle.walk_laws.specs.declared.entry.Entry.{Entry as AnEntry};
ghost use Rattle.hub_index.specs.RootDistances.{noted, IsCover};
ghost use Rattle.hub_index.specs.CompactRows.{widened, row_of_parts};

use crate::reach::first_from;
use crate::root_table::{RootTable, covered};
use std::alloc::{AllocError, Global};
use walk_laws::{Dist, Entry};

/// An entry whose distance is below 2^32, in half the room of an [`Entry`].
#[derive(Clone, Copy)]
pub struct CompactEntry {
    pub pos: u32,
    pub dist: u32,
}

impl CompactEntry {
    /// The same entry in full room.
    pub fn widened(self) -> Entry
        ensures { result ≡ widened self }
    {
        Entry {
            pos: self.pos,
            dist: Dist::of_u64(u64::from(self.dist)),
        }
    }
}

/// Notes the entries of the row in these parts in the table, one after another. It takes no memory.
pub fn note_parts(compact: &[CompactEntry], full: &[Entry], table: &mut RootTable)
    requires { All (λ e. e.pos < length table.old) (row_of_parts compact.now full.now) }
    ensures { table.new ≡ noted table.old (row_of_parts compact.now full.now) }
{
    for entry in compact {
        table.note(entry.widened());
    }
    table.note_row(full);
}

/// An entry of the row in these parts that covers one at the position `pos`, from 0, with the distance `dist`, or None where none
/// does.
pub fn cover_of_parts(
    compact: &[CompactEntry],
    full: &[Entry],
    table: &RootTable,
    pos: u32,
    dist: u128,
) -> Option<Entry>
    requires { pos ≤ length table.now }
    ensures some { IfSome result (λ e. Contains (row_of_parts compact.now full.now) e × IsCover table.now pos dist e) }
    ensures none { IfNone result ((e : AnEntry) → Contains (row_of_parts compact.now full.now) e → ¬ IsCover table.now pos dist e) }
{
    if let Some(cover) = compact_cover(compact, table, pos, dist) {
        return Some(cover);
    }
    covered(full, table, pos, dist)
}

/// One of the entries that covers one at the position `pos` with the distance `dist`, or None where none does.
fn compact_cover(row: &[CompactEntry], table: &RootTable, pos: u32, dist: u128) -> Option<Entry>
    requires { pos ≤ length table.now }
    ensures some { IfSome result (λ e. Contains (map (λ e. widened e) row.now) e × IsCover table.now pos dist e) }
    ensures none { IfNone result (All (λ e. ¬ IsCover table.now pos dist (widened e)) row.now) }
{
    let limit = u64::try_from(dist).unwrap_or(u64::MAX);
    for entry in row {
        if table.covers_compact(*entry, pos, dist, limit) {
            return Some(entry.widened());
        }
    }
    None
}

/// The row in these parts, in just the room that its entries take. The only error is that memory ran out.
pub fn joined_parts(
    alloc: Global,
    compact: &[CompactEntry],
    full: &[Entry],
) -> Result<Vec<Entry>, AllocError>
    ensures { IfOk result (λ entries. entries.items ≡ row_of_parts compact.now full.now) }
{
    let mut entries = Vec::with_capacity(alloc, compact.len() + full.len())?;
    for entry in compact {
        entries.push(entry.widened())?;
    }
    for entry in full {
        entries.push(*entry)?;
    }
    Ok(entries)
}

/// The first entry of the row in these parts whose distance is `limit` or more, or None where there is none.
#[inline(always)]
pub fn first_of_parts(compact: &[CompactEntry], full: &[Entry], limit: u128) -> Option<Entry>
    ensures some { IfSome result (IsFirstFrom limit (row_of_parts compact.now full.now)) }
    ensures none { IfNone result (All (IsBelow limit) (row_of_parts compact.now full.now)) }
{
    if let Some(entry) = first_compact(compact, limit) {
        return Some(entry);
    }
    first_from(full, limit)
}

/// The first of the entries whose distance is `limit` or more, or None where there is none. The compiler leaves the loop out
/// where the limit is known to be above 2^32.
#[inline(always)]
fn first_compact(row: &[CompactEntry], limit: u128) -> Option<Entry>
    ensures some { IfSome result (IsFirstFrom limit (map (λ e. widened e) row.now)) }
    ensures none { IfNone result (All (IsBelow limit) (map (λ e. widened e) row.now)) }
{
    for entry in row {
        if u128::from(entry.dist) >= limit {
            return Some(entry.widened());
        }
    }
    None
}
