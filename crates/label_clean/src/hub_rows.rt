//! The late rows of hubs, which are gathered again and again.
ghost use Rattle.std.specs.Prelude.{◌≡◌, ℕ, ◌+◌, ◌-◌, ◌<◌, ◌≤◌, ◌++◌, [], get_or, length, map, vec_len, OnOk};
ghost use Rattle.hub_index.specs.NodeEntries.{IsGatheredRow};
ghost use Rattle.label_clean.specs.HubRows.{AreGathered, all_hub_entries, entries_of_hub};

use std::alloc::{AllocError, Global};
use std::marker::Model;
use walk_laws::Entry;

/// An entry of the row of a hub: the hub's position in the ranking, from 0, and the entry.
#[derive(Clone, Copy)]
pub struct HubEntry {
    pub of: u32,
    pub entry: Entry,
}

/// The late rows of the hubs at the positions from a first one up to a next one, from 0, each by rising position. They are
/// gathered again and again, in the room of those before. Contracts see the first position and the list of the rows.
#[derive(Drop)]
pub struct HubRows {
    first: u32,
    count: usize,
    /// As many as there were at most so far: the first ones are in use, and what the others have is of no use.
    rows: Vec<Vec<Entry>>,
}

impl Model for HubRows {
    ghost use Rattle.std.specs.Prelude.{◌≤◌, length, map, take};
    ghost use Rattle.label_clean.specs.HubRows.{RowsFrom};

    ghost Value = { RowsFrom };

    ghost view = { λ h. record { first = h.first; rows = take h.count (map (λ row. row.items) h.rows.items) } };

    ghost invariant = { λ h. h.count ≤ length h.rows.items };
}

impl HubRows {
    /// No rows, from the position 0 on. It takes no memory.
    pub fn new(alloc: Global) -> HubRows
        ensures first { result.first ≡ 0 }
        ensures rows { result.rows ≡ [] }
    {
        HubRows {
            first: 0,
            count: 0,
            rows: Vec::new(alloc),
        }
    }

    /// Gathers the rows of the hubs at the positions from `first` up to but not including `next`, from 0, of the entries that all
    /// lists have of them, instead of the rows before. Entries of other hubs are left out. Each row comes by rising position;
    /// where a position stands in it twice, nothing is said of its order. It costs the entries, which are sorted row by row, and
    /// the positions, and takes memory only where there are more rows, or longer ones, than before. The only error is that memory
    /// ran out, and then the rows are of no use.
    pub fn gather(
        &mut self,
        first: u32,
        next: u32,
        lists: &[Vec<HubEntry>],
    ) -> Result<(), AllocError>
        requires up { first ≤ next }
        ensures { OnOk result (AreGathered first next (all_hub_entries lists.now) self.new) }
    {
        let count = (next - first) as usize;
        gather_rows(&mut self.rows, count, first, lists)?;
        self.first = first;
        self.count = count;
        Ok(())
    }

    /// The first position, from 0.
    pub(crate) fn first(&self) -> u32
        ensures { result ≡ self.now.first }
    {
        self.first
    }

    /// The row of the hub at the position `pos`, from 0, as it was gathered. It is lent in O(1).
    pub(crate) fn row(&self, pos: u32) -> &[Entry]
        requires from { self.now.first ≤ pos }
        requires within { pos < self.now.first + length self.now.rows }
        ensures { result.now ≡ get_or self.now.rows (pos - self.now.first) [] }
    {
        &self.rows[(pos - self.first) as usize]
    }
}

/// Gathers so many rows, of the entries that all lists have of the hubs at so many positions from `first` on, each by rising
/// position, instead of the first rows. There are never fewer rows than before. The only error is that memory ran out.
fn gather_rows(
    rows: &mut Vec<Vec<Entry>>,
    count: usize,
    first: u32,
    lists: &[Vec<HubEntry>],
) -> Result<(), AllocError>
    ensures more { vec_len rows.old ≤ vec_len rows.new }
    ensures enough { OnOk result (count ≤ vec_len rows.new) }
    ensures rows { OnOk result ((k : ℕ) → k < count → IsGatheredRow (entries_of_hub (all_hub_entries lists.now) (first + k)) (get_or (map (λ row. row.items) rows.new.items) k [])) }
{
    make_empty(rows, count)?;
    for list in lists {
        put_entries(rows, count, first, list)?;
    }
    sort_rows(rows, count);
    Ok(())
}

/// Makes the first rows empty, so many of them, which there are then. The only error is that memory ran out.
fn make_empty(rows: &mut Vec<Vec<Entry>>, count: usize) -> Result<(), AllocError>
    ensures more { vec_len rows.old ≤ vec_len rows.new }
    ensures enough { OnOk result (count ≤ vec_len rows.new) }
    ensures empty { OnOk result ((k : ℕ) → k < count → get_or (map (λ row. row.items) rows.new.items) k [] ≡ []) }
{
    let alloc = *rows.allocator();
    for k in 0..count.min(rows.len()) {
        rows[k].clear();
    }
    for _ in rows.len()..count {
        rows.push(Vec::new(alloc))?;
    }
    Ok(())
}

/// Puts each entry last in the row of its hub, where that is one of the hubs at so many positions from `first` on. The only error
/// is that memory ran out.
fn put_entries(
    rows: &mut [Vec<Entry>],
    count: usize,
    first: u32,
    entries: &[HubEntry],
) -> Result<(), AllocError>
    requires { count ≤ length rows.old }
    ensures size { length rows.new ≡ length rows.old }
    ensures rows { OnOk result ((k : ℕ) → k < count → get_or (map (λ row. row.items) rows.new) k [] ≡ get_or (map (λ row. row.items) rows.old) k [] ++ entries_of_hub entries.now (first + k)) }
{
    for entry in entries {
        if entry.of < first {
            continue;
        }
        let place = (entry.of - first) as usize;
        if place < count {
            rows[place].push(entry.entry)?;
        }
    }
    Ok(())
}

/// Sorts the first rows by position, so many of them.
fn sort_rows(rows: &mut [Vec<Entry>], count: usize)
    requires { count ≤ length rows.old }
    ensures size { length rows.new ≡ length rows.old }
    ensures rows { (k : ℕ) → k < count → IsGatheredRow (get_or (map (λ row. row.items) rows.old) k []) (get_or (map (λ row. row.items) rows.new) k []) }
{
    for k in 0..count {
        rows[k].sort_unstable_by_key(|e| e.pos);
    }
}
