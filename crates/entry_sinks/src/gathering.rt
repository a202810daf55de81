ghost use Rattle.std.specs.Prelude.{◌≡◌, ℕ, ◌+◌, ◌-◌, ◌*◌, ◌/◌, ◌^◌, ◌<◌, ◌≤◌, min, [], ◌∷◌, ◌++◌, All, length, map, slice_index_or, IfOk, IfSome, OnOk};
ghost use Rattle.walk_laws.specs.Labelling.{label_row};
ghost use Rattle.hub_index.specs.NodeEntries.{entries_of_node, IsGatheredRow};
ghost use Rattle.entry_sinks.specs.Sunk.{range_width as width_of, range_at, ranges_at, all_sunk, IsRangeOf, rows_in, AreJoined};

use crate::entry_sink::{EntrySink, range_width};
use crate::range_entries::{AnyNodeEntry, RangeEntries};
use hub_index::RowList;
use std::alloc::{AllocError, Global};
use std::mem;
use std::thread::{self, Threads};

/// What is gathered of a range of nodes: the entries that each sink has of it, until rows are made of them, and then the
/// rows. Where memory ran out for these it has neither.
#[derive(Drop)]
struct Part {
    entries: Vec<RangeEntries>,
    rows: Option<RowList>,
}

impl Part {
    /// Makes the rows of the entries, which go. The range counts from 0. There are no rows where memory ran out.
    fn make_rows(&mut self, alloc: Global, n: u32, range: usize)
        requires { range * width_of n ≤ n }
        ensures size { IfSome self.new.rows (λ rows. length rows ≡ min (width_of n) (n - range * width_of n)) }
        ensures rows { IfSome self.new.rows (IsRangeOf self.old.entries.items n range) }
    {
        let entries = mem::replace(&mut self.entries, Vec::new(alloc));
        self.rows = rows_of_range(alloc, entries, n, range).ok();
    }
}

/// In how many threads rows are made. Each has one range at a time, so entries are held twice of so many ranges at most.
const THREADS: usize = 16;

/// The rows of all entries that were put into the sinks, each row by rising position. They are made in several threads, a
/// range of nodes at a time: entries are counted, put into rows of just that size, and sorted. The entries of a range go
/// once they stand in its rows, so few are held twice. The only error is that memory ran out.
pub fn gather<R: Threads + Sync>(
    rt: &R,
    alloc: Global,
    n: u32,
    sinks: Vec<EntrySink>,
) -> Result<RowList, AllocError>
    requires { All (λ s. s.n ≡ n) sinks.items }
    ensures size { IfOk result (λ rows. length rows ≡ n) }
    ensures rows { IfOk result (λ rows. (v : ℕ) → 1 ≤ v → v ≤ n → IsGatheredRow (all_sunk sinks.items v) (label_row rows v)) }
{
    let mut parts = by_ranges(alloc, n, sinks)?;
    thread::for_each_mut(
        rt,
        &mut parts,
        THREADS,
        &|range: usize, part: &mut Part|
            requires { range * width_of n ≤ n }
            ensures size { IfSome part.exit.now.rows (λ rows. length rows ≡ min (width_of n) (n - range * width_of n)) }
            ensures rows { IfSome part.exit.now.rows (IsRangeOf part.entry.now.entries.items n range) }
        { part.make_rows(alloc, n, range) },
    );
    join_parts(alloc, parts)
}

/// The entries of all sinks by ranges. They are moved, and none is copied. The only error is that memory ran out.
fn by_ranges(alloc: Global, n: u32, sinks: Vec<EntrySink>) -> Result<Vec<Part>, AllocError>
    requires { All (λ s. s.n ≡ n) sinks.items }
    ensures size { IfOk result (λ parts. length parts.items ≡ n / width_of n + 1) }
    ensures entries { IfOk result (λ parts. (r : ℕ) (d : Part) → r < length parts.items → (slice_index_or parts.items r d).entries.items ≡ ranges_at sinks.items r) }
{
    let mut parts = empty_parts(alloc, n / range_width(n) + 1, sinks.len())?;
    for sink in sinks {
        add_sink(&mut parts, sink)?;
    }
    Ok(parts)
}

/// So many parts without entries, with room for those of so many sinks. The only error is that memory ran out.
fn empty_parts(alloc: Global, count: u32, sinks: usize) -> Result<Vec<Part>, AllocError>
    ensures size { IfOk result (λ parts. length parts.items ≡ count) }
    ensures empty { IfOk result (λ parts. All (λ part. part.entries.items ≡ []) parts.items) }
{
    let mut parts = Vec::with_capacity(alloc, count as usize)?;
    for _ in 0..count {
        let entries = Vec::with_capacity(alloc, sinks)?;
        parts.push(Part {
            entries,
            rows: None,
        })?;
    }
    Ok(parts)
}

/// Moves the entries that a sink has of each range to the part of the range, after those of other sinks. The only error is
/// that memory ran out.
fn add_sink(parts: &mut [Part], sink: EntrySink) -> Result<(), AllocError>
    requires { length parts.old ≡ sink.n / width_of sink.n + 1 }
    ensures size { length parts.new ≡ length parts.old }
    ensures entries { OnOk result ((r : ℕ) (d : Part) → r < length parts.old → (slice_index_or parts.new r d).entries.items ≡ (slice_index_or parts.old r d).entries.items ++ range_at sink r ∷ []) }
{
    let mut ranges = sink.into_ranges();
    while let Some(entries) = ranges.pop() {
        let range = ranges.len();
        let part = &mut parts[range];
        part.entries.push(entries)?;
    }
    Ok(())
}

/// The rows of all parts, one after another. The only error is that memory ran out, here or for a part.
fn join_parts(alloc: Global, parts: Vec<Part>) -> Result<RowList, AllocError>
    requires { rows_in (map (λ part. part.rows) parts.items) < 2 ^ 32 }
    ensures { IfOk result (λ rows. AreJoined (map (λ part. part.rows) parts.items) rows) }
{
    let mut rows = RowList::new(alloc, 0)?;
    for part in parts {
        let made = part.rows.ok_or(AllocError)?;
        rows.append(made)?;
    }
    Ok(rows)
}

/// The rows of the nodes in a range, which counts from 0, of the entries that each sink has of it. The entries of a sink
/// go once they are placed. The only error is that memory ran out.
fn rows_of_range(
    alloc: Global,
    entries: Vec<RangeEntries>,
    n: u32,
    range: usize,
) -> Result<RowList, AllocError>
    requires { range * width_of n ≤ n }
    ensures size { IfOk result (λ rows. length rows ≡ min (width_of n) (n - range * width_of n)) }
    ensures rows { IfOk result (IsRangeOf entries.items n range) }
{
    let width = range_width(n);
    let before = range as u32 * width;
    let count = width.min(n - before);
    let mut room = vec![in alloc; 0usize; count as usize]?;
    for of_sink in &entries {
        let (compact, full) = of_sink.parts();
        count_entries(&mut room, before, compact);
        count_entries(&mut room, before, full);
    }
    let mut rows = RowList::with_room(alloc, &room)?;
    for of_sink in entries {
        place_range(&mut rows, before, &of_sink)?;
    }
    rows.sort();
    Ok(rows)
}

/// Counts the entries of each node after `before`, as far as there are places.
fn count_entries<E: AnyNodeEntry>(room: &mut [usize], before: u32, entries: &[E])
    ensures { length room.new ≡ length room.old }
{
    for e in entries {
        let e = e.widened();
        let place = e.node.wrapping_sub(before).wrapping_sub(1) as usize;
        if place < room.len() {
            room[place] = room[place].wrapping_add(1);
        }
    }
}

/// Puts the entries of each node after `before`, of those of a range, at the end of its row. The only error is that memory
/// ran out.
fn place_range(rows: &mut RowList, before: u32, entries: &RangeEntries) -> Result<(), AllocError>
    requires { before + length rows.old < 2 ^ 32 }
    ensures size { length rows.new ≡ length rows.old }
    ensures rows { OnOk result ((v : ℕ) → 1 ≤ v → v ≤ length rows.old → label_row rows.new v ≡ label_row rows.old v ++ entries_of_node entries.now (before + v)) }
{
    let (compact, full) = entries.parts();
    place_entries(rows, before, compact)?;
    place_entries(rows, before, full)
}

/// Puts the entries of each node after `before` at the end of its row. The only error is that memory ran out.
fn place_entries<E: AnyNodeEntry>(
    rows: &mut RowList,
    before: u32,
    entries: &[E],
) -> Result<(), AllocError>
    requires { before + length rows.old < 2 ^ 32 }
    ensures size { length rows.new ≡ length rows.old }
    ensures rows { OnOk result ((v : ℕ) → 1 ≤ v → v ≤ length rows.old → label_row rows.new v ≡ label_row rows.old v ++ entries_of_node (map (λ e. E.entry e) entries.now) (before + v)) }
{
    for e in entries {
        let e = e.widened();
        if e.node <= before {
            continue;
        }
        let place = e.node - before;
        if place > rows.n() {
            continue;
        }
        rows.push(place, e.entry())?;
    }
    Ok(())
}
