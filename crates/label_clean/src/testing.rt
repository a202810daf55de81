//! What is kept of each row, on all cores, in pieces of about as many entries, each with one table; only a row that loses an
//! entry is copied.
ghost use Rattle.std.specs.Prelude.{◌+◌, ◌-◌, ◌≡◌, ◌↔◌, ℕ, ◌<◌, ◌≤◌, All, length, IsTrue, IfOk, OnOk};
ghost use Rattle.walk_laws.specs.Labelling.{label_row};
ghost use Rattle.std.specs.Thread.{IsSync};
ghost use Rattle.label_clean.specs.RawRows.{IsRawRow};
ghost use Rattle.label_clean.specs.Needless.{IsNeedless};
ghost use Rattle.label_clean.specs.Kept.{IsKept, IsKeptRow, AreKeptRows};
ghost use Rattle.label_clean.specs.Tested.{AreTestedRows, HoldsLeast};

use crate::cover::is_covered;
use crate::sorting::count_by_distance;
use hub_index::{RootTable, RowList};
use rank_table::Ranking;
use std::alloc::{AllocError, Global};
use std::thread::{Threads, join};
use walk_laws::Entry;

/// Whether an entry of a node's row is needless, where the table has the distances of the node's row.
fn is_needless(ranking: &Ranking, tested: &RowList, table: &RootTable, entry: Entry) -> bool
    requires tested { AreTestedRows ranking.now tested.now }
    requires size { length table.now ≡ length ranking.now }
    requires position { entry.pos < length ranking.now }
    ensures { (v : ℕ) → HoldsLeast table.now (label_row tested.now v) → IsTrue result ↔ IsNeedless ranking.now tested.now v entry }
{
    let hub = ranking.at(entry.pos);
    let is_by_distance = entry.pos < count_by_distance(ranking.n());
    is_covered(
        tested.row(hub),
        is_by_distance,
        table,
        entry.pos,
        entry.dist.get(),
    )
}

/// Puts the entries of a node's row that are not needless in `kept`, instead of what there was, where the table has the
/// distances of the row. It answers whether these are all of them. The only error is that memory ran out.
fn keep(
    ranking: &Ranking,
    tested: &RowList,
    table: &RootTable,
    row: &[Entry],
    kept: &mut Vec<Entry>,
) -> Result<bool, AllocError>
    requires tested { AreTestedRows ranking.now tested.now }
    requires size { length table.now ≡ length ranking.now }
    requires row { IsRawRow (length ranking.now) row.now }
    ensures all { IfOk result (λ all. IsTrue all → (v : ℕ) → HoldsLeast table.now (label_row tested.now v) → All (λ e. ¬ IsNeedless ranking.now tested.now v e) row.now) }
    ensures kept { OnOk result ((v : ℕ) → HoldsLeast table.now (label_row tested.now v) → IsKept (IsNeedless ranking.now tested.now v) row.now kept.new.items) }
{
    kept.clear();
    let mut all = true;
    for entry in row {
        if is_needless(ranking, tested, table, *entry) {
            all = false;
            continue;
        }
        kept.push(*entry)?;
    }
    Ok(all)
}

/// The tested entries of the node `v`, a number from 1, that are not needless, or None where all of them stay: a row that
/// stays as it is costs no memory. The table and the room may hold anything before. The only error is that memory ran out.
fn kept_row(
    alloc: Global,
    ranking: &Ranking,
    tested: &RowList,
    table: &mut RootTable,
    room: &mut Vec<Entry>,
    v: u32,
) -> Result<Option<Vec<Entry>>, AllocError>
    requires tested { AreTestedRows ranking.now tested.now }
    requires size { length table.old ≡ length ranking.now }
    requires node { 1 ≤ v }
    requires node_within { v ≤ length ranking.now }
    ensures size { length table.new ≡ length table.old }
    ensures kept { IfOk result (λ kept. IsKeptRow ranking.now tested.now v kept) }
{
    let row = tested.row(v);
    table.load(row);
    if keep(ranking, tested, table, row, room)? {
        return Ok(None);
    }
    let row = Vec::from_slice(alloc, room)?;
    Ok(Some(row))
}

/// What is kept of the rows of the nodes after `from` up to `to`, tested one after another with one table. The only error
/// is that memory ran out.
fn test_in_turn(
    alloc: Global,
    ranking: &Ranking,
    tested: &RowList,
    from: u32,
    to: u32,
) -> Result<Vec<Option<Vec<Entry>>>, AllocError>
    requires tested { AreTestedRows ranking.now tested.now }
    requires rising { from ≤ to }
    requires within { to ≤ length ranking.now }
    ensures { IfOk result (λ kept. AreKeptRows ranking.now tested.now from to kept.items) }
{
    let mut table = RootTable::new(alloc, ranking.n())?;
    let mut room = Vec::new(alloc);
    let mut kept = Vec::with_capacity(alloc, (to - from) as usize)?;
    for place in from..to {
        let row = kept_row(alloc, ranking, tested, &mut table, &mut room, place + 1)?;
        kept.push(row)?;
    }
    Ok(kept)
}

/// Some node up to which the rows after `from` have about half the entries of those up to `to`.
fn halfway(rows: &RowList, from: u32, to: u32) -> u32
    requires rising { from ≤ to }
    requires within { to ≤ length rows.now }
    ensures from { from ≤ result }
    ensures to { result ≤ to }
{
    let mut entries = 0u64;
    for place in from..to {
        entries = entries.saturating_add(rows.row(place + 1).len() as u64);
    }
    let mut after = 0u64;
    for place in from..to {
        after = after.saturating_add(rows.row(place + 1).len() as u64);
        if after >= entries / 2 {
            return place + 1;
        }
    }
    to
}

/// What is kept of the rows of the nodes after `from` up to `to`, tested in pieces of about equal numbers of entries, side
/// by side: so many times they are halved, at most six. Each piece has a table of its own. The only error is that memory
/// ran out.
#[cycle(halves)]
pub fn test_rows<R: Threads + Sync>(
    rt: &R,
    alloc: Global,
    ranking: &Ranking,
    tested: &RowList,
    halvings: u32,
    from: u32,
    to: u32,
) -> Result<Vec<Option<Vec<Entry>>>, AllocError>
    requires tested { AreTestedRows ranking.now tested.now }
    requires halvings { halvings ≤ 6 }
    requires rising { from ≤ to }
    requires within { to ≤ length ranking.now }
    ensures { IfOk result (λ kept. AreKeptRows ranking.now tested.now from to kept.items) }
{
    if halvings == 0 {
        return test_in_turn(alloc, ranking, tested, from, to);
    }
    let mid = halfway(tested, from, to);
    let below = halvings - 1;
    let (first, second) = join(
        rt,
        || -> Result<Vec<Option<Vec<Entry>>>, AllocError>
            requires { IsSync R.row × AreTestedRows ranking.now tested.now × (below ≤ 6) × (from ≤ mid) × (mid ≤ length ranking.now) }
            ensures { IfOk result (λ kept. AreKeptRows ranking.entry.now tested.entry.now from mid kept.items) }
        { test_rows(rt, alloc, ranking, tested, below, from, mid) },
        || -> Result<Vec<Option<Vec<Entry>>>, AllocError>
            requires { IsSync R.row × AreTestedRows ranking.now tested.now × (below ≤ 6) × (mid ≤ to) × (to ≤ length ranking.now) }
            ensures { IfOk result (λ kept. AreKeptRows ranking.entry.now tested.entry.now mid to kept.items) }
        { test_rows(rt, alloc, ranking, tested, below, mid, to) },
    );
    let mut kept = first?;
    let mut rest = second?;
    kept.append(&mut rest)?;
    Ok(kept)
}
