//! Rows that take later entries in, but for the needless ones.
ghost use Rattle.std.specs.Prelude.{◌≡◌, ◌↔◌, ℕ, ◌+◌, ◌++◌, ◌<◌, ◌≤◌, All, List, Contains, length, map, IsTrue, OnOk};
ghost use Rattle.std.specs.List.Sorted.{IsStrictlyIncreasing};
ghost use Rattle.walk_laws.specs.declared.entry.Entry.{Entry as AnEntry};
ghost use Rattle.walk_laws.specs.declared.graph.Edge.{Edge as AnEdge};
ghost use Rattle.walk_laws.specs.Labelling.{label_row};
ghost use Rattle.hub_index.specs.NodeEntries.{entries_of_node};
ghost use Rattle.hub_index.specs.Views.{GoesOnFrom, IsNode};
ghost use Rattle.label_clean.specs.Below.{IsRowBelow};
ghost use Rattle.label_clean.specs.Joining.{JoinsRow, JoinsUnder};
ghost use Rattle.label_clean.specs.Tested.{IsCovering};
ghost use Rattle.label_clean.specs.RootRuns.{EndsBelow, HasHubs, JoinsNext};
ghost use Rattle.label_clean.specs.RunLists.{HasItsRuns, all_entries};

use crate::cover::covers;
use crate::hub_rows::HubRows;
use crate::runs::RunList;
use crate::turns::{Turn, entries_in_turn, list_turns};
use hub_index::{NodeEntry, SplitRows};
use std::alloc::AllocError;
use walk_laws::Entry;

/// Puts the entries of all lists after their rows, run by run by rising position, but for those that are covered by then by entries
/// of the row from the first position of `hub_rows` on and the row of the root there. The node of an entry is the number of its
/// row, from 1. What `turns` had is of no use and goes. The only error is that memory ran out.
pub fn take_in(
    hub_rows: &HubRows,
    lists: &[RunList],
    turns: &mut Vec<Turn>,
    rows: &mut SplitRows,
) -> Result<(), AllocError>
    requires runs { All HasItsRuns lists.now }
    requires nodes { All (λ e. IsNode (length rows.old) e.node) (all_entries lists.now) }
    requires from { All (λ e. hub_rows.now.first ≤ e.pos) (all_entries lists.now) }
    requires within { All (λ e. e.pos < hub_rows.now.first + length hub_rows.now.rows) (all_entries lists.now) }
    ensures size { length rows.new ≡ length rows.old }
    ensures stays { OnOk result ((k : ℕ) → IsNode (length rows.old) k → GoesOnFrom (label_row rows.old k) (label_row rows.new k)) }
    ensures rows { OnOk result ((edges : List AnEdge) (at : List ℕ) (c k v : ℕ) → IsNode (length rows.old) k
        → JoinsUnder edges at hub_rows.now.first c hub_rows.now.rows v → IsRowBelow edges at hub_rows.now.first v (label_row rows.old k)
        → JoinsRow edges at hub_rows.now.first c v (entries_of_node (all_entries lists.now) k) → IsRowBelow edges at c v (label_row rows.new k)) }
{
    list_turns(lists, turns)?;
    let first = hub_rows.first();
    for turn in turns.iter() {
        let pos = turn.run.pos;
        let part = entries_in_turn(lists, turn);
        take_run(first, pos, hub_rows.row(pos), part, rows)?;
    }
    Ok(())
}

/// Puts the entries of a run of the root at the position `pos`, from 0, after their rows, but for those that are covered by entries
/// of the row from the position `first` on and `hub_row`, the late row of the root. Rows with entries of higher roots alone end
/// below the position; where some row doesn't, its entries are left out. The only error is that memory ran out.
fn take_run(
    first: u32,
    pos: u32,
    hub_row: &[Entry],
    run: &[NodeEntry],
    rows: &mut SplitRows,
) -> Result<(), AllocError>
    requires { All (λ e. IsNode (length rows.old) e.node) run.now }
    ensures size { length rows.new ≡ length rows.old }
    ensures stays { OnOk result ((k : ℕ) → IsNode (length rows.old) k → GoesOnFrom (label_row rows.old k) (label_row rows.new k)) }
    ensures hubs { OnOk result ((edges : List AnEdge) (at : List ℕ) (c k v : ℕ) (before done more : List AnEntry) → IsNode (length rows.old) k
        → JoinsNext edges at first c pos v hub_row.now before done (entries_of_node run.now k) more
        → HasHubs edges at v before done (label_row rows.old k) → HasHubs edges at v before (done ++ entries_of_node run.now k) (label_row rows.new k)) }
{
    let all = all_end_below(rows, run, pos);
    for entry in run {
        if !all && !ends_below(rows, entry.node, pos) {
            continue;
        }
        if is_covered_late(rows, entry.node, first, hub_row, pos, entry.dist.get()) {
            continue;
        }
        rows.push(entry.node, entry.entry())?;
    }
    Ok(())
}

/// Whether the row of each entry ends below the position `pos`, from 0. The entries are put one after another, and each put would
/// wait until its row has come from memory. Here no row waits for another, so that many of them come at a time.
fn all_end_below(rows: &SplitRows, run: &[NodeEntry], pos: u32) -> bool
    requires { All (λ e. IsNode (length rows.now) e.node) run.now }
    ensures { IsTrue result ↔ All (λ e. EndsBelow pos (label_row rows.now e.node)) run.now }
{
    for entry in run {
        if !ends_below(rows, entry.node, pos) {
            return false;
        }
    }
    true
}

/// Whether the row at the number `v`, from 1, ends below the position `pos`, from 0. An empty row does.
fn ends_below(rows: &SplitRows, v: u32, pos: u32) -> bool
    requires { IsNode (length rows.now) v }
    ensures { IsTrue result ↔ EndsBelow pos (label_row rows.now v) }
{
    match rows.from_last(v).next() {
        Some(last) => last.pos < pos,
        None => true,
    }
}

/// Whether an entry of the row at the number `v`, from 1, at the position `pos`, from 0, with the distance `dist` is covered by one
/// of that row from the position `first` on and one of `hub_row`, a row by rising position. Where `hub_row` is empty the row at
/// `v` is not looked at.
fn is_covered_late(
    rows: &SplitRows,
    v: u32,
    first: u32,
    hub_row: &[Entry],
    pos: u32,
    dist: u128,
) -> bool
    requires { IsNode (length rows.now) v }
    ensures { IsStrictlyIncreasing (map (λ e. e.pos) (label_row rows.now v)) → IsStrictlyIncreasing (map (λ e. e.pos) hub_row.now)
        → IsTrue result ↔ ((e : AnEntry) × Contains (label_row rows.now v) e × (first ≤ e.pos) × IsCovering hub_row.now pos dist e) }
{
    if hub_row.is_empty() {
        return false;
    }
    for entry in rows.from_last(v) {
        if entry.pos < first {
            return false;
        }
        if covers(entry, hub_row, pos, dist) {
            return true;
        }
    }
    false
}
