//! The lists of a source's hubs, merged by a heap of cursors. A list has the points that share a hub with the source by
//! rising distance from it, so each point comes first by the hub that makes its distance least.
ghost use Rattle.std.specs.Prelude.{◌≡◌, ℕ, ◌+◌, ◌-◌, ◌^◌, ◌<◌, ◌≤◌, [], All, length, map, IfSome, IfNone, OnOk};
ghost use Rattle.std.specs.BinaryHeap.{heap_items};
ghost use Rattle.std.specs.List.Sorted.{IsNonDecreasing, IsStrictlyIncreasing};
ghost use Rattle.near_points.specs.Merging.{hit_of, key_by, AreBegun, AreMarked, HasLeastFirst, IsLast, IsLeastBy, IsMerged, IsNext, IsTaken};
ghost use Rattle.near_points.specs.Nearest.{AreFirst};
ghost use Rattle.near_points.specs.PointWords.{word_at, word_node, AreStarts};

use crate::cursor::Cursor;
use crate::hit::Hit;
use crate::point_words::{NODES, dist_of, node_of, pos_of};
use hub_index::Entry;
use std::alloc::{AllocError, Global};
use std::cmp::Reverse;
use std::collections::BinaryHeap;

/// Puts a cursor before the list of each hub of a source's row that has one. The nearest hubs are the last of a row, and
/// are put in first, where others need not be moved. The only error is that memory ran out.
pub fn begin(
    words: &[u128],
    starts: &[usize],
    row: &[Entry],
    cursors: &mut BinaryHeap<Cursor>,
) -> Result<(), AllocError>
    requires starts { AreStarts words.now starts.now }
    requires within { All (λ e. e.pos + 1 < length starts.now) row.now }
    requires short { All (λ e. e.dist < 2 ^ 64) row.now }
    requires none { heap_items cursors.old ≡ [] }
    requires heap { HasLeastFirst (heap_items cursors.old) }
    ensures heap { OnOk result (HasLeastFirst (heap_items cursors.new)) }
    ensures begun { OnOk result (AreBegun words.now row.now (heap_items cursors.new)) }
{
    let mut left = row.len();
    while 0 < left {
        left -= 1;
        let entry = row[left];
        let pos = entry.pos as usize;
        if starts[pos] < starts[pos + 1] {
            cursors.push(cursor_at(words, entry, starts[pos]))?;
        }
    }
    Ok(())
}

/// The cursor at a place of the list of a hub, of which this is the source's entry.
fn cursor_at(words: &[u128], entry: Entry, at: usize) -> Cursor
    requires at { at < length words.now }
    requires short { entry.dist < 2 ^ 64 }
    ensures at { result.at ≡ at }
    ensures key { result.key.0 ≡ key_by entry (word_at words.now at) }
{
    let word = words[at];
    let dist = entry.dist.get() + dist_of(word);
    Cursor {
        key: Reverse(dist * NODES + u128::from(node_of(word))),
        at,
    }
}

/// Gives the first `k` hits of the lists in their order, and marks their nodes. The row is for the contract alone. The only
/// error is that memory ran out.
pub fn merge(
    words: &[u128],
    _row: &[Entry],
    k: u32,
    cursors: &mut BinaryHeap<Cursor>,
    given: &mut [bool],
    hits: &mut Vec<Hit>,
) -> Result<(), AllocError>
    requires rising { IsNonDecreasing words.now }
    requires row { IsStrictlyIncreasing (map (λ e. e.pos) _row.now) }
    requires short { All (λ e. e.dist < 2 ^ 64) _row.now }
    requires nodes { All (λ w. word_node w < length given.old) words.now }
    requires heap { HasLeastFirst (heap_items cursors.old) }
    requires merged { IsMerged words.now _row.now (heap_items cursors.old) given.old hits.old.items }
    requires few { length hits.old.items ≤ k }
    ensures first { OnOk result (AreFirst (IsLeastBy words.now _row.now) k hits.new.items) }
    ensures marked { OnOk result (AreMarked given.new hits.new.items) }
    ensures size { length given.new ≡ length given.old }
{
    while hits.len() < k as usize {
        let Some(cursor) = cursors.pop() else {
            return Ok(());
        };
        take(cursor, given, hits)?;
        if let Some(next) = next_of(words, cursor, given) {
            cursors.push(next)?;
        }
    }
    Ok(())
}

/// Gives the hit of a cursor and marks its node, unless it is marked. The only error is that memory ran out, and then nothing
/// has changed.
fn take(cursor: Cursor, given: &mut [bool], hits: &mut Vec<Hit>) -> Result<(), AllocError>
    requires { (hit_of cursor.key.0).node < length given.old }
    ensures taken { OnOk result (IsTaken cursor.key.0 given.old hits.old.items given.new hits.new.items) }
    ensures size { length given.new ≡ length given.old }
{
    let node = (cursor.key.0 % NODES) as u32;
    if given[node as usize] {
        return Ok(());
    }
    hits.push(Hit {
        node,
        dist: cursor.key.0 / NODES,
    })?;
    given[node as usize] = true;
    Ok(())
}

/// The cursor before the next point of a list that isn't marked; None where the list has no other.
fn next_of(words: &[u128], cursor: Cursor, given: &[bool]) -> Option<Cursor>
    requires rising { IsNonDecreasing words.now }
    requires nodes { All (λ w. word_node w < length given.now) words.now }
    requires inside { cursor.at < length words.now }
    requires small { cursor.key.0 < 2 ^ 97 }
    ensures next { IfSome result (λ next. IsNext words.now given.now cursor.at next.at) }
    ensures key { IfSome result (λ next. next.key.0 ≡ cursor.key.0 + (word_at words.now next.at - word_at words.now cursor.at)) }
    ensures last { IfNone result (IsLast words.now given.now cursor.at) }
{
    let word = words[cursor.at];
    for at in cursor.at + 1..words.len() {
        let next = words[at];
        if pos_of(next) != pos_of(word) {
            return None;
        }
        if !given[node_of(next) as usize] {
            return Some(Cursor {
                key: Reverse(cursor.key.0 + (next - word)),
                at,
            });
        }
    }
    None
}
