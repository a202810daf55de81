//! The entries of closed words, chain by chain.
ghost use Rattle.std.specs.Prelude.{◌≡◌, ℕ, ◌^◌, ◌≤◌, List, IfOk, length};
ghost use Rattle.std.specs.Slots.{IsFull, slots_items, slots_len};
ghost use Rattle.walk_laws.specs.Labelling.{label_row};
ghost use Rattle.hub_index.specs.Views.{IsNode};
ghost use Rattle.label_pool.specs.declared.rule.Linked.{Linked};
ghost use Rattle.label_pool.specs.Chains.{IsWritten, entries_of};
ghost use Rattle.label_pool.specs.Layout.{word_count};

use crate::layout::{cell_in, cell_named, dist_word, head_word, next_word, pos_in};
use atomic_table::Closed;
use hub_index::RowList;
use std::alloc::{AllocError, Global};
use walk_laws::{Dist, Entry};

/// The rows of all chains, each newest first. The only error is that memory ran out.
pub fn gathered(
    alloc: Global,
    closed: &Closed<(), Global>,
    n: u32,
    cells: u32,
) -> Result<RowList, AllocError>
    requires full { IsFull closed.now.words }
    requires size { slots_len closed.now.words ≡ word_count n cells }
    requires limits { (n ≤ 2 ^ 30) × (cells ≤ 2 ^ 31) }
    requires chains { (v : ℕ) → IsNode n v → (chain : List Linked) × IsWritten n cells (slots_items closed.now.words) v chain }
    ensures size { IfOk result (λ rows. length rows ≡ n) }
    ensures rows { IfOk result (λ rows. (v : ℕ) (chain : List Linked) → IsNode n v → IsWritten n cells (slots_items closed.now.words) v chain → label_row rows v ≡ entries_of chain) }
{
    let mut rows = Vec::with_capacity(alloc, n as usize)?;
    for place in 0..n {
        rows.push(entries_in(alloc, closed, n, cells, place + 1)?)?;
    }
    Ok(RowList::from_rows(rows))
}

/// How many cells the chain of the node `v` has, a number from 1.
fn cells_in(closed: &Closed<(), Global>, n: u32, cells: u32, v: u32) -> u32
    requires full { IsFull closed.now.words }
    requires size { slots_len closed.now.words ≡ word_count n cells }
    requires limits { (n ≤ 2 ^ 30) × (cells ≤ 2 ^ 31) }
    requires node { IsNode n v }
    requires chain { (chain : List Linked) × IsWritten n cells (slots_items closed.now.words) v chain }
    ensures { (chain : List Linked) → IsWritten n cells (slots_items closed.now.words) v chain → result ≡ length chain }
{
    let mut at = cell_named(closed.word(head_word(v)));
    for count in 0..cells {
        let Some(cell) = at else { return count };
        at = cell_in(closed.word(next_word(n, cell)));
    }
    cells
}

/// The entries of the chain of the node `v`, a number from 1, newest first, in a row of just that size. The only error is
/// that memory ran out.
fn entries_in(
    alloc: Global,
    closed: &Closed<(), Global>,
    n: u32,
    cells: u32,
    v: u32,
) -> Result<Vec<Entry>, AllocError>
    requires full { IsFull closed.now.words }
    requires size { slots_len closed.now.words ≡ word_count n cells }
    requires limits { (n ≤ 2 ^ 30) × (cells ≤ 2 ^ 31) }
    requires node { IsNode n v }
    requires chain { (chain : List Linked) × IsWritten n cells (slots_items closed.now.words) v chain }
    ensures { IfOk result (λ entries. (chain : List Linked) → IsWritten n cells (slots_items closed.now.words) v chain → entries.items ≡ entries_of chain) }
{
    let count = cells_in(closed, n, cells, v);
    let mut entries = Vec::with_capacity(alloc, count as usize)?;
    let mut at = cell_named(closed.word(head_word(v)));
    for _ in 0..cells {
        let Some(cell) = at else { break };
        let next = closed.word(next_word(n, cell));
        let dist = closed.word(dist_word(n, cell));
        entries.push(Entry {
            pos: pos_in(next),
            dist: Dist::of_u64(dist),
        })?;
        at = cell_in(next);
    }
    Ok(entries)
}
