ghost use Rattle.std.specs.Prelude.{◌≡◌, ℕ, ◌≤◌, [], List, length, IfOk};
ghost use Rattle.walk_laws.specs.declared.graph.Edge.{Edge as AnEdge};
ghost use Rattle.walk_laws.specs.Labelling.{label_row};
ghost use Rattle.label_clean.specs.RawRows.{IsRawRow, both_rows};
ghost use Rattle.label_clean.specs.Kept.{AreKeptRows, HasSurvivors};
ghost use Rattle.label_clean.specs.Tested.{AreTestedRows};
ghost use Rattle.label_clean.specs.Below.{HoldsBelow, IsChlBelow};

use crate::rows::together;
use crate::sorting::{by_distance, by_position};
use crate::testing::test_rows;
use hub_index::RowList;
use rank_table::Ranking;
use rayon::current_num_threads;
use std::alloc::{AllocError, Global};
use std::thread::Threads;
use walk_laws::Entry;

/// The canonical hub labelling, up to a position, of a graph on the ranking's nodes: where both tables together hold only
/// entries that may stand in their rows, with positions below it, at most one of each hub in a row, and every canonical
/// one, Ok is exactly the canonical ones, each row by rising position. The rows may come in any order. Both tables are
/// copied, and the only error is that memory ran out. (Planting Trees, PVLDB 2019.)
///
/// In the square 1-2-3-4-1 of weights 1, of which a smaller number ranks higher, a tree of node 2 that doesn't know the
/// tree of node 1 leaves the entry (1, 2) in the row of 4:
///
/// ```text
/// raw row of 2: (1, 0), (0, 1)
/// raw row of 4: (1, 2), (0, 1), (2, 1), (3, 0)
/// cleaned:      (0, 1), (2, 1), (3, 0), as the way of 1 + 1 over node 1 is no longer than 2
/// ```
pub fn clean<R: Threads + Sync>(
    rt: &R,
    alloc: Global,
    ranking: &Ranking,
    global: &RowList,
    raw: &RowList,
) -> Result<RowList, AllocError>
    requires global_size { length global.now ≡ length ranking.now }
    requires raw_size { length raw.now ≡ length ranking.now }
    requires both { (v : ℕ) → 1 ≤ v → v ≤ length ranking.now → IsRawRow (length ranking.now) (both_rows global.now raw.now v) }
    ensures { IfOk result (λ rows. (edges : List AnEdge) (c : ℕ) → HoldsBelow edges ranking.now c global.now raw.now → IsChlBelow edges ranking.now c rows) }
{
    let all = together(alloc, global, raw)?;
    clean_in_place(rt, alloc, ranking, all)
}

/// The canonical hub labelling, up to a position, of a graph on the ranking's nodes, in the memory of the raw rows: where
/// these hold only entries that may stand in them, with positions below it, at most one of each hub in a row, and every
/// canonical one, Ok is exactly the canonical ones, each row by rising position. It works on all cores. Beside the rows it
/// takes some bytes a node, and a copy of each row that loses an entry; the only error is that memory ran out.
pub fn clean_in_place<R: Threads + Sync>(
    rt: &R,
    alloc: Global,
    ranking: &Ranking,
    raw: RowList,
) -> Result<RowList, AllocError>
    requires raw_size { length raw ≡ length ranking.now }
    requires raw_rows { (v : ℕ) → 1 ≤ v → v ≤ length ranking.now → IsRawRow (length ranking.now) (label_row raw v) }
    ensures { IfOk result (λ rows. (edges : List AnEdge) (c : ℕ) → HoldsBelow edges ranking.now c [] raw → IsChlBelow edges ranking.now c rows) }
{
    let n = ranking.n();
    let tested = by_distance(rt, ranking, raw);
    let kept = test_rows(rt, alloc, ranking, &tested, halvings_for(rt, n), 0, n)?;
    Ok(by_position(rt, replaced(ranking, tested, kept)))
}

/// The tested rows, each replaced by what is kept of it where it loses an entry.
fn replaced(ranking: &Ranking, tested: RowList, kept: Vec<Option<Vec<Entry>>>) -> RowList
    requires tested { AreTestedRows ranking.now tested }
    requires kept { AreKeptRows ranking.now tested 0 (length ranking.now) kept.items }
    ensures size { length result ≡ length ranking.now }
    ensures rows { (v : ℕ) → 1 ≤ v → v ≤ length ranking.now → HasSurvivors ranking.now tested v (label_row result v) }
{
    let mut rows = tested.into_rows();
    let mut kept = kept;
    while let Some(row) = kept.pop() {
        match row {
            Some(row) => rows[kept.len()] = row,
            None => {}
        }
    }
    RowList::from_rows(rows)
}

/// The fewest nodes that are worth a thread.
const NODES_A_THREAD: u32 = 64;

/// How many times nodes are halved, so that there is a piece of them for each of up to 64 processors and none is small.
fn halvings_for<R: Threads>(rt: &R, nodes: u32) -> u32
    ensures { result ≤ 6 }
{
    let most = (nodes / NODES_A_THREAD) as usize;
    match current_num_threads(rt).min(most) {
        0..=1 => 0,
        2 => 1,
        3..=4 => 2,
        5..=8 => 3,
        9..=16 => 4,
        17..=32 => 5,
        _ => 6,
    }
}
