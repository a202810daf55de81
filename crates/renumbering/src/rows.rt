ghost use Rattle.std.specs.Prelude.{◌≡◌, ℕ, ◌≤◌, length, vec_len, IfOk};
ghost use Rattle.walk_laws.specs.Labelling.{label_row};
ghost use Rattle.walk_laws.specs.Ranking.{IsRanking};
ghost use Rattle.renumbering.specs.Renumbered.{number_in, list_of};

use hub_index::{RowList, SplitRows};
use rank_table::Ranking;
use std::alloc::{AllocError, Global};
use std::mem;

/// The rows under the old numbers: that of a node is the one that stands under its place in the breadth-first order. No entry is copied;
/// the only error is that memory ran out.
pub fn rows_back(alloc: Global, bfs_order: &Ranking, rows: RowList) -> Result<RowList, AllocError>
    requires { length rows ≡ length bfs_order.now }
    ensures size { IfOk result (λ back. length back ≡ length bfs_order.now) }
    ensures rows { IfOk result (λ back. (v : ℕ) → 1 ≤ v → v ≤ length bfs_order.now → label_row back v ≡ label_row rows (number_in bfs_order.now v)) }
{
    let back = lists_back(alloc, bfs_order, rows.into_rows())?;
    Ok(RowList::from_rows(back))
}

/// The same of split rows.
pub fn split_rows_back(
    alloc: Global,
    bfs_order: &Ranking,
    rows: SplitRows,
) -> Result<SplitRows, AllocError>
    requires { length rows ≡ length bfs_order.now }
    ensures size { IfOk result (λ back. length back ≡ length bfs_order.now) }
    ensures rows { IfOk result (λ back. (v : ℕ) → 1 ≤ v → v ≤ length bfs_order.now → label_row back v ≡ label_row rows (number_in bfs_order.now v)) }
{
    let (compact, full) = rows.into_parts();
    let compact = lists_back(alloc, bfs_order, compact)?;
    let full = rows_back(alloc, bfs_order, full)?;
    Ok(SplitRows::from_parts(compact, full))
}

/// A list for each node, under the old numbers. No list is copied; the only error is that memory ran out.
fn lists_back<T: Copy>(
    alloc: Global,
    bfs_order: &Ranking,
    lists: Vec<Vec<T>>,
) -> Result<Vec<Vec<T>>, AllocError>
    requires { vec_len lists ≡ length bfs_order.now }
    ensures ranking { IsRanking bfs_order.now }
    ensures size { IfOk result (λ back. vec_len back ≡ length bfs_order.now) }
    ensures lists { IfOk result (λ back. (v : ℕ) → 1 ≤ v → v ≤ length bfs_order.now → list_of back.items v ≡ list_of lists.items (number_in bfs_order.now v)) }
{
    let n = bfs_order.n();
    let mut old = lists;
    let mut back = Vec::with_capacity(alloc, n as usize)?;
    for k in 0..n {
        let none: Vec<T> = Vec::new(alloc);
        back.push(mem::replace(&mut old[bfs_order.pos(k + 1) as usize], none))?;
    }
    Ok(back)
}
