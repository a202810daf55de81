ghost use Rattle.std.specs.Prelude.{◌≡◌, ℕ, ◌+◌, ◌<◌, ◌≤◌, length};
ghost use Rattle.std.specs.List.Sorted.{IsNonDecreasingBy};
ghost use Rattle.walk_laws.specs.Labelling.{label_row};
ghost use Rattle.walk_laws.specs.Ranking.{position_of};
ghost use Rattle.label_clean.specs.RawRows.{HasEachOnce};
ghost use Rattle.label_clean.specs.Sorted.{IsSortedRow};
ghost use Rattle.label_clean.specs.Tested.{HasEntriesOf, count_by_distance};

use hub_index::RowList;
use rank_table::Ranking;
use rayon::prelude::*;
use std::thread::Threads;
use walk_laws::Entry;

/// How many of n nodes, the highest-ranked ones, are hubs of so many others that it pays to put their rows by distance.
pub fn count_by_distance(n: u32) -> u32
    ensures { result ≡ count_by_distance n }
{
    n / 8
}

/// The rows, those of the highest-ranked nodes by rising distance, sorted in place on all cores.
pub fn by_distance<R: Threads + Sync>(rt: &R, ranking: &Ranking, rows: RowList) -> RowList
    requires size { length rows ≡ length ranking.now }
    requires rows { (v : ℕ) → 1 ≤ v → v ≤ length rows → HasEachOnce (label_row rows v) }
    ensures size { length result ≡ length rows }
    ensures rows { (v : ℕ) → 1 ≤ v → v ≤ length rows → HasEntriesOf (label_row rows v) (label_row result v) }
    ensures rising { (v : ℕ) → 1 ≤ v → v ≤ length rows → position_of ranking.now v < count_by_distance (length ranking.now) → IsNonDecreasingBy (λ e. e.dist) (label_row result v) }
{
    let mut rows = rows.into_rows();
    par_for_each_mut(
        rt,
        rows.as_mut_slice(),
        |place: usize, row: &mut Vec<Entry>|
            requires { HasEachOnce row.now.items × (place < length ranking.now) }
            ensures { HasEntriesOf row.entry.now.items row.exit.now.items
                × (position_of ranking.entry.now (place + 1) < count_by_distance (length ranking.entry.now) → IsNonDecreasingBy (λ e. e.dist) row.exit.now.items) }
        { put_by_distance(ranking, place, row) },
    );
    RowList::from_rows(rows)
}

/// Sorts the row at a place, from 0, which is that of the node of the next number, by distance, if the node is one of the
/// highest-ranked ones.
fn put_by_distance(ranking: &Ranking, place: usize, row: &mut Vec<Entry>)
    requires place { place < length ranking.now }
    requires once { HasEachOnce row.old.items }
    ensures rows { HasEntriesOf row.old.items row.new.items }
    ensures rising { position_of ranking.now (place + 1) < count_by_distance (length ranking.now) → IsNonDecreasingBy (λ e. e.dist) row.new.items }
{
    let n = ranking.n();
    if ranking.pos(place as u32 + 1) < count_by_distance(n) {
        row.sort_unstable_by_key(|e| e.dist.get());
    }
}

/// The rows, each by rising position, sorted in place on all cores.
pub fn by_position<R: Threads + Sync>(rt: &R, rows: RowList) -> RowList
    requires { (v : ℕ) → 1 ≤ v → v ≤ length rows → HasEachOnce (label_row rows v) }
    ensures size { length result ≡ length rows }
    ensures rows { (v : ℕ) → 1 ≤ v → v ≤ length rows → IsSortedRow (label_row rows v) (label_row result v) }
{
    let mut rows = rows.into_rows();
    par_for_each_mut(
        rt,
        rows.as_mut_slice(),
        |_place: usize, row: &mut Vec<Entry>|
            requires { HasEachOnce row.now.items }
            ensures { IsSortedRow row.entry.now.items row.exit.now.items }
        { row.sort_unstable_by_key(|e| e.pos) },
    );
    RowList::from_rows(rows)
}
