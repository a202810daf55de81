ghost use Rattle.std.specs.Prelude.{◌≡◌, ◌^◌, ◌≤◌, All, length};
ghost use Rattle.grid_work.specs.Totals.{distance_sum, entry_count, row_distances as row_sum};

use hub_index::{Entry, Index};

/// What the rows of an index come to: how many entries they have, and the sum of all their distances. An index has at most
/// 2^60 entries with distances below 2^64, so the sum has room.
#[derive(Clone, Copy, Debug, PartialEq, Eq)]
pub struct Totals {
    pub entries: u64,
    pub distances: u128,
}

/// The totals of an index, in one pass over its rows. It takes no memory.
pub fn totals_of(index: &Index) -> Totals
    ensures entries { result.entries ≡ entry_count index.now.rows }
    ensures distances { result.distances ≡ distance_sum index.now.rows }
{
    let mut entries: u64 = 0;
    let mut distances: u128 = 0;
    for p in 0..index.n() {
        let row = index.row(p + 1);
        entries += row.len() as u64;
        distances += row_distances(row);
    }
    Totals { entries, distances }
}

/// The sum of the distances of a row.
fn row_distances(row: &[Entry]) -> u128
    requires short { length row.now ≤ 2 ^ 30 }
    requires near { All (λ e. e.dist ≤ 2 ^ 64) row.now }
    ensures { result ≡ row_sum row.now }
{
    let mut sum: u128 = 0;
    for entry in row {
        sum += entry.dist.get();
    }
    sum
}
