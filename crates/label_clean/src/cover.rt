ghost use Rattle.std.specs.Prelude.{◌↔◌, ◌≤◌, length, map, IsTrue};
ghost use Rattle.std.specs.List.Sorted.{IsNonDecreasingBy, IsStrictlyIncreasing};
ghost use Rattle.label_clean.specs.Tested.{HasCover, IsCovering, Meets};

use hub_index::RootTable;
use walk_laws::Entry;

/// Whether an entry of the row covers one at the position `pos`, from 0, with the distance `dist`. Along a row by distance, whose
/// distances rise, it goes no further than to the first entry that is farther than `dist` by itself.
pub fn is_covered(
    row: &[Entry],
    is_by_distance: bool,
    table: &RootTable,
    pos: u32,
    dist: u128,
) -> bool
    requires rising { IsTrue is_by_distance → IsNonDecreasingBy (λ e. e.dist) row.now }
    requires position { pos ≤ length table.now }
    ensures { IsTrue result ↔ HasCover table.now pos dist row.now }
{
    for entry in row {
        if is_by_distance && entry.dist.get() > dist {
            return false;
        }
        if table.covers(*entry, pos, dist) {
            return true;
        }
    }
    false
}

/// Whether an entry and one of a row by rising position cover one at the position `pos`, from 0, with the distance `dist`.
pub fn covers(other: Entry, row: &[Entry], pos: u32, dist: u128) -> bool
    ensures { IsStrictlyIncreasing (map (λ e. e.pos) row.now) → IsTrue result ↔ IsCovering row.now pos dist other }
{
    if other.pos >= pos {
        return false;
    }
    meets(row, other, dist)
}

/// Whether a row by rising position has an entry at the position of another one, whose distances are together at most `dist`.
fn meets(row: &[Entry], other: Entry, dist: u128) -> bool
    ensures { IsStrictlyIncreasing (map (λ e. e.pos) row.now) → IsTrue result ↔ Meets row.now other dist }
{
    let far = other.dist.get();
    if far > dist {
        return false;
    }
    let place = row.partition_point(|e| e.pos < other.pos);
    if place >= row.len() {
        return false;
    }
    let met = row[place];
    if met.pos != other.pos {
        return false;
    }
    met.dist.get() <= dist - far
}
