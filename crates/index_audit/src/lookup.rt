ghost use Rattle.std.specs.Prelude.{◌≡◌, ℕ, ◌<◌, ◌≤◌, Contains, MatchOption, get_or, length, map};
ghost use Rattle.std.specs.List.Sorted.{IsStrictlyIncreasing};
ghost use Rattle.index_audit.specs.Places.{BelowUpTo, pos_at};

use walk_laws::{Dist, Entry};

/// The distance that a row has at the position `pos`, from 0, in as many steps as the logarithm of its length.
pub fn distance_at(row: &[Entry], pos: u32) -> Option<Dist>
    requires { IsStrictlyIncreasing (map (λ e. e.pos) row.now) }
    ensures { MatchOption result ((d : ℕ) → ¬ Contains row.now (record { pos = pos; dist = d })) (λ d. Contains row.now (record { pos = pos; dist = d })) }
{
    match row.binary_search_by_key(&pos, |entry| entry.pos) {
        Ok(place) => Some(row[place].dist),
        Err(_) => None,
    }
}

/// The first place of a row, from the place `from` on, whose position is at least `pos`, or the row's length.
pub fn first_from(row: &[Entry], from: usize, pos: u32) -> usize
    requires within { from ≤ length row.now }
    requires passed { BelowUpTo row.now from pos }
    ensures within { result ≤ length row.now }
    ensures passed { BelowUpTo row.now result pos }
    ensures stops { result < length row.now → pos ≤ pos_at row.now result }
{
    let mut place = from;
    while place < row.len() && row[place].pos < pos {
        place += 1;
    }
    place
}
