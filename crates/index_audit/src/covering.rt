ghost use Rattle.std.specs.Prelude.{ℕ, MatchOption, map};
ghost use Rattle.std.specs.List.Sorted.{IsStrictlyIncreasing};
ghost use Rattle.index_audit.specs.Checks.{MeetAt, IsFirstMeet};

use crate::lookup::first_from;
use walk_laws::Entry;

/// The least position, from 0, that both rows have with a sum of distances of at most `dist`. It goes along both rows once,
/// and in the second only to the positions that the first has within `dist`.
pub fn first_meet(first: &[Entry], second: &[Entry], dist: u128) -> Option<u32>
    requires first_rises { IsStrictlyIncreasing (map (λ e. e.pos) first.now) }
    requires second_rises { IsStrictlyIncreasing (map (λ e. e.pos) second.now) }
    ensures { MatchOption result ((q : ℕ) → ¬ MeetAt first.now second.now dist q) (λ q. IsFirstMeet first.now second.now dist q) }
{
    let mut from = 0;
    for entry in first {
        let near = entry.dist.get();
        if near > dist {
            continue;
        }
        from = first_from(second, from, entry.pos);
        if from == second.len() {
            return None;
        }
        let other = second[from];
        if other.pos == entry.pos && near + other.dist.get() <= dist {
            return Some(entry.pos);
        }
    }
    None
}
