ghost use Rattle.std.specs.Prelude.{◌≡◌, ℕ, ◌≤◌, MatchOption, Contains, length};
ghost use Rattle.walk_laws.specs.Labelling.{label_row};
ghost use Rattle.via_trace.specs.Traces.{GoesBy, entry_at};

use entry_vias::TracedIndex;

/// The distance of the entry that the row of the node `x`, a number from 1, has at the position `pos`, from 0, and its via. It takes
/// as many steps as the logarithm of the row's length.
pub fn entry_of(traced: &TracedIndex, x: u32, pos: u32) -> Option<(u128, u32)>
    requires node { 1 ≤ x }
    requires within { x ≤ length traced.now.order }
    ensures { MatchOption result ((d : ℕ) → ¬ Contains (label_row traced.now.rows x) (entry_at pos d)) (λ found. GoesBy traced.now pos x found.0 found.1) }
{
    let row = traced.index().row(x);
    match row.binary_search_by_key(&pos, |entry| entry.pos) {
        Ok(place) => Some((row[place].dist.get(), traced.vias().row(x)[place])),
        Err(_) => None,
    }
}
