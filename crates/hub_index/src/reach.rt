//! How far the entries of rows reach.
ghost use Rattle.std.specs.Prelude.{All, IfSome, IfNone};
ghost use Rattle.hub_index.specs.Reach.{IsBelow, IsFirstFrom};

use walk_laws::Entry;

/// 2^64: no index keeps an entry whose distance is this or more.
pub const TOO_FAR: u128 = 18_446_744_073_709_551_616;

/// 2^62: two distances below it have a sum that fits in a word, with room for what marks one.
pub const NOT_SHORT: u128 = 4_611_686_018_427_387_904;

/// The first entry of the row whose distance is `limit` or more, or None where there is none.
pub fn first_from(row: &[Entry], limit: u128) -> Option<Entry>
    ensures some { IfSome result (IsFirstFrom limit row.now) }
    ensures none { IfNone result (All (IsBelow limit) row.now) }
{
    for entry in row {
        if entry.dist.get() >= limit {
            return Some(*entry);
        }
    }
    None
}
