ghost use Rattle.std.specs.Prelude.{◌≡◌, ℕ, ◌^◌, ◌<◌, ◌≤◌, List, [], All, length, map, MatchOption, IfOk};
ghost use Rattle.std.specs.List.Sorted.{IsStrictlyIncreasing};
ghost use Rattle.walk_laws.specs.declared.entry.Entry.{Entry as EntryOf};
ghost use Rattle.walk_laws.specs.Meet.{IsLeastSum, ShareNone};
ghost use Rattle.hub_query.specs.HubTables.{HoldsRow, far};

use hub_index::Entry;
use std::alloc::{AllocError, Global};

/// What a table has at a position where the row has no entry, 2^63: more than each sum of two distances of a short index.
const FAR: u64 = 9223372036854775808;

/// A table of the positions 0..n that holds no row. The only error is that memory ran out.
pub fn empty_table(alloc: Global, n: u32) -> Result<Vec<u64>, AllocError>
    ensures empty { IfOk result (λ table. HoldsRow [] table.items) }
    ensures size { IfOk result (λ table. length table.items ≡ n) }
{
    vec![in alloc; FAR; n as usize]
}

/// Puts a row into a table that holds none: the distance of each entry at its position, from 0.
pub fn load(table: &mut [u64], row: &[Entry])
    requires empty { HoldsRow [] table.old }
    requires rises { IsStrictlyIncreasing (map (λ e. e.pos) row.now) }
    requires within { All (λ e. e.pos < length table.old) row.now }
    requires fits { All (λ e. e.dist < 2 ^ 64) row.now }
    ensures row { HoldsRow row.now table.new }
    ensures size { length table.new ≡ length table.old }
{
    for entry in row {
        table[entry.pos as usize] = entry.dist.get_u64();
    }
}

/// Takes the row out of a table that holds it, at the cost of the row.
pub fn clear(table: &mut [u64], row: &[Entry])
    requires row { HoldsRow row.now table.old }
    requires within { All (λ e. e.pos < length table.old) row.now }
    ensures empty { HoldsRow [] table.new }
    ensures size { length table.new ≡ length table.old }
{
    for entry in row {
        table[entry.pos as usize] = FAR;
    }
}

/// The least position with the least sum of two distances at one position, one of the row that the table holds and one of
/// `row`, and that sum; None where the two rows share no position. It walks `row` once, and no other.
pub fn least_through(table: &[u64], row: &[Entry]) -> Option<(u32, u64)>
    requires low { All (λ d. d ≤ far) table.now }
    requires rises { IsStrictlyIncreasing (map (λ e. e.pos) row.now) }
    requires fits { All (λ e. e.dist < 2 ^ 62) row.now }
    requires within { All (λ e. e.pos < length table.now) row.now }
    ensures { (held : List EntryOf) → HoldsRow held table.now → All (λ e. e.dist < 2 ^ 62) held
        → MatchOption result (ShareNone held row.now) (λ best. IsLeastSum held row.now best.0 best.1) }
{
    let (mut pos, mut least) = (0, FAR);
    for entry in row {
        let sum = table[entry.pos as usize] + entry.dist.get_u64();
        if sum < least {
            pos = entry.pos;
            least = sum;
        }
    }
    if least == FAR {
        None
    } else {
        Some((pos, least))
    }
}
