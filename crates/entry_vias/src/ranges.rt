//! How the nodes of an index are shared out in ranges of about as many entries, for threads that go along their rows.
ghost use Rattle.std.specs.Prelude.{◌≤◌, length};

use hub_index::Index;
use rayon::current_num_threads;
use std::thread::Threads;

/// The fewest nodes that are worth a range of their own.
const NODES_A_RANGE: u32 = 64;

/// How many threads run at a time: one for each core, or one where that cannot be told.
pub fn cores<R: Threads>(rt: &R) -> u32
    ensures { 1 ≤ result }
{
    current_num_threads(rt).min(u32::MAX as usize) as u32
}

/// How many ranges so many nodes are shared out in, at most `most` and at least one, so that none is small.
///
/// ```text
/// ranges_for(1000, 4) == 4
/// ranges_for(150, 4) == 2
/// ranges_for(10, 4) == 1
/// ```
pub fn ranges_for(nodes: u32, most: u32) -> u32
    ensures some { 1 ≤ result }
    ensures most { 1 ≤ most → result ≤ most }
{
    (nodes / NODES_A_RANGE).clamp(1, most.max(1))
}

/// Some node up to which the rows of the nodes after `from` have about `part` of `whole` parts of the entries of those up to
/// `to`. It looks at the length of each of these rows, twice at most.
///
/// ```text
/// rows of 1, 2, 3, 4 and 5 of the lengths 1, 2, 3, 1 and 5:
/// share_end(&index, 0, 5, 1, 2) == 3, as 1 + 2 + 3 is the half of 12
/// ```
pub fn share_end(index: &Index, from: u32, to: u32, part: u32, whole: u32) -> u32
    requires rising { from ≤ to }
    requires within { to ≤ length index.now.order }
    requires some { 1 ≤ whole }
    ensures from { from ≤ result }
    ensures to { result ≤ to }
{
    let mut entries = 0u64;
    for place in from..to {
        entries = entries.saturating_add(index.row(place + 1).len() as u64);
    }
    let share = (entries / u64::from(whole)).saturating_mul(u64::from(part));
    let mut before = 0u64;
    for place in from..to {
        before = before.saturating_add(index.row(place + 1).len() as u64);
        if before >= share {
            return place + 1;
        }
    }
    to
}
