ghost use Rattle.std.specs.Prelude.{◌≡◌};
ghost use Rattle.frontier.specs.HeapEntryOf.{heap_entry_of};

use std::cmp::Reverse;

/// A node's heap entry to be taken, at the distance of an offer to it. Of two heap entries the greater is the nearer, whichever nodes
/// they are of.
#[derive(Clone, Copy, Debug)]
#[derive_where(PartialEq, Eq, PartialOrd, Ord)]
pub struct HeapEntry {
    pub dist: Reverse<u128>,
    #[derive_where(skip(EqHashOrd))]
    pub node: u32,
}

impl HeapEntry {
    pub fn of(node: u32, dist: u128) -> HeapEntry
        ensures { result ≡ heap_entry_of node dist }
    {
        HeapEntry {
            dist: Reverse(dist),
            node,
        }
    }
}
