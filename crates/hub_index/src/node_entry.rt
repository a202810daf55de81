ghost use Rattle.std.specs.Prelude.{◌≡◌};
ghost use Rattle.hub_index.specs.NodeEntries.{entry_of};

use walk_laws::{Dist, Entry};

/// An entry of the row of a node, which is a number from 1: the hub's position, from 0, and the distance. It takes no more
/// room than the entry alone.
#[derive(Clone, Copy, Debug, PartialEq, Eq)]
pub struct NodeEntry {
    pub node: u32,
    pub pos: u32,
    pub dist: Dist,
}

impl NodeEntry {
    /// The entry of the row of the node, a number from 1.
    pub fn of(node: u32, entry: Entry) -> NodeEntry
        ensures { result ≡ record { node = node; pos = entry.pos; dist = entry.dist } }
    {
        NodeEntry {
            node,
            pos: entry.pos,
            dist: entry.dist,
        }
    }

    /// The entry without its node.
    pub fn entry(&self) -> Entry
        ensures { result ≡ entry_of self.now }
    {
        Entry {
            pos: self.pos,
            dist: self.dist,
        }
    }
}
