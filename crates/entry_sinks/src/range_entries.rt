ghost use Rattle.std.specs.Prelude.{◌≡◌, [], ◌∷◌, ◌++◌, OnOk, OnErr};
ghost use Rattle.entry_sinks.specs.RangeEntries.{widened as widened_entry};

use hub_index::NodeEntry;
use std::alloc::{AllocError, Global};
use std::marker::Model;
use walk_laws::{Dist, Entry};

/// An entry of a node's row whose distance is below 2^32, in three words.
#[derive(Clone, Copy, Debug)]
pub struct CompactNodeEntry {
    node: u32,
    pos: u32,
    dist: u32,
}

/// An entry with its node, in whatever room. Contracts see the [`NodeEntry`].
pub trait AnyNodeEntry {
    ghost use Rattle.std.specs.Prelude.{◌≡◌};
    ghost use Rattle.hub_index.specs.declared.node_entry.NodeEntry.{NodeEntry};

    /// The entry in full room.
    ghost entry: { Self → NodeEntry };

    /// The entry in full room.
    fn widened(&self) -> NodeEntry
        ensures { result ≡ entry self.now };
}

impl AnyNodeEntry for NodeEntry {
    ghost entry = { λ e. e };

    fn widened(&self) -> NodeEntry
        ensures { result ≡ self.now }
    {
        *self
    }
}

impl AnyNodeEntry for CompactNodeEntry {
    ghost use Rattle.entry_sinks.specs.RangeEntries.{widened};

    ghost entry = { λ e. widened e };

    fn widened(&self) -> NodeEntry
        ensures { result ≡ widened_entry self.now }
    {
        NodeEntry {
            node: self.node,
            pos: self.pos,
            dist: Dist::of_u64(u64::from(self.dist)),
        }
    }
}

/// The entries of the nodes in a range, in the order in which they were put. As long as distances are below 2^32 they take
/// three words each; from the first greater one on they take five. Contracts see the list of entries.
#[derive(Debug, Drop)]
pub struct RangeEntries {
    compact: Vec<CompactNodeEntry>,
    full: Vec<NodeEntry>,
}

impl Model for RangeEntries {
    ghost use Rattle.std.specs.Prelude.{List};
    ghost use Rattle.hub_index.specs.declared.node_entry.NodeEntry.{NodeEntry};
    ghost use Rattle.entry_sinks.specs.RangeEntries.{entries_of_parts};

    ghost Value = { List NodeEntry };

    ghost view = { λ r. entries_of_parts r.compact.items r.full.items };
}

impl RangeEntries {
    ghost use Rattle.entry_sinks.specs.RangeEntries.{IsInParts};

    /// No entries. It takes no memory.
    pub fn new(alloc: Global) -> RangeEntries
        ensures { result ≡ [] }
    {
        RangeEntries {
            compact: Vec::new(alloc),
            full: Vec::new(alloc),
        }
    }

    /// Puts an entry of the row of a node, a number from 1, after the others. The only error is that memory ran out, and then
    /// nothing has changed.
    pub fn push(&mut self, node: u32, entry: Entry) -> Result<(), AllocError>
        ensures ok { OnOk result (self.new ≡ self.old ++ record { node = node; pos = entry.pos; dist = entry.dist } ∷ []) }
        ensures err { OnErr result (self.new ≡ self.old) }
    {
        let near = entry.dist.to_u32();
        if self.full.is_empty() {
            if let Some(dist) = near {
                self.compact.push(CompactNodeEntry {
                    node,
                    pos: entry.pos,
                    dist,
                })?;
                return Ok(());
            }
        }
        self.full.push(NodeEntry::of(node, entry))?;
        Ok(())
    }

    /// The entries in three words, which come first, and those in five.
    pub fn parts(&self) -> (&[CompactNodeEntry], &[NodeEntry])
        ensures { IsInParts self.now result.0.now result.1.now }
    {
        (&self.compact, &self.full)
    }
}
