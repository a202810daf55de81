//! Chains through a list of entries of many nodes, one for each node.
ghost use Rattle.std.specs.Prelude.{◌≡◌, ◌↔◌, ℕ, ◌+◌, ◌<◌, List, [], All, IsTrue, get_or, length, reverse, IfOk, OnOk, OnErr};
ghost use Rattle.hub_index.specs.declared.node_entry.NodeEntry.{NodeEntry as ANodeEntry};
ghost use Rattle.hub_index.specs.NodeEntries.{entries_of_node};
ghost use Rattle.hub_index.specs.Views.{IsNode};
ghost use Rattle.pool_view.specs.Chains.{AreChained, AreEmpty};

use crate::node_chain::NodeChain;
use hub_index::NodeEntry;
use std::alloc::{AllocError, Global};

/// Chains through a list of entries of the nodes 1..n. A link is 0 at the end of a chain, and else one more than the place of
/// an entry in the list, from 0.
#[derive(Drop)]
pub struct Chains {
    /// For each node, node 1 first, the link to its last entry.
    pub heads: Vec<u32>,
    /// For each entry the link to the one before it of the same node.
    pub nexts: Vec<u32>,
}

impl Chains {
    /// Empty chains of the nodes 1..n. The only error is that memory ran out.
    pub fn new(alloc: Global, n: u32) -> Result<Chains, AllocError>
        ensures { IfOk result (AreEmpty n) }
    {
        Ok(Chains {
            heads: vec![in alloc; 0u32; n as usize]?,
            nexts: Vec::new(alloc),
        })
    }

    /// Puts the next entry of the list, which is of this node, a number from 1, at the head of its chain. The only error is
    /// that memory ran out, and then nothing has changed; so many entries that a link can't tell their places count as that.
    pub fn put(&mut self, node: u32) -> Result<(), AllocError>
        requires { IsNode (length self.old.heads.items) node }
        ensures size { length self.new.heads.items ≡ length self.old.heads.items }
        ensures put { OnOk result ((entries : List ANodeEntry) (many : ℕ) (d : ANodeEntry) → many < length entries → (get_or entries many d).node ≡ node
            → AreChained entries many self.old → AreChained entries (many + 1) self.new) }
        ensures err { OnErr result ((self.new.heads.items ≡ self.old.heads.items) × (self.new.nexts.items ≡ self.old.nexts.items)) }
    {
        let place = node as usize - 1;
        let Ok(link) = u32::try_from(self.nexts.len() + 1) else {
            return Err(AllocError);
        };
        self.nexts.push(self.heads[place])?;
        self.heads[place] = link;
        Ok(())
    }

    /// The entries of the node `v`, a number from 1, in the list that is chained, from the last one on.
    pub fn of_node<'a>(&'a self, entries: &'a [NodeEntry], v: u32) -> NodeChain<'a>
        requires chained { AreChained entries.now (length entries.now) self.now }
        requires node { IsNode (length self.now.heads.items) v }
        ensures { result ≡ reverse (entries_of_node entries.now v) }
    {
        NodeChain {
            entries,
            nexts: self.nexts.as_slice(),
            link: self.heads[v as usize - 1],
        }
    }

    /// Whether the node `v`, a number from 1, has no entry in the list that is chained.
    pub fn is_empty_at(&self, v: u32) -> bool
        requires { IsNode (length self.now.heads.items) v }
        ensures { (entries : List ANodeEntry) → AreChained entries (length entries) self.now → IsTrue result ↔ (entries_of_node entries v ≡ []) }
    {
        self.heads[v as usize - 1] == 0
    }

    /// Empties the chains of a list. It costs the entries.
    pub fn clear(&mut self, entries: &[NodeEntry])
        requires chained { AreChained entries.now (length entries.now) self.old }
        requires nodes { All (λ e. IsNode (length self.old.heads.items) e.node) entries.now }
        ensures { AreEmpty (length self.old.heads.items) self.new }
    {
        for entry in entries {
            self.heads[entry.node as usize - 1] = 0;
        }
    }
}
