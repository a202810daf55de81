//! The entries of one node, found along its chain.
ghost use Rattle.std.specs.Prelude.{◌≡◌};
ghost use Rattle.std.specs.Iterator.{YieldsFirst, item_count};

use hub_index::NodeEntry;
use std::marker::Model;
use walk_laws::Entry;

/// The entries of one node in a list that is chained, from the last one on. Contracts see the list of those that are left.
#[derive(Drop)]
pub struct NodeChain<'a> {
    pub(crate) entries: &'a [NodeEntry],
    pub(crate) nexts: &'a [u32],
    /// The link to the next one.
    pub(crate) link: u32,
}

impl<'a> Model for NodeChain<'a> {
    ghost use Rattle.std.specs.Prelude.{◌≤◌, List, length};
    ghost use Rattle.walk_laws.specs.declared.entry.Entry.{Entry};
    ghost use Rattle.pool_view.specs.Links.{IsChain, chain_from};

    ghost Value = { List Entry };

    ghost view = { λ c. chain_from c.entries.now c.nexts.now c.link c.link };

    ghost invariant = { λ c. (length c.nexts.now ≤ length c.entries.now) × IsChain c.entries.now c.nexts.now c.link (chain_from c.entries.now c.nexts.now c.link c.link) };
}

impl<'a> Iterator for NodeChain<'a> {
    type Item = Entry;

    ghost next_gives = { YieldsFirst (λ rest. rest) };

    ghost remaining = { item_count (λ rest. rest) };

    fn next(&mut self) -> Option<Entry> {
        if self.link == 0 {
            return None;
        }
        let place = self.link as usize - 1;
        self.link = self.nexts[place];
        Some(self.entries[place].entry())
    }
}
