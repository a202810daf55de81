//! What one worker puts in a superstep: a list of all, and chains through those entries that it keeps for itself.
ghost use Rattle.std.specs.Prelude.{◌≡◌, ◌-◌, ◌<◌, ◌≤◌, ◌↔◌, [], All, Contains, IsTrue, length, reverse, take, IfOk, IfSome, IfNone, OnOk, OnErr};
ghost use Rattle.walk_laws.specs.declared.entry.Entry.{Entry as AnEntry};
ghost use Rattle.hub_index.specs.RootDistances.{noted, IsCover};
ghost use Rattle.hub_index.specs.NodeEntries.{entries_of_node};
ghost use Rattle.hub_index.specs.Views.{IsNode};
ghost use Rattle.pool_view.specs.Putting.{listed};

use crate::chains::Chains;
use hub_index::{NodeEntry, RootTable};
use std::alloc::{AllocError, Global};
use std::marker::Model;
use walk_laws::{Dist, Entry};

/// Room for the rows that one worker keeps for itself, 4 bytes a node. It is made once, and between two supersteps all the rows
/// are empty. Contracts see the number of nodes.
#[derive(Drop)]
pub struct OwnRows {
    kept: Vec<NodeEntry>,
    chains: Chains,
}

impl Model for OwnRows {
    ghost use Rattle.std.specs.Prelude.{ℕ, length};
    ghost use Rattle.pool_view.specs.Chains.{AreEmpty};

    ghost Value = { ℕ };

    ghost view = { λ o. length o.chains.heads.items };

    ghost invariant = { λ o. AreEmpty (length o.chains.heads.items) o.chains };
}

impl OwnRows {
    /// Empty rows of the nodes 1..n. The only error is that memory ran out.
    pub fn new(alloc: Global, n: u32) -> Result<OwnRows, AllocError>
        ensures { IfOk result (λ own. own ≡ n) }
    {
        Ok(OwnRows {
            kept: Vec::new(alloc),
            chains: Chains::new(alloc, n)?,
        })
    }
}

/// What one worker put, in the pool or in rows of its own. Contracts see the list of all, the list of what it kept for itself,
/// and the number of nodes.
#[derive(Drop)]
pub struct Puts {
    list: Vec<NodeEntry>,
    kept: Vec<NodeEntry>,
    /// The own rows: a chain for each node through what is kept.
    chains: Chains,
}

impl Model for Puts {
    ghost use Rattle.std.specs.Prelude.{length};
    ghost use Rattle.pool_view.specs.Putting.{AreKept, Putting};

    ghost Value = { Putting };

    ghost view = { λ p. record { n = length p.chains.heads.items; list = p.list.items; kept = p.kept.items } };

    ghost invariant = { λ p. AreKept p.kept.items p.chains };
}

impl Puts {
    /// Nothing is put yet, in a list that is empty.
    pub fn new(own: OwnRows, list: Vec<NodeEntry>) -> Puts
        requires { list.items ≡ [] }
        ensures { result ≡ record { n = own; list = []; kept = [] } }
    {
        let OwnRows {
            mut kept,
            mut chains,
        } = own;
        kept.clear();
        chains.nexts.clear();
        Puts { list, kept, chains }
    }

    /// The own rows, which are emptied at the cost of what they have, and the list of all that was put. It takes no memory.
    pub fn into_parts(self) -> (OwnRows, Vec<NodeEntry>)
        ensures own { result.0 ≡ self.n }
        ensures list { result.1.items ≡ self.list }
    {
        let Puts {
            list,
            kept,
            mut chains,
        } = self;
        chains.clear(&kept);
        (OwnRows { kept, chains }, list)
    }

    /// The entries that the worker kept for itself.
    fn kept(&self) -> &[NodeEntry]
        ensures { result.now ≡ self.now.kept }
    {
        &self.kept
    }

    /// Lists an entry of the node `v`, a number from 1. The only error is that memory ran out, and then nothing has changed.
    pub fn list(&mut self, v: u32, pos: u32, dist: Dist) -> Result<(), AllocError>
        ensures ok { OnOk result (self.new ≡ record self.old { list = listed self.old.list v (record { pos = pos; dist = dist }) }) }
        ensures err { OnErr result (self.new ≡ self.old) }
    {
        self.list.push(NodeEntry { node: v, pos, dist })?;
        Ok(())
    }

    /// Takes the last entry off the list, as it wasn't put.
    pub fn unlist(&mut self)
        ensures { self.new ≡ record self.old { list = take (length self.old.list - 1) self.old.list } }
    {
        self.list.pop();
    }

    /// Lists an entry and keeps it, last in the own row of the node `v`, a number from 1. The only error is that memory ran
    /// out, and then nothing has changed.
    pub fn keep(&mut self, v: u32, pos: u32, dist: Dist) -> Result<(), AllocError>
        requires node { IsNode self.old.n v }
        ensures ok { OnOk result (self.new ≡ record self.old { list = listed self.old.list v (record { pos = pos; dist = dist }); kept = listed self.old.kept v (record { pos = pos; dist = dist }) }) }
        ensures err { OnErr result (self.new ≡ self.old) }
    {
        self.list(v, pos, dist)?;
        if self.chain(v, pos, dist).is_err() {
            self.unlist();
            return Err(AllocError);
        }
        Ok(())
    }

    /// Puts an entry last in the own row of the node `v`, a number from 1. The only error is that memory ran out, and then
    /// nothing has changed.
    fn chain(&mut self, v: u32, pos: u32, dist: Dist) -> Result<(), AllocError>
        requires node { IsNode self.old.n v }
        ensures ok { OnOk result (self.new ≡ record self.old { kept = listed self.old.kept v (record { pos = pos; dist = dist }) }) }
        ensures err { OnErr result (self.new ≡ self.old) }
    {
        self.kept.push(NodeEntry { node: v, pos, dist })?;
        if self.chains.put(v).is_err() {
            self.kept.pop();
            return Err(AllocError);
        }
        Ok(())
    }

    /// Whether the own row of the node `v`, a number from 1, is empty.
    pub fn keeps_none(&self, v: u32) -> bool
        requires node { IsNode self.now.n v }
        ensures { IsTrue result ↔ (entries_of_node self.now.kept v ≡ []) }
    {
        self.chains.is_empty_at(v)
    }

    /// Notes the entries of the own row of the node `v`, a number from 1, in the table, newest first. It takes no memory.
    pub fn note(&self, v: u32, table: &mut RootTable)
        requires node { IsNode self.now.n v }
        requires positions { All (λ e. e.pos < length table.old) (entries_of_node self.now.kept v) }
        ensures { table.new ≡ noted table.old (reverse (entries_of_node self.now.kept v)) }
    {
        for entry in self.chains.of_node(self.kept(), v) {
            table.note(entry);
        }
    }

    /// The newest entry of the own row of the node `v`, a number from 1, that covers one at the position `pos`, from 0, with
    /// the distance `dist`, or None where none does.
    pub fn cover(&self, v: u32, table: &RootTable, pos: u32, dist: u128) -> Option<Entry>
        requires node { IsNode self.now.n v }
        requires size { pos ≤ length table.now }
        ensures some { IfSome result (λ e. Contains (entries_of_node self.now.kept v) e × IsCover table.now pos dist e) }
        ensures none { IfNone result ((e : AnEntry) → Contains (entries_of_node self.now.kept v) e → ¬ IsCover table.now pos dist e) }
    {
        for entry in self.chains.of_node(self.kept(), v) {
            let entry = &entry;
            if table.covers(*entry, pos, dist) {
                return Some(*entry);
            }
        }
        None
    }
}
