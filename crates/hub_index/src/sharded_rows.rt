//! The rows of a graph's nodes that lie in shards, looked at as one table.
ghost use Rattle.std.specs.Prelude.{◌≡◌, ◌<◌, ◌≤◌, All, Contains, length, IfSome, IfNone};
ghost use Rattle.walk_laws.specs.declared.entry.Entry.{Entry as AnEntry};
ghost use Rattle.walk_laws.specs.Labelling.{label_row};
ghost use Rattle.hub_index.specs.RootDistances.{noted, IsCover};
ghost use Rattle.hub_index.specs.Shards.{AreShards, sharded_rows};

use crate::root_table::RootTable;
use crate::shards::Shards;
use crate::split_rows::SplitRows;
use std::marker::Model;
use walk_laws::Entry;

/// The rows of the nodes 1..n that lie in shards, as one table, to be looked at. Contracts see the list of the rows, node 1
/// first.
#[derive(Drop)]
pub struct ShardedRows<'a> {
    shards: &'a [SplitRows],
    dealt: Shards,
    n: u32,
}

impl<'a> Model for ShardedRows<'a> {
    ghost use Rattle.std.specs.Prelude.{List};
    ghost use Rattle.walk_laws.specs.declared.entry.Entry.{Entry};
    ghost use Rattle.hub_index.specs.Shards.{AreShards, sharded_rows};

    ghost Value = { List (List Entry) };

    ghost view = { λ r. sharded_rows r.dealt.shift r.n r.shards.now };

    ghost invariant = { λ r. AreShards r.dealt.shift r.n r.shards.now };
}

impl<'a> ShardedRows<'a> {
    /// The rows of the nodes 1..n, which lie in these shards. It takes no memory.
    pub fn of(shards: &'a [SplitRows], dealt: Shards, n: u32) -> ShardedRows<'a>
        requires { AreShards dealt.shift n shards.now }
        ensures { result ≡ sharded_rows dealt.shift n shards.now }
    {
        ShardedRows { shards, dealt, n }
    }

    /// The same rows, lent once more. It takes no memory.
    pub fn again(&self) -> ShardedRows<'a>
        ensures { result ≡ self.now }
    {
        ShardedRows {
            shards: self.shards,
            dealt: self.dealt,
            n: self.n,
        }
    }

    /// Notes the entries of the row of the node `v`, a number from 1, in the table, one after another. It takes no memory.
    pub fn note(&self, v: u32, table: &mut RootTable)
        requires node { 1 ≤ v }
        requires within { v ≤ length self.now }
        requires positions { All (λ e. e.pos < length table.old) (label_row self.now v) }
        ensures { table.new ≡ noted table.old (label_row self.now v) }
    {
        let number = self.dealt.number(v);
        let place = self.dealt.place(v);
        self.shards[number as usize].note(place, table);
    }

    /// An entry of the row of the node `v`, a number from 1, that covers one at the position `pos`, from 0, with the distance
    /// `dist`, or None where none does.
    pub fn cover(&self, v: u32, table: &RootTable, pos: u32, dist: u128) -> Option<Entry>
        requires node { 1 ≤ v }
        requires within { v ≤ length self.now }
        requires size { pos ≤ length table.now }
        ensures some { IfSome result (λ e. Contains (label_row self.now v) e × IsCover table.now pos dist e) }
        ensures none { IfNone result ((e : AnEntry) → Contains (label_row self.now v) e → ¬ IsCover table.now pos dist e) }
    {
        let number = self.dealt.number(v);
        let place = self.dealt.place(v);
        self.shards[number as usize].cover(place, table, pos, dist)
    }
}
