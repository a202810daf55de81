//! The rows of a graph's nodes, split at the first entry whose distance doesn't fit in half the room.
ghost use Rattle.std.specs.Prelude.{◌≡◌, ◌≢◌, ℕ, ◌-◌, ◌^◌, ◌<◌, ◌≤◌, [], ◌++◌, All, Contains, length, map, replicate, reverse, slice_set, vec_len, IfOk, IfSome, IfNone, OnOk, OnErr};
ghost use Rattle.walk_laws.specs.declared.entry.Entry.{Entry as AnEntry};
ghost use Rattle.walk_laws.specs.Labelling.{label_row};
ghost use Rattle.hub_index.specs.HubIndex.{with_entry};
ghost use Rattle.hub_index.specs.CompactRows.{row_of_parts, rows_of_parts};
ghost use Rattle.hub_index.specs.Shards.{AreShards, node_at, shard_count, shard_number, shard_of, shard_size, sharded_rows};
ghost use Rattle.hub_index.specs.Reach.{AreBelow, IsFirstOfRows};
ghost use Rattle.hub_index.specs.WellFormed.{IsWellFormed};
ghost use Rattle.hub_index.specs.RootDistances.{noted, IsCover, HoldsRow};
ghost use Rattle.hub_index.specs.Views.{IsNode, IsAnswerOf, with_put};

use crate::compact_row::{CompactEntry, cover_of_parts, first_of_parts, joined_parts, note_parts};
use crate::from_last::FromLast;
use crate::full_rows::FullRows;
use crate::index_rows::IndexRows;
use crate::node_entry::NodeEntry;
use crate::root_table::RootTable;
use crate::row_list::RowList;
use crate::row_view::Offer;
use crate::shards::Shards;
use rank_table::Ranking;
use std::alloc::{AllocError, Global};
use std::marker::Model;
use walk_laws::Entry;

/// The entries for which a row has room when it begins, so that a short row asks for memory once, and a long one seldom.
pub const FIRST_ROOM: usize = 32;

/// A row for each of the nodes 1..n: entries of 8 bytes, and from the first on whose distance is too great for that, entries
/// of 16. The two parts of a row lie apart, since the second is nearly always empty; of rows that were made empty none is looked
/// at before an entry is put there. Contracts see the list of the rows, node 1 first.
#[derive(Drop)]
pub struct SplitRows {
    compact: Vec<Vec<CompactEntry>>,
    full: FullRows,
}

impl Model for SplitRows {
    ghost use Rattle.std.specs.Prelude.{◌≡◌, ◌^◌, ◌<◌, List, length, map};
    ghost use Rattle.walk_laws.specs.declared.entry.Entry.{Entry};
    ghost use Rattle.hub_index.specs.CompactRows.{rows_of_parts};

    ghost Value = { List (List Entry) };

    ghost view = { λ r. rows_of_parts (map (λ row. row.items) r.compact.items) r.full };

    ghost invariant = { λ r. (length r.compact.items ≡ length r.full) × (length r.full < 2 ^ 32) };
}

impl SplitRows {
    /// An empty row for each of the nodes 1..n. The only error is that memory ran out.
    pub fn new(alloc: Global, n: u32) -> Result<SplitRows, AllocError>
        ensures { IfOk result (λ rows. rows ≡ replicate n []) }
    {
        SplitRows::with_room(alloc, n, FIRST_ROOM)
    }

    /// An empty row for each of the nodes 1..n, with room for so many entries of 8 bytes. The only error is that memory ran
    /// out.
    fn with_room(alloc: Global, n: u32, room: usize) -> Result<SplitRows, AllocError>
        ensures { IfOk result (λ rows. rows ≡ replicate n []) }
    {
        let mut compact = Vec::with_capacity(alloc, n as usize)?;
        for _ in 0..n {
            compact.push(Vec::with_capacity(alloc, room)?)?;
        }
        let full = FullRows::new(alloc, n)?;
        Ok(SplitRows { compact, full })
    }

    /// Notes the entries of the row of the node `v`, a number from 1, in the table, one after another. It takes no memory.
    pub fn note(&self, v: u32, table: &mut RootTable)
        requires node { 1 ≤ v }
        requires within { v ≤ length self.now }
        requires positions { All (λ e. e.pos < length table.old) (label_row self.now v) }
        ensures { table.new ≡ noted table.old (label_row self.now v) }
    {
        note_parts(&self.compact[v as usize - 1], self.full.row(v), table);
    }

    /// The entries of the row of the node `v`, a number from 1, from the last one on. It takes no memory.
    pub fn from_last(&self, v: u32) -> FromLast<'_>
        requires node { 1 ≤ v }
        requires within { v ≤ length self.now }
        ensures { result ≡ reverse (label_row self.now v) }
    {
        FromLast {
            compact: &self.compact[v as usize - 1],
            full: self.full.row(v),
        }
    }

    /// The rows that a list has of the nodes of one shard, each at its place there, with most entries in half the room. The
    /// shards count from 0. The only error is that memory ran out.
    pub fn of_shard(
        alloc: Global,
        list: &RowList,
        dealt: Shards,
        number: u32,
    ) -> Result<SplitRows, AllocError>
        requires shift { dealt.shift ≤ 30 }
        requires number { number < shard_count dealt.shift (length list.now) }
        ensures { IfOk result (λ rows. rows ≡ shard_of dealt.shift number list.now) }
    {
        let size = dealt.size(list.n(), number);
        let mut rows = SplitRows::new(alloc, size)?;
        for k in 0..size {
            rows.push_all(k + 1, list.row(dealt.node(number, k + 1)))?;
        }
        Ok(rows)
    }

    /// The rows of the nodes 1..n, which lie in shards, in one table. They are moved, and no entry is copied. The only error
    /// is that memory ran out.
    pub fn of_shards(
        alloc: Global,
        mut shards: Vec<SplitRows>,
        dealt: Shards,
        n: u32,
    ) -> Result<SplitRows, AllocError>
        requires { AreShards dealt.shift n shards.items }
        ensures { IfOk result (λ rows. rows ≡ sharded_rows dealt.shift n shards.items) }
    {
        let mut rows = SplitRows::with_room(alloc, n, 0)?;
        while let Some(shard) = shards.pop() {
            rows.take_shard(shard, dealt, shards.len() as u32);
        }
        Ok(rows)
    }

    /// Makes the rows of a shard those of its nodes, and leaves the rows of all others. It takes no memory.
    fn take_shard(&mut self, shard: SplitRows, dealt: Shards, number: u32)
        requires shift { dealt.shift ≤ 30 }
        requires nodes { length self.old < 2 ^ 32 }
        requires size { length shard ≡ shard_size dealt.shift (length self.old) number }
        ensures size { length self.new ≡ length self.old }
        ensures taken { (place : ℕ) → IsNode (length shard) place → label_row self.new (node_at dealt.shift number place) ≡ label_row shard place }
        ensures others { (v : ℕ) → 1 ≤ v → shard_number dealt.shift v ≢ number → label_row self.new v ≡ label_row self.old v }
    {
        let SplitRows { compact, full } = shard;
        let mut full = full.into_list().into_rows().into_iter();
        let mut place = 0;
        for compact in compact {
            let Some(full) = full.next() else {
                unreachable!();
            };
            place += 1;
            self.put_row(dealt.node(number, place), compact, full);
        }
    }

    /// Makes these two parts the row of the node `v`, a number from 1. It takes no memory.
    fn put_row(&mut self, v: u32, compact: Vec<CompactEntry>, full: Vec<Entry>)
        requires node { 1 ≤ v }
        requires within { v ≤ length self.old }
        ensures { self.new ≡ slice_set self.old (v - 1) (row_of_parts compact.items full.items) }
    {
        self.compact[v as usize - 1] = compact;
        self.full.put_row(v, full);
    }

    /// Puts the entries of another row last in the row of the node `v`, a number from 1, in their order. The only error is
    /// that memory ran out.
    fn push_all(&mut self, v: u32, entries: &[Entry]) -> Result<(), AllocError>
        requires node { 1 ≤ v }
        requires within { v ≤ length self.old }
        ensures { OnOk result (self.new ≡ slice_set self.old (v - 1) (label_row self.old v ++ entries.now)) }
    {
        for entry in entries {
            self.push(v, *entry)?;
        }
        Ok(())
    }

    /// Makes the table hold the least distance of each position of the row of the node `v`, a number from 1, and nothing else.
    /// It takes no memory.
    pub fn load(&self, v: u32, table: &mut RootTable)
        requires node { 1 ≤ v }
        requires within { v ≤ length self.now }
        requires positions { All (λ e. e.pos < length table.old) (label_row self.now v) }
        ensures held { HoldsRow table.new (label_row self.now v) }
        ensures size { length table.new ≡ length table.old }
    {
        table.clear();
        self.note(v, table);
    }

    /// Puts the entry last in the row of the node `v`, a number from 1, unless an entry of the row covers it by way of the
    /// root's hubs in the table. No memory is taken where an entry covers, and all other rows stay.
    pub fn offer(&mut self, v: u32, entry: Entry, table: &RootTable) -> Offer
        requires node { 1 ≤ v }
        requires within { v ≤ length self.old }
        requires size { entry.pos ≤ length table.now }
        ensures answer { IsAnswerOf table.now (label_row self.old v) entry result }
        ensures rows { self.new ≡ slice_set self.old (v - 1) (with_put (label_row self.old v) entry result) }
    {
        if let Some(cover) = self.cover(v, table, entry.pos, entry.dist.get()) {
            return Offer::Covered {
                pos: cover.pos,
                dist: cover.dist.get(),
            };
        }
        if self.push(v, entry).is_err() {
            return Offer::NoMemory;
        }
        Offer::Put
    }

    /// An entry of the row of the node `v`, a number from 1, that covers one at the position `pos`, from 0, with the distance
    /// `dist`, or None where none does.
    pub fn cover(&self, v: u32, table: &RootTable, pos: u32, dist: u128) -> Option<Entry>
        requires node { 1 ≤ v }
        requires within { v ≤ length self.now }
        requires size { pos ≤ length table.now }
        ensures some { IfSome result (λ e. Contains (label_row self.now v) e × IsCover table.now pos dist e) }
        ensures none { IfNone result ((e : AnEntry) → Contains (label_row self.now v) e → ¬ IsCover table.now pos dist e) }
    {
        let compact = &self.compact[v as usize - 1];
        cover_of_parts(compact, self.full.row(v), table, pos, dist)
    }

    /// Puts the entry last in the row of the node `v`, a number from 1. The only error is that memory ran out, and then
    /// nothing has changed.
    pub fn push(&mut self, v: u32, entry: Entry) -> Result<(), AllocError>
        requires node { 1 ≤ v }
        requires within { v ≤ length self.old }
        ensures ok { OnOk result (self.new ≡ with_entry self.old v entry) }
        ensures err { OnErr result (self.new ≡ self.old) }
    {
        let near = entry.dist.to_u32();
        if self.full.row(v).is_empty() {
            if let Some(dist) = near {
                self.compact[v as usize - 1].push(CompactEntry {
                    pos: entry.pos,
                    dist,
                })?;
                return Ok(());
            }
        }
        self.full.push(v, entry)?;
        Ok(())
    }

    /// The first entry, by rising node and then by its place in the row, whose distance is `limit` or more, or None where there
    /// is none. Where the limit is above 2^32, it looks only at entries in full room.
    #[inline(always)]
    pub(crate) fn first_from(&self, limit: u128) -> Option<NodeEntry>
        ensures some { IfSome result (IsFirstOfRows limit self.now) }
        ensures none { IfNone result (AreBelow limit self.now) }
    {
        for k in 0..self.compact.len() {
            let v = k as u32 + 1;
            let compact = &self.compact[v as usize - 1];
            if let Some(entry) = first_of_parts(compact, self.full.row(v), limit) {
                return Some(NodeEntry::of(v, entry));
            }
        }
        None
    }

    /// These rows as those of an index with this ranking, to be gone along. It takes no memory.
    pub(crate) fn under<'a>(&'a self, ranking: &'a Ranking) -> IndexRows<'a>
        requires { IsWellFormed ranking.now self.now }
        ensures order { result.order ≡ ranking.now }
        ensures rows { result.rows ≡ self.now }
    {
        IndexRows {
            ranking,
            compact: &self.compact,
            full: self.full.list(),
        }
    }

    /// The two parts of each row, the first being those of node 1. It takes no memory.
    pub fn into_parts(self) -> (Vec<Vec<CompactEntry>>, RowList)
        ensures rows { rows_of_parts (map (λ row. row.items) result.0.items) result.1 ≡ self }
        ensures size { vec_len result.0 ≡ length result.1 }
    {
        let SplitRows { compact, full } = self;
        (compact, full.into_list())
    }

    /// The rows in these parts, the first being those of node 1. It takes no memory.
    pub fn from_parts(compact: Vec<Vec<CompactEntry>>, full: RowList) -> SplitRows
        requires { vec_len compact ≡ length full }
        ensures { result ≡ rows_of_parts (map (λ row. row.items) compact.items) full }
    {
        SplitRows {
            compact,
            full: FullRows::of(full),
        }
    }

    /// The rows, each in just the room that it takes. Each goes as soon as its entries stand there. The only error is that
    /// memory ran out.
    pub fn into_rows(self, alloc: Global) -> Result<RowList, AllocError>
        ensures { IfOk result (λ rows. rows ≡ self) }
    {
        let SplitRows { compact, full } = self;
        let mut full = full.into_list().into_rows().into_iter();
        let mut rows = Vec::with_capacity(alloc, compact.len())?;
        for compact in compact {
            let Some(full) = full.next() else {
                unreachable!();
            };
            rows.push(joined_parts(alloc, &compact, &full)?)?;
        }
        Ok(RowList::from_rows(rows))
    }
}
