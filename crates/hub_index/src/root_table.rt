ghost use Rattle.std.specs.Prelude.{◌≡◌, ◌↔◌, ℕ, ◌-◌, ◌^◌, ◌<◌, ◌≤◌, min, Option, Some, None, All, length, replicate, take, slice_get, IfOk, IfSome, IfNone, IsTrue};
ghost use Rattle.hub_index.specs.CompactRows.{widened};
ghost use Rattle.hub_index.specs.RootDistances.{root_distance, noted, with_noted, IsCover, HoldsRow};

use crate::compact_row::CompactEntry;
use std::alloc::{AllocError, Global};
use std::marker::Model;
use walk_laws::{Dist, Entry};

/// The hubs of one root: for each position, from 0, a distance or none. Contracts see the list of these.
#[derive(Debug, Drop)]
pub struct RootTable {
    dists: Vec<Option<Dist>>,
    /// The same in a quarter of the room, for the test of a cover: u32::MAX stands for none, for itself, and for all that is
    /// greater.
    clamped: Vec<u32>,
    /// The positions that have a distance are the first `count` of these.
    touched: Vec<u32>,
    count: usize,
}

impl Model for RootTable {
    ghost use Rattle.std.specs.Prelude.{◌≡◌, ℕ, ◌^◌, ◌<◌, List, Option, length, map};
    ghost use Rattle.hub_index.specs.Touched.{HasTouched, clamped_of};

    ghost Value = { List (Option ℕ) };

    ghost view = { λ t. t.dists.items };

    ghost invariant = { λ t. HasTouched t.dists.items t.touched.items t.count × (t.clamped.items ≡ map clamped_of t.dists.items) };
}

impl RootTable {
    /// A table for the positions 0..n, none of which has a distance. The only error is that memory ran out.
    pub fn new(alloc: Global, n: u32) -> Result<RootTable, AllocError>
        ensures { IfOk result (λ table. table ≡ replicate n None) }
    {
        Ok(RootTable {
            dists: vec![in alloc; None; n as usize]?,
            clamped: vec![in alloc; u32::MAX; n as usize]?,
            touched: vec![in alloc; 0u32; n as usize]?,
            count: 0,
        })
    }

    /// How many positions there are.
    pub fn n(&self) -> usize
        ensures { result ≡ length self.now }
    {
        self.dists.len()
    }

    /// The distance at the position `pos`.
    pub fn get(&self, pos: u32) -> Option<u128>
        requires { pos < length self.now }
        ensures { result ≡ root_distance self.now pos }
    {
        match self.dists[pos as usize] {
            Some(dist) => Some(dist.get()),
            None => None,
        }
    }

    /// Forgets all distances, at the cost of the positions that have one.
    pub fn clear(&mut self)
        ensures { self.new ≡ replicate (length self.old) None }
    {
        while self.count > 0 {
            let last = self.count - 1;
            let pos = self.touched[last];
            self.dists[pos as usize] = None;
            self.clamped[pos as usize] = u32::MAX;
            self.count = last;
        }
    }

    /// Notes an entry of the root's row: its position then has the lesser of the old and the new distance. It takes no
    /// memory.
    pub fn note(&mut self, entry: Entry)
        requires { entry.pos < length self.old }
        ensures { self.new ≡ with_noted self.old entry }
    {
        let place = entry.pos as usize;
        match self.dists[place] {
            None => {
                self.touched[self.count] = entry.pos;
                self.count += 1;
                self.dists[place] = Some(entry.dist);
                self.clamped[place] = clamped(entry.dist);
            }
            Some(known) => {
                let least = lesser_of(known, entry.dist);
                self.dists[place] = Some(least);
                self.clamped[place] = clamped(least);
            }
        }
    }

    /// Notes the entries of a row, one after another. It takes no memory.
    pub fn note_row(&mut self, row: &[Entry])
        requires { All (λ e. e.pos < length self.old) row.now }
        ensures { self.new ≡ noted self.old row.now }
    {
        for entry in row {
            self.note(*entry);
        }
    }

    /// Forgets what it had, and notes the entries of the row: it then has the least distance of each of their positions, and
    /// nothing else. It costs what it had and the row, and takes no memory.
    pub fn load(&mut self, row: &[Entry])
        requires { All (λ e. e.pos < length self.old) row.now }
        ensures held { HoldsRow self.new row.now }
        ensures size { length self.new ≡ length self.old }
    {
        self.clear();
        self.note_row(row);
    }

    /// Whether the entry covers one at the position `pos` with the distance `dist`. One comparison refuses almost all
    /// entries, and no branch has to be guessed: no distance counts there as 2^32 - 1, and so does a greater one.
    pub fn covers(&self, entry: Entry, pos: u32, dist: u128) -> bool
        requires { pos ≤ length self.now }
        ensures { IsTrue result ↔ IsCover self.now pos dist entry }
    {
        if entry.pos >= pos {
            return false;
        }
        let place = entry.pos as usize;
        if u128::from(self.clamped[place]) + entry.dist.get() > dist {
            return false;
        }
        match self.dists[place] {
            Some(root) => root.get() + entry.dist.get() <= dist,
            None => false,
        }
    }

    /// The same for an entry in half the room. The first comparison is in words: there `limit` stands for the distance, since
    /// no sum is as great as 2^64 - 1.
    pub(crate) fn covers_compact(
        &self,
        entry: CompactEntry,
        pos: u32,
        dist: u128,
        limit: u64,
    ) -> bool
        requires pos { pos ≤ length self.now }
        requires limit { limit ≡ min dist (2 ^ 64 - 1) }
        ensures { IsTrue result ↔ IsCover self.now pos dist (widened entry) }
    {
        if entry.pos >= pos {
            return false;
        }
        let place = entry.pos as usize;
        if u64::from(self.clamped[place]) + u64::from(entry.dist) > limit {
            return false;
        }
        match self.dists[place] {
            Some(root) => root.get() + u128::from(entry.dist) <= dist,
            None => false,
        }
    }
}

/// The distance as the test of a cover reads it first, which is never greater.
fn clamped(dist: Dist) -> u32
    ensures { result ≡ min dist (2 ^ 32 - 1) }
{
    dist.to_u32().unwrap_or(u32::MAX)
}

/// The lesser of two distances.
fn lesser_of(known: Dist, other: Dist) -> Dist
    ensures { result ≡ min known other }
{
    if other.get() < known.get() {
        return other;
    }
    known
}

/// The first entry of a row that covers one at the position `pos` with the distance `dist`: its hub ranks above the hub at
/// `pos`, and its distance together with that of the root in the table is at most `dist`. None where no entry does. It
/// goes along the row once, and takes no memory. (Pruned landmark labelling, SIGMOD 2013.)
pub fn covered(row: &[Entry], table: &RootTable, pos: u32, dist: u128) -> Option<Entry>
    requires { pos ≤ length table.now }
    ensures first { IfSome result (λ e. (k : ℕ) × (slice_get row.now k ≡ Some e) × IsCover table.now pos dist e
        × All (λ f. ¬ IsCover table.now pos dist f) (take k row.now)) }
    ensures none { IfNone result (All (λ e. ¬ IsCover table.now pos dist e) row.now) }
{
    for entry in row {
        if table.covers(*entry, pos, dist) {
            return Some(*entry);
        }
    }
    None
}
