ghost use Rattle.std.specs.Prelude.{◌≡◌, ℕ, ◌^◌, ◌≤◌, [], All, length, IsTrue, OnOk};
ghost use Rattle.hub_index.specs.Reach.{IsBelow};
ghost use Rattle.index_file.specs.Parts.{Part, least_after, is_last, is_next_position, is_next_distance, is_next_via, no_entries, with_entry, with_via};

use std::alloc::{AllocError, Global};
use std::marker::Model;
use walk_laws::Entry;

/// 2^62: where all distances of an index are below it, two of them have a sum in 64 bits.
const NOT_SHORT: u128 = 4_611_686_018_427_387_904;

/// The entries of a row that isn't whole yet, and their vias where the index has such.
#[derive(Drop)]
pub struct PartRow {
    count: u32,
    /// The least position above those of the entries.
    least: u64,
    /// Whether all distances are below 2^62.
    is_short: bool,
    entries: Vec<Entry>,
    /// Empty where the index has none.
    vias: Vec<u32>,
}

impl Model for PartRow {
    ghost use Rattle.std.specs.Prelude.{◌≡◌, ◌^◌, All, IsTrue};
    ghost use Rattle.hub_index.specs.Reach.{IsBelow};
    ghost use Rattle.index_file.specs.Parts.{Part, least_after};

    ghost Value = { Part };

    ghost view = { λ p. record { count = p.count; entries = p.entries.items; vias = p.vias.items } };

    ghost invariant = { λ p. (p.least ≡ least_after p.entries.items) × (IsTrue p.is_short → All (IsBelow (2 ^ 62)) p.entries.items) };
}

impl PartRow {
    /// A row of which so many entries are to come.
    pub fn new(alloc: Global, count: u32) -> PartRow
        ensures { result ≡ no_entries count }
    {
        PartRow {
            count,
            least: 0,
            is_short: true,
            entries: Vec::new(alloc),
            vias: Vec::new(alloc),
        }
    }

    /// How many entries the row is to have.
    pub fn count(&self) -> u32
        ensures { result ≡ self.now.count }
    {
        self.count
    }

    /// How many it has.
    pub fn len(&self) -> usize
        ensures { result ≡ length self.now.entries }
    {
        self.entries.len()
    }

    /// Whether the next entry is the last one.
    pub fn is_last(&self) -> bool
        ensures { result ≡ is_last self.now }
    {
        self.entries.len() + 1 == self.count as usize
    }

    /// Whether the position may be the next one in the row of the node at the position `own`.
    pub fn is_next_position(&self, own: u32, pos: u32) -> bool
        ensures { result ≡ is_next_position own self.now pos }
    {
        if u64::from(pos) < self.least {
            return false;
        }
        if self.is_last() {
            pos == own
        } else {
            pos < own
        }
    }

    /// Whether the distance may be the next one.
    pub fn is_next_distance(&self, dist: u64) -> bool
        ensures { result ≡ is_next_distance self.now dist }
    {
        if self.is_last() { dist == 0 } else { dist >= 1 }
    }

    /// Whether the via may be the next one in the row of the node `v`, in an index of `n` nodes.
    pub fn is_next_via(&self, n: u32, v: u32, via: u32) -> bool
        ensures { result ≡ is_next_via n v self.now via }
    {
        if self.is_last() {
            via == 0
        } else {
            via >= 1 && via <= n && via != v
        }
    }

    /// Makes room for so many entries more.
    pub fn reserve(&mut self, more: usize) -> Result<(), AllocError>
        ensures { self.new ≡ self.old }
    {
        self.entries.reserve(more)
    }

    /// Makes room for so many vias more.
    pub fn reserve_vias(&mut self, more: usize) -> Result<(), AllocError>
        ensures { self.new ≡ self.old }
    {
        self.vias.reserve(more)
    }

    /// Puts the entry last; its position is above those before it.
    pub fn push(&mut self, entry: Entry) -> Result<(), AllocError>
        requires { least_after self.old.entries ≤ entry.pos }
        ensures ok { OnOk result (self.new ≡ with_entry self.old entry) }
    {
        let pos = entry.pos;
        let dist = entry.dist.get();
        self.entries.push(entry)?;
        self.least = u64::from(pos) + 1;
        self.is_short = self.is_short && dist < NOT_SHORT;
        Ok(())
    }

    /// Puts the via last.
    pub fn push_via(&mut self, via: u32) -> Result<(), AllocError>
        ensures ok { OnOk result (self.new ≡ with_via self.old via) }
    {
        self.vias.push(via)?;
        Ok(())
    }

    /// Whether all distances are below 2^62.
    pub fn is_short(&self) -> bool
        ensures { IsTrue result → All (IsBelow (2 ^ 62)) self.now.entries }
    {
        self.is_short
    }

    /// The entries, and their vias.
    pub fn into_parts(self) -> (Vec<Entry>, Vec<u32>)
        ensures entries { result.0.items ≡ self.entries }
        ensures vias { result.1.items ≡ self.vias }
    {
        (self.entries, self.vias)
    }
}
