ghost use Rattle.std.specs.Prelude.{◌≡◌, ℕ, ◌+◌, ◌/◌, ◌≤◌, [], ◌++◌, length, IfOk, OnErr, OnOk};
ghost use Rattle.hub_index.specs.NodeEntries.{entry_if};
ghost use Rattle.entry_sinks.specs.Sunk.{sunk_at, range_width as width_of};

use crate::range_entries::RangeEntries;
use std::alloc::{AllocError, Global};
use std::marker::Model;
use walk_laws::Entry;

/// Entries of the rows of the nodes 1..n, as one worker puts them. They lie by ranges of nodes, so that many cores can
/// make rows of them. Contracts see the number of nodes and the entries of each range.
#[derive(Debug, Drop)]
pub struct EntrySink {
    n: u32,
    ranges: Vec<RangeEntries>,
}

impl Model for EntrySink {
    ghost use Rattle.std.specs.Prelude.{◌≡◌, length, ◌+◌, ◌/◌};
    ghost use Rattle.entry_sinks.specs.Sunk.{Sunk, range_width};

    ghost Value = { Sunk };

    ghost view = { λ s. record { n = s.n; ranges = s.ranges.items } };

    ghost invariant = { λ s. length s.ranges.items ≡ s.n / range_width s.n + 1 };
}

/// How many nodes a range has: a 64th of them, and some more, so that small graphs have few ranges.
pub fn range_width(n: u32) -> u32
    ensures value { result ≡ width_of n }
{
    n / 64 + 64
}

impl EntrySink {
    /// A sink without entries. The only error is that memory ran out.
    pub fn new(alloc: Global, n: u32) -> Result<EntrySink, AllocError>
        ensures n { IfOk result (λ sink. sink.n ≡ n) }
        ensures empty { IfOk result (λ sink. (v : ℕ) → sunk_at sink v ≡ []) }
    {
        let count = n / range_width(n) + 1;
        let mut ranges = Vec::with_capacity(alloc, count as usize)?;
        for _ in 0..count {
            ranges.push(RangeEntries::new(alloc))?;
        }
        Ok(EntrySink { n, ranges })
    }

    /// Puts an entry of the row of a node, a number from 1. The only error is that memory ran out, and then nothing has
    /// changed.
    pub fn push(&mut self, node: u32, entry: Entry) -> Result<(), AllocError>
        requires node { 1 ≤ node }
        requires within { node ≤ self.old.n }
        ensures n { self.new.n ≡ self.old.n }
        ensures put { OnOk result ((v : ℕ) → sunk_at self.new v ≡ sunk_at self.old v ++ entry_if node v entry) }
        ensures err { OnErr result (self.new ≡ self.old) }
    {
        let range = (node - 1) / range_width(self.n);
        self.ranges[range as usize].push(node, entry)?;
        Ok(())
    }

    /// The entries of the nodes in each range, in the order of the ranges. It takes no memory.
    pub fn into_ranges(self) -> Vec<RangeEntries>
        ensures size { length result.items ≡ self.n / width_of self.n + 1 }
        ensures ranges { result.items ≡ self.ranges }
    {
        self.ranges
    }
}
