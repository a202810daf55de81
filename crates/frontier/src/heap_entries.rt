ghost use Rattle.std.specs.Prelude.{◌≡◌, [], IfSome, IfNone, OnOk, OnErr};
ghost use Rattle.frontier.specs.HeapEntryOf.{heap_entry_of, heap_entry_at, key_of};
ghost use Rattle.frontier.specs.HeapEntryLists.{Gains, Loses};

use crate::heap_entry::HeapEntry;
use std::alloc::{AllocError, Global};
use std::cmp::Reverse;
use std::collections::BinaryHeap;
use std::marker::Model;

/// The distances from here on are far.
const FAR: u64 = 4_294_967_296;

/// The heap entries of nodes to be taken. Nearly all distances are below 2^32: the heap entries there are numbers, the distance before the
/// node, which a heap compares and moves as one word. Farther ones stand in a heap of their own. Contracts see the list of
/// all heap entries.
#[derive(Debug, Drop)]
pub struct HeapEntries {
    short: BinaryHeap<Reverse<u64>>,
    far: BinaryHeap<HeapEntry>,
}

impl Model for HeapEntries {
    ghost use Rattle.std.specs.Prelude.{List};
    ghost use Rattle.frontier.specs.declared.heap_entry.HeapEntry.{HeapEntry};
    ghost use Rattle.frontier.specs.HeapEntryLists.{heap_entries_of, AreApart};
    ghost use Rattle.std.specs.BinaryHeap.{heap_items};

    ghost Value = { List HeapEntry };

    ghost view = { λ t. heap_entries_of (heap_items t.short) (heap_items t.far) };

    ghost invariant = { λ t. AreApart (heap_items t.short) (heap_items t.far) };
}

impl HeapEntries {
    /// No heap entries. It takes no memory.
    pub fn new(alloc: Global) -> HeapEntries
        ensures { result ≡ [] }
    {
        HeapEntries {
            short: BinaryHeap::new(alloc),
            far: BinaryHeap::new(alloc),
        }
    }

    /// Adds the heap entry of a node at a distance. The only error is that memory ran out, and then nothing has changed.
    #[inline(always)]
    pub fn push(&mut self, node: u32, dist: u128) -> Result<(), AllocError>
        ensures ok { OnOk result (Gains self.old self.new (heap_entry_of node dist)) }
        ensures err { OnErr result (self.new ≡ self.old) }
    {
        if dist < FAR as u128 {
            self.short.push(Reverse(dist as u64 * FAR + node as u64))?;
        } else {
            self.far.push(HeapEntry::of(node, dist))?;
        }
        Ok(())
    }

    /// Takes out a nearest heap entry; None where there is none.
    #[inline(always)]
    pub fn pop(&mut self) -> Option<HeapEntry>
        ensures heap_entry { IfSome result (Loses self.old self.new) }
        ensures none { IfNone result (self.old ≡ []) }
        ensures unchanged { IfNone result (self.new ≡ self.old) }
    {
        if let Some(key) = self.short.pop() {
            return Some(HeapEntry::of((key.0 % FAR) as u32, (key.0 / FAR) as u128));
        }
        let heap_entry = self.far.pop()?;
        Some(heap_entry)
    }

    /// Forgets all heap entries.
    pub fn clear(&mut self)
        ensures { self.new ≡ [] }
    {
        self.short.clear();
        self.far.clear();
    }
}
