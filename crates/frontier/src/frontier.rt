ghost use Rattle.std.specs.Prelude.{◌≡◌, ◌≢◌, ℕ, ◌+◌, ◌<◌, ◌≤◌, length, replicate, slice_set, IfOk, OnOk, OnErr, IfSome, IfNone};
ghost use Rattle.frontier.specs.Reaches.{reach_at, with_offer, settled};
ghost use Rattle.frontier.specs.Touched.{touched_with};
ghost use Rattle.frontier.specs.declared.reach.Found.{Found};
ghost use Rattle.frontier.specs.declared.reach.Reach.TheVariants.{Unreached, Queued};

use crate::carry::Carry;
use crate::heap_entries::HeapEntries;
use crate::places::Places;
use crate::reach::{Found, Reach};
use std::alloc::{AllocError, Global};
use std::marker::Model;

/// The nodes 0..n of a search, each with what it has come to with it. Contracts see the list of these.
#[derive(Debug, Drop)]
pub struct Frontier<C> {
    reaches: Places<C>,
    /// Each queued node has a heap entry at its distance; heap entries that a lower offer or a take left over may stand there, too.
    heap_entries: HeapEntries,
    /// The nodes that are reached.
    touched: Vec<u32>,
}

impl<C> Model for Frontier<C> {
    ghost use Rattle.std.specs.Prelude.{List};
    ghost use Rattle.frontier.specs.declared.reach.Reach.{Reach};
    ghost use Rattle.frontier.specs.HeapEntries.{HasHeapEntries};

    ghost Value = { List (Reach C) };

    ghost view = { λ f. f.reaches };

    ghost invariant = { λ f. HasHeapEntries f.reaches f.heap_entries f.touched.items };
}

impl<C: Carry> Frontier<C> {
    /// A frontier that has reached none of the nodes 0..n. The only error is that memory ran out.
    pub fn new(alloc: Global, n: u32) -> Result<Frontier<C>, AllocError>
        ensures { IfOk result (λ f. f ≡ replicate (n + 1) Unreached) }
    {
        Ok(Frontier {
            reaches: Places::new(alloc, n as usize + 1)?,
            heap_entries: HeapEntries::new(alloc),
            touched: Vec::new(alloc),
        })
    }

    /// How far the search has come with a node.
    pub fn reach(&self, node: u32) -> Reach<C>
        requires { node < length self.now }
        ensures { result ≡ reach_at self.now node }
    {
        self.reaches.get(node)
    }

    /// Offers a node a distance, and something to carry. A node that wasn't reached is queued with them; a queued node
    /// takes a shorter distance, and combines what is carried at an equal one; nothing else changes. The only error is
    /// that memory ran out, and then nothing has changed.
    pub fn offer(&mut self, node: u32, dist: u128, carried: C) -> Result<(), AllocError>
        requires { node < length self.old }
        ensures ok { OnOk result (self.new ≡ with_offer C.combined self.old node (record { dist = dist; carried = carried })) }
        ensures err { OnErr result (self.new ≡ self.old) }
    {
        self.offer_from(node, self.reach(node), dist, carried)?;
        Ok(())
    }

    /// The same [`offer`](Frontier::offer), by one who knows how far the search has come with the node. It answers how far
    /// the search has come with it then.
    #[inline(always)]
    pub fn offer_from(
        &mut self,
        node: u32,
        reach: Reach<C>,
        dist: u128,
        carried: C,
    ) -> Result<Reach<C>, AllocError>
        requires node { node < length self.old }
        requires reach { reach ≡ reach_at self.old node }
        ensures ok { OnOk result (self.new ≡ with_offer C.combined self.old node (record { dist = dist; carried = carried })) }
        ensures reach { IfOk result (λ after. after ≡ reach_at self.new node) }
        ensures err { OnErr result (self.new ≡ self.old) }
    {
        match reach {
            Reach::Settled(_) => Ok(reach),
            Reach::Queued(best) if best.dist < dist => Ok(Reach::Queued(best)),
            Reach::Queued(best) if best.dist == dist => {
                let carried = best.carried.combine(carried);
                let after = Reach::Queued(Found { dist, carried });
                self.reaches.queue(node, Found { dist, carried });
                Ok(after)
            }
            _ => self.queue(node, reach, Found { dist, carried }),
        }
    }

    /// Queues a node with what was found of it, and answers that. The only error is that memory ran out, and then nothing
    /// has changed.
    #[inline(always)]
    fn queue(&mut self, node: u32, reach: Reach<C>, found: Found<C>) -> Result<Reach<C>, AllocError>
        requires node { node < length self.old }
        requires reach { reach ≡ reach_at self.old node }
        ensures ok { OnOk result (self.new ≡ slice_set self.old node (Queued found)) }
        ensures queued { IfOk result (λ after. after ≡ Queued found) }
        ensures err { OnErr result (self.new ≡ self.old) }
    {
        touch(&mut self.touched, node, reach)?;
        self.heap_entries.push(node, found.dist)?;
        let after = Reach::Queued(found);
        self.reaches.queue(node, found);
        Ok(after)
    }

    /// Settles a queued node of least distance, and answers it with what was found of it; None where no node is queued.
    pub fn take(&mut self) -> Option<(u32, Found<C>)>
        ensures queued { IfSome result (λ t. reach_at self.old t.0 ≡ Queued t.1) }
        ensures nearest { IfSome result (λ t. (x : ℕ) (g : Found C) → reach_at self.old x ≡ Queued g → t.1.dist ≤ g.dist) }
        ensures settles { IfSome result (λ t. self.new ≡ settled self.old t.0 t.1) }
        ensures none { IfNone result ((x : ℕ) (g : Found C) → reach_at self.old x ≢ Queued g) }
        ensures unchanged { IfNone result (self.new ≡ self.old) }
    {
        while let Some(heap_entry) = self.heap_entries.pop() {
            let node = heap_entry.node;
            if let Reach::Queued(found) = self.reaches.get(node) {
                if found.dist == heap_entry.dist.0 {
                    self.reaches.settle(node, found);
                    return Some((node, found));
                }
            }
        }
        None
    }

    /// Forgets all offers, at the cost of the nodes that they reached.
    pub fn clear(&mut self)
        ensures { self.new ≡ replicate (length self.old) Unreached }
    {
        for node in self.touched.as_slice() {
            self.reaches.forget(*node);
        }
        self.touched.clear();
        self.heap_entries.clear();
    }
}

/// Adds a node to the touched ones, unless it was reached before. The only error is that memory ran out.
#[inline(always)]
fn touch<C: Copy>(touched: &mut Vec<u32>, node: u32, reach: Reach<C>) -> Result<(), AllocError>
    ensures ok { OnOk result (touched.new.items ≡ touched_with touched.old.items node reach) }
    ensures err { OnErr result (touched.new.items ≡ touched.old.items) }
{
    if let Reach::Unreached = reach {
        touched.push(node)?;
    }
    Ok(())
}
