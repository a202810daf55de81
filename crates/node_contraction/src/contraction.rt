use crate::costs::{cost_of, first_keys};
use crate::roads::Roads;
use crate::weights::Weights;
use crate::witness::{Shortcut, Witnesses};
use path_cover::{Road, key_of, node_of, number_at, set_number};
use std::alloc::{AllocError, Global};
use std::cmp::Reverse;
use std::collections::BinaryHeap;
use std::thread::Threads;
use walk_laws::Graph;

/// A graph whose nodes are contracted, lowest rank first: a node is taken out, and shortcuts are put in so that all distances
/// between the others stay.
#[derive(Drop)]
pub struct Contraction {
    /// What is left of the graph.
    pub roads: Roads,
    /// How many nodes each node stands for.
    pub weights: Weights,
    /// The nodes that were contracted, in turn.
    pub contracted: Vec<u32>,
    witnesses: Witnesses,
    /// How many times nodes were contracted one beside the other below each node.
    levels: Vec<u32>,
    queue: BinaryHeap<Reverse<u64>>,
    /// The shortcuts that the node in hand needs.
    cuts: Vec<Shortcut>,
}

impl Contraction {
    /// A graph of which no node is contracted.
    pub fn new(alloc: Global, graph: &Graph) -> Result<Contraction, AllocError> {
        let n = graph.n();
        Ok(Contraction {
            roads: Roads::new(alloc, graph)?,
            weights: Weights::new(alloc, n)?,
            contracted: Vec::new(alloc),
            witnesses: Witnesses::new(alloc, n)?,
            levels: vec![in alloc; 0u32; n as usize + 1]?,
            queue: BinaryHeap::new(alloc),
            cuts: Vec::new(alloc),
        })
    }

    /// Contracts so many of the nodes 1..n, or as many as have few neighbours.
    pub fn contract<R: Threads + Sync>(
        &mut self,
        rt: &R,
        alloc: Global,
        n: u32,
        many: u32,
    ) -> Result<(), AllocError> {
        let keys = first_keys(rt, alloc, &self.roads, n)?;
        for key in keys.as_slice() {
            self.queue.push(Reverse(*key))?;
        }
        for _ in 0..many {
            let Some(node) = self.cheapest()? else {
                return Ok(());
            };
            self.take_out(node)?;
        }
        Ok(())
    }

    /// Takes the node out of the queue that costs least now, and leaves its shortcuts in hand. Costs that have risen since
    /// they were looked at are looked at again when their node comes up, each at most once.
    fn cheapest(&mut self) -> Result<Option<u32>, AllocError> {
        for _ in 0..u64::MAX {
            let Some(Reverse(key)) = self.queue.pop() else {
                return Ok(None);
            };
            let node = node_of(key);
            let Some(cost) = self.cost(node)? else {
                continue;
            };
            let now = key_of(cost, node);
            match self.queue.peek() {
                Some(Reverse(next)) if now > *next => self.queue.push(Reverse(now))?,
                _ => return Ok(Some(node)),
            }
        }
        Ok(None)
    }

    /// What it costs now to contract a node, whose shortcuts are then in hand. None where it has too many neighbours.
    fn cost(&mut self, node: u32) -> Result<Option<u32>, AllocError> {
        let level = number_at(&self.levels, node, 0);
        cost_of(
            &self.roads,
            node,
            level,
            &mut self.witnesses,
            &mut self.cuts,
        )
    }

    /// Contracts the node whose shortcuts are in hand.
    fn take_out(&mut self, node: u32) -> Result<(), AllocError> {
        let near = self.roads.take_out(node)?;
        let level = number_at(&self.levels, node, 0).saturating_add(1);
        self.weights.share(node, &near);
        for road in near.as_slice() {
            if number_at(&self.levels, road.to, u32::MAX) < level {
                set_number(&mut self.levels, road.to, level);
            }
        }
        for cut in self.cuts.as_slice() {
            self.roads.join(cut.one, cut.other, cut.length)?;
        }
        self.contracted.push(node)?;
        Ok(())
    }
}
