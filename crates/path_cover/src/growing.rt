ghost use Rattle.std.specs.Prelude.{◌≡◌, length};

use crate::core_roads::CoreRoads;
use crate::road::{FAR, key_of, length_of, node_of};
use crate::table::{number_at, set_number};
use std::alloc::{AllocError, Global};
use std::cmp::Reverse;
use std::collections::BinaryHeap;

/// No length to a hub is greater, so that two of them fit.
const FARTHEST: u32 = 2_147_483_647;

/// How far each node of a core is from each of some hubs: a list of lengths for each hub.
#[derive(Drop)]
pub struct HubLengths {
    columns: Vec<Vec<u32>>,
}

impl HubLengths {
    /// No hubs.
    pub fn none(alloc: Global) -> HubLengths {
        HubLengths {
            columns: Vec::new(alloc),
        }
    }

    /// The lengths from these hubs.
    pub fn of(alloc: Global, core: &CoreRoads, hubs: &[u32]) -> Result<HubLengths, AllocError> {
        let none = HubLengths::none(alloc);
        let mut growing = Growing::new(alloc, core.count())?;
        let mut columns = Vec::with_capacity(alloc, hubs.len())?;
        for hub in hubs {
            growing.grow(core, *hub, &none)?;
            let mut column = Vec::with_capacity(alloc, growing.lengths.len())?;
            for length in growing.lengths.as_slice() {
                column.push((*length).min(FARTHEST))?;
            }
            columns.push(column)?;
        }
        Ok(HubLengths { columns })
    }

    /// Writes how far each node is from a root by a hub, FAR where there is no hub, and answers the greatest of these lengths.
    fn write_ways(&self, root: u32, lengths: &mut [u32]) -> u32 {
        lengths.fill(FAR);
        for column in self.columns.as_slice() {
            lower_by(number_at(column, root, FARTHEST), column, lengths);
        }
        let mut greatest = 0;
        for length in lengths {
            greatest = (*length).max(greatest);
        }
        greatest
    }
}

/// Lowers each length to that of the way by a hub, which is so far from the root, and so far from each node.
fn lower_by(from_root: u32, from_hub: &[u32], lengths: &mut [u32])
    ensures { length lengths.new ≡ length lengths.old }
{
    for k in 0..lengths.len().min(from_hub.len()) {
        lengths[k] = lengths[k].min(from_root.wrapping_add(from_hub[k]));
    }
}

/// A shortest-path tree that grows in a core. It has no node that is as near by a hub, and none behind such a one.
#[derive(Drop)]
pub struct Growing {
    /// How far each node is from the root; no more than by a hub.
    pub lengths: Vec<u32>,
    /// The node before each node of the tree.
    pub parents: Vec<u32>,
    /// The nodes of the tree, by rising length: the root first.
    pub nodes: Vec<u32>,
    queue: BinaryHeap<Reverse<u64>>,
}

impl Growing {
    /// For the nodes 0..count of a core.
    pub fn new(alloc: Global, count: u32) -> Result<Growing, AllocError> {
        Ok(Growing {
            lengths: vec![in alloc; FAR; count as usize]?,
            parents: vec![in alloc; 0u32; count as usize]?,
            nodes: Vec::with_capacity(alloc, count as usize)?,
            queue: BinaryHeap::new(alloc),
        })
    }

    /// Grows the tree of a root.
    pub fn grow(
        &mut self,
        core: &CoreRoads,
        root: u32,
        hubs: &HubLengths,
    ) -> Result<(), AllocError> {
        let limit = hubs.write_ways(root, &mut self.lengths);
        self.nodes.clear();
        self.queue.clear();
        set_number(&mut self.lengths, root, 0);
        self.queue.push(Reverse(key_of(0, root)))?;
        for _ in 0..u64::MAX {
            let Some(Reverse(key)) = self.queue.pop() else {
                return Ok(());
            };
            let (length, node) = (length_of(key), node_of(key));
            if length <= number_at(&self.lengths, node, 0) {
                self.nodes.push(node)?;
                self.pass(core, node, length, limit)?;
            }
        }
        Ok(())
    }

    /// Goes along the roads of a node that is so far from the root. No node is nearer to the root than by a hub from the limit
    /// on, and the roads stand by rising length.
    #[inline(always)]
    fn pass(
        &mut self,
        core: &CoreRoads,
        node: u32,
        length: u32,
        limit: u32,
    ) -> Result<(), AllocError> {
        for road in core.row(node) {
            let length = length.saturating_add(road.length);
            if length >= limit {
                return Ok(());
            }
            if length < number_at(&self.lengths, road.to, 0) {
                set_number(&mut self.lengths, road.to, length);
                set_number(&mut self.parents, road.to, node);
                self.queue.push(Reverse(key_of(length, road.to)))?;
            }
        }
        Ok(())
    }
}
