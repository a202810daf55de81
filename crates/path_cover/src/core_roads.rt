use crate::road::{Road, key_of};
use crate::table::{count_of, number_at, part};
use std::alloc::{AllocError, Global};

/// A graph: the roads of each of its nodes, which are numbers from 0. Each road stands in the rows of both its ends.
#[derive(Drop)]
pub struct CoreRoads {
    roads: Vec<Road>,
    /// Where the roads of each node begin, and where the last ones end.
    starts: Vec<u32>,
}

impl CoreRoads {
    /// No nodes.
    pub fn new(alloc: Global) -> Result<CoreRoads, AllocError> {
        Ok(CoreRoads {
            roads: Vec::new(alloc),
            starts: vec![in alloc; 0u32]?,
        })
    }

    /// Puts these roads in the row of the next node, by rising length, and leaves none of them.
    pub fn push_row(&mut self, row: &mut Vec<Road>) -> Result<(), AllocError> {
        row.sort_unstable_by_key(|road| key_of(road.length, road.to));
        self.roads.extend_from_slice(row)?;
        row.clear();
        let end = count_of(&self.roads);
        self.starts.push(end)?;
        Ok(())
    }

    /// How many nodes there are.
    pub fn count(&self) -> u32 {
        count_of(&self.starts).saturating_sub(1)
    }

    /// The roads of a node.
    #[inline(always)]
    pub fn row(&self, node: u32) -> &[Road] {
        let start = number_at(&self.starts, node, 0);
        let end = number_at(&self.starts, node.saturating_add(1), 0);
        part(&self.roads, start, end)
    }
}
