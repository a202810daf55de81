use crate::roads::Roads;
use path_cover::{FAR, Road, key_of, length_of, node_of};
use std::alloc::{AllocError, Global};
use std::cmp::Reverse;
use std::collections::BinaryHeap;

/// How many roads a search looks at.
const REACH: usize = 100;

/// A road that stands for the way from one neighbour of a node to another over that node.
#[derive(Clone, Copy, Debug)]
pub struct Shortcut {
    pub one: u32,
    pub other: u32,
    pub length: u32,
}

/// What a search knows of a node.
#[derive(Clone, Copy, Debug)]
struct Mark {
    /// The length of the shortest way to it that was found, or FAR.
    length: u32,
    /// How long a way to it may be that makes a shortcut needless; 0 where none is asked for.
    wanted: u32,
}

/// A search round a node, from a neighbour of it.
#[derive(Clone, Copy, Debug)]
struct Quest {
    /// The node that no way may pass.
    without: u32,
    /// The greatest length of a way to a node from which a road may still lead to a neighbour in time.
    limit: u32,
    /// How many neighbours need a shortcut yet.
    left: usize,
}

/// Searches of small reach for ways that make shortcuts needless. Marks are taken back where they were set, so that a search
/// costs what it touches.
#[derive(Drop)]
pub struct Witnesses {
    marks: Vec<Mark>,
    touched: Vec<u32>,
    queue: BinaryHeap<Reverse<u64>>,
    /// For each neighbour of the node in hand, how long the shortest road is that leads to it from elsewhere.
    last_roads: Vec<u32>,
}

impl Witnesses {
    /// For the nodes 1..n.
    pub fn new(alloc: Global, n: u32) -> Result<Witnesses, AllocError> {
        let blank = Mark {
            length: FAR,
            wanted: 0,
        };
        let mut marks = Vec::with_capacity(alloc, n as usize + 1)?;
        for _ in 0..n as usize + 1 {
            marks.push(blank)?;
        }
        Ok(Witnesses {
            marks,
            touched: Vec::new(alloc),
            queue: BinaryHeap::new(alloc),
            last_roads: Vec::new(alloc),
        })
    }

    /// The shortcuts that the node needs when it is taken out: for each two of its neighbours the way over it, unless a
    /// search of small reach finds another one that is no longer.
    pub fn shortcuts(
        &mut self,
        roads: &Roads,
        node: u32,
        cuts: &mut Vec<Shortcut>,
    ) -> Result<(), AllocError> {
        cuts.clear();
        let near = roads.row(node);
        self.last_roads.clear();
        for road in near {
            self.last_roads
                .push(shortest_from_elsewhere(roads.row(road.to), node))?;
        }
        for k in 0..near.len() {
            self.shortcuts_from(roads, node, near[k], &near[k + 1..], cuts)?;
        }
        Ok(())
    }

    /// Those from the neighbour at the end of one road to the neighbours at the ends of the others.
    fn shortcuts_from(
        &mut self,
        roads: &Roads,
        node: u32,
        first: Road,
        others: &[Road],
        cuts: &mut Vec<Shortcut>,
    ) -> Result<(), AllocError> {
        if others.is_empty() {
            return Ok(());
        }
        let limit = self.want(first, others);
        let quest = Quest {
            without: node,
            limit,
            left: others.len(),
        };
        self.search(roads, first.to, quest)?;
        self.gather(first.to, others, cuts)?;
        self.forget();
        Ok(())
    }

    /// Notes for each of the others, which are the last of the neighbours, how long the way over the node is. It answers how
    /// long a way to a node may be from which a road still leads to one of them in time.
    fn want(&mut self, first: Road, others: &[Road]) -> u32 {
        let mut limit = 0;
        let skipped = self.last_roads.len().saturating_sub(others.len());
        for (k, road) in others.iter().enumerate() {
            let length = first.length.saturating_add(road.length);
            let last = match self.last_roads.get(skipped.saturating_add(k)) {
                Some(last) => *last,
                None => 0,
            };
            limit = length.saturating_sub(last).max(limit);
            let place = road.to as usize;
            if place < self.marks.len() {
                self.marks[place].wanted = length;
            }
        }
        limit
    }

    /// Searches from a node until the quest is met, its reach ends or nothing is left.
    fn search(&mut self, roads: &Roads, from: u32, mut quest: Quest) -> Result<(), AllocError> {
        self.reach(from, 0, FAR)?;
        let mut looked = 0usize;
        for _ in 0..REACH * REACH {
            let Some(Reverse(key)) = self.queue.pop() else {
                return Ok(());
            };
            let (length, node) = (length_of(key), node_of(key));
            if length > self.length(node) {
                continue;
            }
            let row = roads.row(node);
            looked = looked.saturating_add(row.len());
            if looked > REACH {
                return Ok(());
            }
            quest.left = self.pass(row, length, quest)?;
            if quest.left == 0 {
                return Ok(());
            }
        }
        Ok(())
    }

    /// Goes along the roads of a node that is so far away, and answers how many neighbours need a shortcut yet.
    #[inline(always)]
    fn pass(&mut self, row: &[Road], length: u32, quest: Quest) -> Result<usize, AllocError> {
        let mut left = quest.left;
        for road in row {
            let length = length.saturating_add(road.length);
            if road.to != quest.without && self.reach(road.to, length, quest.limit)? {
                left = left.saturating_sub(1);
            }
        }
        Ok(left)
    }

    /// The length of the shortest way to a node that was found; 0 for what is no node.
    #[inline(always)]
    fn length(&self, node: u32) -> u32 {
        match self.marks.get(node as usize) {
            Some(mark) => mark.length,
            None => 0,
        }
    }

    /// A way to a node was found, which is noted where it is a shorter one that helps. It answers whether the node was wanted
    /// at that length.
    #[inline(always)]
    fn reach(&mut self, node: u32, length: u32, limit: u32) -> Result<bool, AllocError> {
        let place = node as usize;
        if place >= self.marks.len() {
            return Ok(false);
        }
        let mark = self.marks[place];
        let met = length <= mark.wanted;
        if length >= mark.length || (length > limit && !met) {
            return Ok(false);
        }
        if mark.length == FAR {
            self.touched.push(node)?;
        }
        if length <= limit {
            self.queue.push(Reverse(key_of(length, node)))?;
        }
        let wanted = if met { 0 } else { mark.wanted };
        self.marks[place] = Mark { length, wanted };
        Ok(met)
    }

    /// Puts a shortcut for each neighbour that is wanted yet, and wants none any more.
    fn gather(
        &mut self,
        one: u32,
        others: &[Road],
        cuts: &mut Vec<Shortcut>,
    ) -> Result<(), AllocError> {
        for road in others {
            let place = road.to as usize;
            if place < self.marks.len() && self.marks[place].wanted > 0 {
                cuts.push(Shortcut {
                    one,
                    other: road.to,
                    length: self.marks[place].wanted,
                })?;
                self.marks[place].wanted = 0;
            }
        }
        Ok(())
    }

    /// Takes all marks back.
    fn forget(&mut self) {
        for node in self.touched.as_slice() {
            let place = *node as usize;
            if place < self.marks.len() {
                self.marks[place].length = FAR;
            }
        }
        self.touched.clear();
        self.queue.clear();
    }
}

/// The length of the shortest road to a node that does not come from the given neighbour, by the node's row; 1 where the row
/// is long, and FAR where there is none.
fn shortest_from_elsewhere(row: &[Road], neighbour: u32) -> u32 {
    if row.len() > REACH {
        return 1;
    }
    let mut least = FAR;
    for road in row {
        if road.to != neighbour {
            least = least.min(road.length);
        }
    }
    least
}
