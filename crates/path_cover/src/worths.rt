use crate::forest::Forest;
use crate::table::{count_of, number_at, part};
use std::alloc::{AllocError, Global};
use std::num::nearest_u64_to_f64;

/// What each node of a core is worth as the next one of a cover.
#[derive(Drop)]
pub struct Worths {
    /// The weight of the pairs whose ways pass each node.
    pairs: Vec<u64>,
    /// What it costs to take each node.
    labels: Vec<u64>,
}

impl Worths {
    /// For the nodes 0..count of a core, of which none is in a tree.
    pub fn none(alloc: Global, count: u32) -> Result<Worths, AllocError> {
        Ok(Worths {
            pairs: vec![in alloc; 0u64; count as usize]?,
            labels: vec![in alloc; 0u64; count as usize]?,
        })
    }

    /// What each of the nodes 0..count is worth in these trees.
    pub fn of(alloc: Global, forest: &Forest, count: u32) -> Result<Worths, AllocError> {
        let mut worths = Worths::none(alloc, count)?;
        let mut start = 0;
        for tree in 0..count_of(&forest.ends) {
            let end = number_at(&forest.ends, tree, 0);
            let root = number_at(&forest.roots, tree, 0);
            for spot in part(&forest.spots, start, end) {
                worths.count(spot.node, product(spot.weight, root), u64::from(root));
            }
            start = end;
        }
        Ok(worths)
    }

    /// Adds what the nodes are worth in other trees.
    pub fn add(&mut self, more: &Worths) {
        for k in 0..more.pairs.len().min(more.labels.len()) {
            self.count(
                u32::try_from(k).unwrap_or(u32::MAX),
                more.pairs[k],
                more.labels[k],
            );
        }
    }

    /// Adds to what a node is worth.
    #[inline(always)]
    fn count(&mut self, node: u32, pairs: u64, labels: u64) {
        let place = node as usize;
        if place < self.pairs.len() && place < self.labels.len() {
            self.pairs[place] = self.pairs[place].saturating_add(pairs);
            self.labels[place] = self.labels[place].saturating_add(labels);
        }
    }

    /// Pairs whose ways pass a node are covered.
    #[inline(always)]
    pub fn cover_pairs(&mut self, node: u32, weight: u64) {
        let place = node as usize;
        if place < self.pairs.len() {
            self.pairs[place] = self.pairs[place].saturating_sub(weight);
        }
    }

    /// A node needs no label in a tree any more.
    #[inline(always)]
    pub fn cover_label(&mut self, node: u32, root: u32) {
        let place = node as usize;
        if place < self.labels.len() {
            self.labels[place] = self.labels[place].saturating_sub(u64::from(root));
        }
    }

    /// The place of the best node of a list: of two that are as good the one with the lower number.
    pub fn best(&self, left: &[u32]) -> usize {
        let mut best = 0;
        let (mut pairs, mut labels, mut node) = (-1.0, 1.0, 0);
        for (k, other) in left.iter().enumerate() {
            let (others, cost) = self.worth(*other);
            let (ours, theirs) = (pairs * cost, others * labels);
            if theirs > ours || (theirs == ours && *other < node) {
                best = k;
                (pairs, labels, node) = (others, cost, *other);
            }
        }
        best
    }

    /// The weight of the pairs that a node covers, and what it costs, which is more than 0.
    #[inline(always)]
    fn worth(&self, node: u32) -> (f64, f64) {
        let place = node as usize;
        if place < self.pairs.len() && place < self.labels.len() {
            return (
                nearest_u64_to_f64(self.pairs[place]),
                nearest_u64_to_f64(self.labels[place].saturating_add(1)),
            );
        }
        (0.0, 1.0)
    }
}

/// The product of two weights.
#[inline(always)]
pub fn product(one: u32, other: u32) -> u64 {
    u64::from(one).saturating_mul(u64::from(other))
}
