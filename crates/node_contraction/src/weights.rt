use path_cover::Road;
use std::alloc::{AllocError, Global};

/// What a node weighs that stands for itself alone.
const ONE: u64 = 1_048_576;

/// The sum of the weights of all nodes, once they are scaled.
const WHOLE: u64 = 1_073_741_824;

/// How many nodes each node stands for: itself and a share of those that were contracted below it.
#[derive(Drop)]
pub struct Weights {
    weights: Vec<u64>,
}

impl Weights {
    /// The nodes 1..n, each of which stands for itself.
    pub fn new(alloc: Global, n: u32) -> Result<Weights, AllocError> {
        Ok(Weights {
            weights: vec![in alloc; ONE; n as usize + 1]?,
        })
    }

    /// A node that is contracted gives each of its neighbours a share of what it stands for.
    pub fn share(&mut self, node: u32, near: &[Road]) {
        if near.is_empty() {
            return;
        }
        let share = self.weight(node) / near.len() as u64;
        for road in near {
            let place = road.to as usize;
            if place < self.weights.len() {
                self.weights[place] = self.weights[place].saturating_add(share);
            }
        }
    }

    fn weight(&self, node: u32) -> u64 {
        match self.weights.get(node as usize) {
            Some(weight) => *weight,
            None => 0,
        }
    }

    /// The weight of a node of n, at least 1, if all nodes together weigh [`WHOLE`].
    pub fn scaled(&self, node: u32, n: u32) -> u32 {
        let scale = WHOLE / ONE;
        let weight = self.weight(node).saturating_mul(scale) / u64::from(n.max(1));
        u32::try_from(weight).unwrap_or(u32::MAX).max(1)
    }
}
