use crate::core_roads::CoreRoads;
use crate::forest::Forest;
use crate::grove::Grove;
use crate::growing::HubLengths;
use crate::thinning::thinned;
use crate::worths::Worths;
use std::alloc::{AllocError, Global};
use std::thread::{self, Threads};

/// A core of more nodes has its first ones found on a sample of its trees.
const SMALL: u32 = 300;

/// A sample has no fewer trees.
const FEWEST: u32 = 100;

/// In so many parts the trees grow, side by side.
const PARTS: usize = 8;

/// The nodes 0.. of a core, highest rank first: a greedy cover of the shortest paths, each of the weight of its two ends. The
/// next node is the one that covers most pairs for each label that it costs.
pub fn cover_order<R: Threads + Sync>(
    rt: &R,
    alloc: Global,
    core: &CoreRoads,
    weights: &[u32],
) -> Result<Vec<u32>, AllocError> {
    let thin = thinned(alloc, core)?;
    let count = thin.count();
    let mut left: Vec<u32> = (0..count).collect(alloc)?;
    let mut order = Vec::with_capacity(alloc, count as usize)?;
    let mut hubs = HubLengths::none(alloc);
    if count > SMALL {
        let roots = sample(alloc, count)?;
        let mut cover = Cover::new(rt, alloc, &thin, weights, &roots, &hubs)?;
        cover.pick(8 + count / 200, &mut left, &mut order)?;
        hubs = HubLengths::of(alloc, &thin, &order)?;
    }
    let mut cover = Cover::new(rt, alloc, &thin, weights, &left, &hubs)?;
    cover.pick(count, &mut left, &mut order)?;
    Ok(order)
}

/// Some nodes of 0..count, spread evenly.
fn sample(alloc: Global, count: u32) -> Result<Vec<u32>, AllocError> {
    let many = u64::from((count / 8).max(FEWEST));
    let mut roots = Vec::with_capacity(alloc, many as usize)?;
    for k in 0..many {
        let root = k.saturating_mul(u64::from(count)) / many;
        roots.push(u32::try_from(root).unwrap_or(0))?;
    }
    Ok(roots)
}

/// What is not covered yet of the ways in some trees.
#[derive(Drop)]
struct Cover {
    groves: Vec<Grove>,
    /// What each node is worth in all trees.
    worths: Worths,
}

impl Cover {
    /// The trees of these roots, without what is as near by a hub, in which nothing is covered.
    fn new<R: Threads + Sync>(
        rt: &R,
        alloc: Global,
        core: &CoreRoads,
        weights: &[u32],
        roots: &[u32],
        hubs: &HubLengths,
    ) -> Result<Cover, AllocError> {
        let parts = thread::map_indices(
            rt,
            alloc,
            PARTS,
            &|part: usize| -> Result<(Grove, Worths), AllocError> {
                grown(alloc, core, weights, roots, part, hubs)
            },
        )?;
        let mut cover = Cover {
            groves: Vec::new(alloc),
            worths: Worths::none(alloc, core.count())?,
        };
        for part in parts {
            let (grove, worths) = part?;
            cover.worths.add(&worths);
            cover.groves.push(grove)?;
        }
        Ok(cover)
    }

    /// Takes up to so many nodes from those left to the end of the order, the best one each time.
    fn pick(
        &mut self,
        many: u32,
        left: &mut Vec<u32>,
        order: &mut Vec<u32>,
    ) -> Result<(), AllocError> {
        for _ in 0..many {
            let best = self.worths.best(left);
            if best >= left.len() {
                return Ok(());
            }
            let node = left.swap_remove(best);
            order.push(node)?;
            for k in 0..self.groves.len() {
                self.groves[k].take(node, &mut self.worths);
            }
        }
        Ok(())
    }
}

/// The trees of a part of these roots, and what the nodes are worth in them.
fn grown(
    alloc: Global,
    core: &CoreRoads,
    weights: &[u32],
    roots: &[u32],
    part: usize,
    hubs: &HubLengths,
) -> Result<(Grove, Worths), AllocError> {
    let roots = roots_of_part(alloc, roots, part)?;
    let forest = Forest::new(alloc, core, weights, &roots, hubs)?;
    let worths = Worths::of(alloc, &forest, core.count())?;
    Ok((Grove::new(alloc, forest, core.count())?, worths))
}

/// The roots of a part. They stand [`PARTS`] apart, so that all parts have like trees.
fn roots_of_part(alloc: Global, roots: &[u32], part: usize) -> Result<Vec<u32>, AllocError> {
    let mut some = Vec::new(alloc);
    for (k, root) in roots.iter().enumerate() {
        if k % PARTS == part {
            some.push(*root)?;
        }
    }
    Ok(some)
}
