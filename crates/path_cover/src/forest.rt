use crate::core_roads::CoreRoads;
use crate::growing::{Growing, HubLengths};
use crate::table::{count_of, number_at};
use std::alloc::{AllocError, Global};

/// What stands in place of the spot above a root.
pub const NO_SPOT: u32 = u32::MAX;

/// A node in a tree. The spots of a tree stand in preorder: below a spot hang those after it up to its end.
#[derive(Clone, Copy, Debug)]
pub struct Spot {
    pub node: u32,
    /// The spot that it hangs from.
    pub up: u32,
    pub end: u32,
    /// What the nodes weigh that hang from it and itself, or 0 where the ways to them are covered.
    pub weight: u32,
}

const NO_NODE: Spot = Spot {
    node: 0,
    up: NO_SPOT,
    end: 0,
    weight: 0,
};

/// The shortest-path trees of some nodes of a core, one behind the other in one list of spots.
#[derive(Drop)]
pub struct Forest {
    pub spots: Vec<Spot>,
    /// Where each tree ends.
    pub ends: Vec<u32>,
    /// What the root of each tree weighs.
    pub roots: Vec<u32>,
}

impl Forest {
    /// The trees of these roots, without what is as near by a hub. `weights` says what each node weighs.
    pub fn new(
        alloc: Global,
        core: &CoreRoads,
        weights: &[u32],
        roots: &[u32],
        hubs: &HubLengths,
    ) -> Result<Forest, AllocError> {
        let mut growing = Growing::new(alloc, core.count())?;
        let mut planner = Planner::new(alloc, core.count())?;
        let mut forest = Forest {
            spots: Vec::new(alloc),
            ends: Vec::with_capacity(alloc, roots.len())?,
            roots: Vec::with_capacity(alloc, roots.len())?,
        };
        for root in roots {
            growing.grow(core, *root, hubs)?;
            planner.plan(&growing, weights);
            forest.plant(&growing, &mut planner)?;
            forest.roots.push(number_at(weights, *root, 1))?;
        }
        Ok(forest)
    }

    /// Puts a tree behind the others.
    fn plant(&mut self, growing: &Growing, planner: &mut Planner) -> Result<(), AllocError> {
        let first = count_of(&self.spots);
        let spots = self.spots.len().saturating_add(growing.nodes.len());
        self.spots.resize(spots, NO_NODE)?;
        for (k, node) in growing.nodes.iter().enumerate() {
            let parent = number_at(&growing.parents, *node, 0);
            let (place, spot) = planner.place(*node, parent, k == 0, first);
            if (place as usize) < self.spots.len() {
                self.spots[place as usize] = spot;
            }
        }
        let end = count_of(&self.spots);
        self.ends.push(end)?;
        Ok(())
    }
}

/// Where a node of a tree stands in preorder.
#[derive(Clone, Copy, Debug)]
struct Plan {
    /// How many nodes hang from it and itself.
    count: u32,
    /// What these weigh.
    weight: u32,
    /// Its spot.
    place: u32,
    /// The next spot for a node that hangs from it.
    free: u32,
}

const NO_PLAN: Plan = Plan {
    count: 0,
    weight: 0,
    place: 0,
    free: 0,
};

/// Where the nodes of a tree stand in preorder.
#[derive(Drop)]
struct Planner {
    plans: Vec<Plan>,
}

impl Planner {
    fn new(alloc: Global, count: u32) -> Result<Planner, AllocError> {
        let mut plans = Vec::with_capacity(alloc, count as usize)?;
        for _ in 0..count {
            plans.push(NO_PLAN)?;
        }
        Ok(Planner { plans })
    }

    #[inline(always)]
    fn get(&self, node: u32) -> Plan {
        match self.plans.get(node as usize) {
            Some(plan) => *plan,
            None => NO_PLAN,
        }
    }

    #[inline(always)]
    fn set(&mut self, node: u32, plan: Plan) {
        if (node as usize) < self.plans.len() {
            self.plans[node as usize] = plan;
        }
    }

    /// Counts and weighs what hangs from each node of a tree.
    fn plan(&mut self, growing: &Growing, weights: &[u32]) {
        for node in growing.nodes.as_slice() {
            let weight = number_at(weights, *node, 1);
            let plan = Plan {
                count: 1,
                weight,
                place: 0,
                free: 0,
            };
            self.set(*node, plan);
        }
        for k in 1..growing.nodes.len() {
            let node = growing.nodes[growing.nodes.len() - k];
            let parent = number_at(&growing.parents, node, 0);
            self.hang(parent, self.get(node));
        }
    }

    /// Counts and weighs with a node what hangs from one of those that hang from it.
    #[inline(always)]
    fn hang(&mut self, parent: u32, child: Plan) {
        let mut plan = self.get(parent);
        plan.count = plan.count.saturating_add(child.count);
        plan.weight = plan.weight.saturating_add(child.weight);
        self.set(parent, plan);
    }

    /// The place of a node's spot, and the spot. The parent has its place already; `first` is the place of a root.
    #[inline(always)]
    fn place(&mut self, node: u32, parent: u32, is_root: bool, first: u32) -> (u32, Spot) {
        let mut plan = self.get(node);
        let (mut place, mut up) = (first, NO_SPOT);
        if !is_root {
            let mut above = self.get(parent);
            (place, up) = (above.free, above.place);
            above.free = above.free.saturating_add(plan.count);
            self.set(parent, above);
        }
        plan.place = place;
        plan.free = place.saturating_add(1);
        self.set(node, plan);
        let spot = Spot {
            node,
            up,
            end: place.saturating_add(plan.count),
            weight: plan.weight,
        };
        (place, spot)
    }
}
