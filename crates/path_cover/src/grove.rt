use crate::forest::{Forest, NO_SPOT, Spot};
use crate::table::{add_number, number_at, set_number};
use crate::worths::{Worths, product};
use std::alloc::{AllocError, Global};

/// Some trees, of which a cover takes node after node, and where each node stands in them.
#[derive(Drop)]
pub struct Grove {
    forest: Forest,
    /// The spots of each node, those of one node by rising tree.
    places: Vec<u32>,
    /// Where the spots of each node begin, and where the last ones end.
    starts: Vec<u32>,
}

impl Grove {
    /// Trees of the nodes 0..count, in which nothing is covered.
    pub fn new(alloc: Global, forest: Forest, count: u32) -> Result<Grove, AllocError> {
        let starts = starts_of(alloc, &forest.spots, count)?;
        let places = places_of(alloc, &forest.spots, &starts)?;
        Ok(Grove {
            forest,
            places,
            starts,
        })
    }

    /// Covers all ways that pass a node, and takes them from what the nodes are worth.
    pub fn take(&mut self, node: u32, worths: &mut Worths) {
        let start = number_at(&self.starts, node, 0);
        let end = number_at(&self.starts, node.saturating_add(1), 0);
        let mut tree = 0usize;
        for k in start..end {
            let place = number_at(&self.places, k, NO_SPOT);
            if self.is_covered(place) {
                continue;
            }
            tree = self.tree_of(place, tree);
            let root = number_at(&self.forest.roots, u32::try_from(tree).unwrap_or(0), 0);
            self.lighten(place, root, worths);
            self.cut(place, root, worths);
        }
    }

    /// Whether the ways to a spot are covered, as most are once some nodes were taken.
    #[inline(always)]
    fn is_covered(&self, place: u32) -> bool {
        match self.forest.spots.get(place as usize) {
            Some(spot) => spot.weight == 0,
            None => true,
        }
    }

    /// The tree of a spot, which is not before the given one.
    fn tree_of(&self, place: u32, from: usize) -> usize {
        for tree in from..self.forest.ends.len() {
            if place < self.forest.ends[tree] {
                return tree;
            }
        }
        from
    }

    /// Takes the weight of a spot from all spots that it hangs from.
    fn lighten(&mut self, place: u32, root: u32, worths: &mut Worths) {
        if place as usize >= self.forest.spots.len() {
            return;
        }
        let spot = self.forest.spots[place as usize];
        let mut at = spot.up;
        for _ in 0..self.forest.spots.len() {
            if at as usize >= self.forest.spots.len() || spot.weight == 0 {
                return;
            }
            let above = self.forest.spots[at as usize];
            let weight = above.weight.saturating_sub(spot.weight);
            self.forest.spots[at as usize].weight = weight;
            worths.cover_pairs(above.node, product(spot.weight, root));
            at = above.up;
        }
    }

    /// Covers the ways to a spot and to all that hang from it.
    fn cut(&mut self, place: u32, root: u32, worths: &mut Worths) {
        if place as usize >= self.forest.spots.len() {
            return;
        }
        let end = self.forest.spots[place as usize].end;
        let mut at = place;
        while at < end && (at as usize) < self.forest.spots.len() {
            let spot = self.forest.spots[at as usize];
            if spot.weight == 0 {
                at = spot.end.max(at + 1);
                continue;
            }
            self.forest.spots[at as usize].weight = 0;
            worths.cover_pairs(spot.node, product(spot.weight, root));
            worths.cover_label(spot.node, root);
            at += 1;
        }
    }
}

/// Where the spots of each node begin in a list of them by node, and where the last ones end.
fn starts_of(alloc: Global, spots: &[Spot], count: u32) -> Result<Vec<u32>, AllocError> {
    let mut starts = vec![in alloc; 0u32; count as usize + 1]?;
    for spot in spots {
        add_number(&mut starts, spot.node.saturating_add(1), 1);
    }
    let mut sum = 0u32;
    for k in 0..starts.len() {
        sum = sum.saturating_add(starts[k]);
        starts[k] = sum;
    }
    Ok(starts)
}

/// The places of the spots, by node; those of one node rise.
fn places_of(alloc: Global, spots: &[Spot], starts: &[u32]) -> Result<Vec<u32>, AllocError> {
    let mut next = Vec::from_slice(alloc, starts)?;
    let mut places = vec![in alloc; 0u32; spots.len()]?;
    for (k, spot) in spots.iter().enumerate() {
        let at = number_at(&next, spot.node, NO_SPOT);
        set_number(&mut places, at, u32::try_from(k).unwrap_or(NO_SPOT));
        set_number(&mut next, spot.node, at.saturating_add(1));
    }
    Ok(places)
}
