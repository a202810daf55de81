ghost use Rattle.std.specs.Prelude.{◌≡◌, ℕ, ◌+◌, ◌≤◌, [], length, IfOk, OnOk};
ghost use Rattle.near_points.specs.Merging.{AreMarked};
ghost use Rattle.near_points.specs.PointSets.{IsNearestOf};

use crate::cursor::Cursor;
use crate::hit::Hit;
use crate::merging::{begin, merge};
use crate::points::Points;
use hub_index::Index;
use std::alloc::{AllocError, Global};
use std::collections::BinaryHeap;

/// What is made once and used for one source after another.
#[derive(Drop)]
pub struct Workspace {
    cursors: BinaryHeap<Cursor>,
    /// Which nodes are marked: those of the hits.
    given: Vec<bool>,
    hits: Vec<Hit>,
}

impl Workspace {
    /// A workspace for an index of `n` nodes, with no hits. The only error is that memory ran out.
    pub fn new(alloc: Global, n: u32) -> Result<Workspace, AllocError>
        ensures size { IfOk result (λ w. length w.given.items ≡ n + 1) }
        ensures marked { IfOk result (λ w. AreMarked w.given.items w.hits.items) }
    {
        Ok(Workspace {
            cursors: BinaryHeap::new(alloc),
            given: vec![in alloc; false; n as usize + 1]?,
            hits: Vec::new(alloc),
        })
    }

    /// Its hits become the `k` points nearest to the node `source`, a number from 1. The only error is that memory ran out.
    pub fn find(
        &mut self,
        points: &Points,
        index: &Index,
        source: u32,
        k: u32,
    ) -> Result<(), AllocError>
        requires index { points.now.index ≡ index.now }
        requires source { (1 ≤ source) × (source ≤ length index.now.order) }
        requires size { length self.old.given.items ≡ length index.now.order + 1 }
        requires marked { AreMarked self.old.given.items self.old.hits.items }
        ensures size { OnOk result (length self.new.given.items ≡ length index.now.order + 1) }
        ensures marked { OnOk result (AreMarked self.new.given.items self.new.hits.items) }
        ensures nearest { OnOk result (IsNearestOf points.now k source self.new.hits.items) }
    {
        unmark(&mut self.given, &self.hits);
        self.hits.clear();
        self.cursors.clear();
        let row = index.row(source);
        let (words, starts) = points.lists();
        begin(words, starts, row, &mut self.cursors)?;
        merge(
            words,
            row,
            k,
            &mut self.cursors,
            &mut self.given,
            &mut self.hits,
        )
    }

    /// The hits of the last source.
    pub fn hits(&self) -> &[Hit]
        ensures { result.now ≡ self.now.hits.items }
    {
        &self.hits
    }

    /// The hits of the last source.
    pub fn into_hits(self) -> Vec<Hit>
        ensures { result ≡ self.hits }
    {
        self.hits
    }
}

/// Takes the marks of the hits away, at their cost.
fn unmark(given: &mut [bool], hits: &[Hit])
    requires { AreMarked given.old hits.now }
    ensures marked { AreMarked given.new [] }
    ensures size { length given.new ≡ length given.old }
{
    for hit in hits {
        given[hit.node as usize] = false;
    }
}
