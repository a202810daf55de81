ghost use Rattle.std.specs.Prelude.{◌≡◌, ◌≤◌, All, length, IfOk};
ghost use Rattle.near_points.specs.PointSets.{IsNearestOf};
ghost use Rattle.near_points.specs.PointWords.{IsInverted};

use crate::hit::Hit;
use crate::point_words::{starts_of, words_of};
use crate::workspace::Workspace;
use hub_index::Index;
use std::alloc::{AllocError, Global};
use std::marker::Model;
use std::snapshot::Snapshot;

/// A set of nodes of an index, with the entries of their rows by position. The index is kept for contracts alone, without
/// bytes. Contracts see it and the nodes.
#[derive(Drop)]
pub struct Points {
    index: Snapshot<Index>,
    nodes: Vec<u32>,
    /// The entries of the rows, by rising position, then distance, then node.
    words: Vec<u128>,
    /// Where the words of each position start, and where the last ones end.
    starts: Vec<usize>,
}

impl Model for Points {
    ghost use Rattle.near_points.specs.PointSets.{PointSet};
    ghost use Rattle.near_points.specs.PointWords.{IsInverted};

    ghost Value = { PointSet };

    ghost view = { λ p. record { index = p.index.value; nodes = p.nodes.items } };

    ghost invariant = { λ p. IsInverted p.index.value p.nodes.items p.words.items p.starts.items };
}

impl Points {
    /// The set of these nodes, numbers from 1, each of whose rows is walked once. The only error is that memory ran out.
    pub fn new(alloc: Global, index: &Index, nodes: &[u32]) -> Result<Points, AllocError>
        requires { All (λ v. (1 ≤ v) × (v ≤ length index.now.order)) nodes.now }
        ensures index { IfOk result (λ points. points.index ≡ index.now) }
        ensures nodes { IfOk result (λ points. points.nodes ≡ nodes.now) }
    {
        let mut words = words_of(alloc, index, nodes)?;
        words.sort_unstable();
        let starts = starts_of(alloc, &words, index.n())?;
        Ok(Points {
            index: Snapshot::of(index),
            nodes: Vec::from_slice(alloc, nodes)?,
            words,
            starts,
        })
    }

    /// The words of the rows, and where those of each position start.
    pub(crate) fn lists(&self) -> (&[u128], &[usize])
        ensures { IsInverted self.now.index self.now.nodes result.0.now result.1.now }
    {
        (&self.words, &self.starts)
    }

    /// The `k` points nearest to the node `source`, a number from 1, or all to which a hub leads if they are fewer: by rising
    /// distance, and of points that are as near the lower node first. The only error is that memory ran out.
    pub fn nearest(
        &self,
        alloc: Global,
        index: &Index,
        source: u32,
        k: u32,
    ) -> Result<Vec<Hit>, AllocError>
        requires index { self.now.index ≡ index.now }
        requires source { 1 ≤ source }
        requires within { source ≤ length index.now.order }
        ensures nearest { IfOk result (λ hits. IsNearestOf self.now k source hits.items) }
    {
        let mut workspace = Workspace::new(alloc, index.n())?;
        workspace.find(self, index, source, k)?;
        Ok(workspace.into_hits())
    }
}
