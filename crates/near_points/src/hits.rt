ghost use Rattle.std.specs.Prelude.{◌≡◌, ◌<◌, ◌≤◌, ◌++◌, ◌∷◌, [], length, slice_index_or, slice_range, IfOk, OnOk, OnErr};

use crate::hit::Hit;
use std::alloc::{AllocError, Global};
use std::marker::Model;

/// The hits of sources, in the order in which these were asked for, all in one list. Contracts see a list of hits for each
/// source.
#[derive(Debug, Drop)]
pub struct Hits {
    hits: Vec<Hit>,
    /// Where the hits of each source end.
    ends: Vec<usize>,
}

impl Model for Hits {
    ghost use Rattle.std.specs.Prelude.{List, length};
    ghost use Rattle.near_points.specs.declared.hit.Hit.{Hit};
    ghost use Rattle.near_points.specs.HitLists.{lists_from, AreEnds};

    ghost Value = { List (List Hit) };

    ghost view = { λ h. lists_from 0 h.hits.items h.ends.items };

    ghost invariant = { λ h. AreEnds 0 h.ends.items (length h.hits.items) };
}

impl Hits {
    /// The hits of no source. It takes no memory.
    pub fn new(alloc: Global) -> Hits
        ensures { result ≡ [] }
    {
        Hits {
            hits: Vec::new(alloc),
            ends: Vec::new(alloc),
        }
    }

    /// Of how many sources it has hits.
    pub fn len(&self) -> usize
        ensures { result ≡ length self.now }
    {
        self.ends.len()
    }

    /// The hits of a source, by its place from 0.
    pub fn of(&self, source: usize) -> &[Hit]
        requires { source < length self.now }
        ensures { result.now ≡ slice_index_or self.now source [] }
    {
        part(&self.hits, begin_of(&self.ends, source), self.ends[source])
    }

    /// Puts the hits of one more source after the others. The only error is that memory ran out, and then nothing has changed.
    pub fn push(&mut self, hits: &[Hit]) -> Result<(), AllocError>
        ensures ok { OnOk result (self.new ≡ self.old ++ hits.now ∷ []) }
        ensures err { OnErr result (self.new ≡ self.old) }
    {
        self.ends.reserve(1)?;
        self.hits.extend_from_slice(hits)?;
        self.ends.push(self.hits.len())?;
        Ok(())
    }

    /// Puts the hits of other sources after the others. The only error is that memory ran out.
    pub fn append(&mut self, others: &Hits) -> Result<(), AllocError>
        ensures { OnOk result (self.new ≡ self.old ++ others.now) }
    {
        for source in 0..others.len() {
            self.push(others.of(source))?;
        }
        Ok(())
    }
}

/// Where the hits of a source begin: where those of the one before it end.
fn begin_of(ends: &[usize], source: usize) -> usize
    requires { source < length ends.now }
    ensures { result ≡ slice_index_or (0 ∷ ends.now) source 0 }
{
    if source == 0 {
        return 0;
    }
    ends[source - 1]
}

/// The hits from one place up to another.
fn part(hits: &[Hit], begin: usize, end: usize) -> &[Hit]
    requires rises { begin ≤ end }
    requires within { end ≤ length hits.now }
    ensures { result.now ≡ slice_range hits.now begin end }
{
    &hits[begin..end]
}
