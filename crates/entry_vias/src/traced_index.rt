ghost use Rattle.std.specs.Prelude.{◌≡◌, ◌≤◌, length};
ghost use Rattle.hub_index.specs.WellFormed.{IsWellFormed};
ghost use Rattle.entry_vias.specs.RowVias.{HaveVias, via_row};

use crate::vias::Vias;
use hub_index::Index;
use std::marker::Model;

/// An index with its vias: for each entry but the last of a row the node, from 1, by which a walk from the hub comes to the row's
/// node, and 0 for the last one. Contracts see the order of the nodes, the rows and the vias.
#[derive(Debug, Drop)]
pub struct TracedIndex {
    index: Index,
    vias: Vias,
}

impl Model for TracedIndex {
    ghost use Rattle.entry_vias.specs.RowVias.{HaveVias, TracedHubIndex};

    ghost Value = { TracedHubIndex };

    ghost view = { λ t. record { order = t.index.order; rows = t.index.rows; vias = t.vias } };

    ghost invariant = { λ t. HaveVias t.index.rows t.vias };
}

impl TracedIndex {
    /// The index with these vias. It takes no memory.
    pub fn new(index: Index, vias: Vias) -> TracedIndex
        requires { HaveVias index.rows vias }
        ensures order { result.order ≡ index.order }
        ensures rows { result.rows ≡ index.rows }
        ensures vias { result.vias ≡ vias }
    {
        TracedIndex { index, vias }
    }

    /// The index.
    pub fn index(&self) -> &Index
        ensures order { result.now.order ≡ self.now.order }
        ensures rows { result.now.rows ≡ self.now.rows }
        ensures have_vias { HaveVias self.now.rows self.now.vias }
    {
        &self.index
    }

    /// The vias.
    pub fn vias(&self) -> &Vias
        ensures value { result.now ≡ self.now.vias }
        ensures have_vias { HaveVias self.now.rows self.now.vias }
    {
        &self.vias
    }

    /// The index and the vias. It takes no memory.
    pub fn into_parts(self) -> (Index, Vias)
        ensures order { result.0.order ≡ self.order }
        ensures rows { result.0.rows ≡ self.rows }
        ensures vias { result.1 ≡ self.vias }
    {
        let TracedIndex { index, vias } = self;
        (index, vias)
    }
}
