//! What an audit asks of an index beside its order and rows.
ghost use Rattle.std.specs.Prelude.{◌↔◌, None, Some, IsTrue};
ghost use Rattle.index_audit.specs.Beside.{GoesBy, HasPlace};

use entry_vias::Vias;

/// The vias of the entries of an index, or none.
pub trait Beside {
    ghost use Rattle.std.specs.Prelude.{◌↔◌, ℕ, List, Option, IsTrue};
    ghost use Rattle.index_audit.specs.Beside.{GoesBy, HasPlace};

    /// The vias, if there are any.
    ghost vias: { Self → Option (List (List ℕ)) };

    /// Whether the entry at a place, from 0, of the row of the node `v` goes by the node `via`, a number from 1, or by none where
    /// that is 0. Without vias each entry does.
    fn goes_by(&self, v: u32, place: usize, via: u32) -> bool
        requires { HasPlace (vias self.now) v place }
        ensures { IsTrue result ↔ GoesBy (vias self.now) v place via };
}

/// No vias stand beside the entries.
#[derive(Clone, Copy, Debug)]
pub struct NoVias;

impl Beside for NoVias {
    ghost vias = { λ _. None };

    fn goes_by(&self, _v: u32, _place: usize, _via: u32) -> bool {
        true
    }
}

impl Beside for Vias {
    ghost vias = { λ v. Some v };

    fn goes_by(&self, v: u32, place: usize, via: u32) -> bool {
        self.row(v)[place] == via
    }
}
