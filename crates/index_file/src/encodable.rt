ghost use Rattle.std.specs.Prelude.{◌≡◌, None, Some};
ghost use Rattle.std.specs.Option.{option_copied};
ghost use Rattle.entry_vias.specs.RowVias.{HaveVias};

use entry_vias::{TracedIndex, Vias};
use hub_index::{Index, IndexRows, SplitIndex};

/// What can be encoded: an index of any kind, which lends its rows, and its vias where it has such. A worker borrows them anew in
/// its own thread.
pub trait Encodable {
    ghost use Rattle.std.specs.Prelude.{ℕ, List, Option, IfSome};
    ghost use Rattle.hub_index.specs.HubIndex.{HubIndex};

    /// The index as contracts see it.
    ghost index: { Self → HubIndex };

    /// Its vias.
    ghost vias: { Self → Option (List (List ℕ)) };

    /// Its rows, to be gone along. It takes no memory.
    fn lent(&self) -> IndexRows<'_>
        ensures order { result.order ≡ (index self.now).order }
        ensures rows { result.rows ≡ (index self.now).rows };

    /// Its vias, or None where it has none.
    fn lent_vias(&self) -> Option<&Vias>
        ensures value { option_copied result ≡ vias self.now }
        ensures have_vias { IfSome (vias self.now) (HaveVias (index self.now).rows) };
}

impl Encodable for Index {
    ghost index = { λ i. i };

    ghost vias = { λ i. None };

    fn lent(&self) -> IndexRows<'_>
        ensures order { result.order ≡ self.now.order }
        ensures rows { result.rows ≡ self.now.rows }
    {
        self.rows()
    }

    fn lent_vias(&self) -> Option<&Vias>
        ensures value { option_copied result ≡ None }
    {
        None
    }
}

impl Encodable for SplitIndex {
    ghost index = { λ i. i };

    ghost vias = { λ i. None };

    fn lent(&self) -> IndexRows<'_>
        ensures order { result.order ≡ self.now.order }
        ensures rows { result.rows ≡ self.now.rows }
    {
        self.rows()
    }

    fn lent_vias(&self) -> Option<&Vias>
        ensures value { option_copied result ≡ None }
    {
        None
    }
}

impl Encodable for TracedIndex {
    ghost index = { λ t. record { order = t.order; rows = t.rows } };

    ghost vias = { λ t. Some t.vias };

    fn lent(&self) -> IndexRows<'_>
        ensures order { result.order ≡ self.now.order }
        ensures rows { result.rows ≡ self.now.rows }
    {
        self.index().rows()
    }

    fn lent_vias(&self) -> Option<&Vias>
        ensures value { option_copied result ≡ Some self.now.vias }
        ensures have_vias { HaveVias self.now.rows self.now.vias }
    {
        Some(self.vias())
    }
}
