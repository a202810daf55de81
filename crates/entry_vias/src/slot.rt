//! What is known of one entry of a row while the vias of the row are sought.
ghost use Rattle.std.specs.Prelude.{◌≡◌, ◌↔◌, ◌+◌, IsTrue};
ghost use Rattle.entry_vias.specs.Slots.{slot_of, via_in};

/// A slot of the table over which the vias of a row are sought: one for each position of the ranking, and in it what is known of
/// the row's entry at this position.
#[derive(Clone, Copy)]
pub enum Slot {
    /// The row has no entry at this position.
    NoEntry,
    /// The row has one, at this distance from its hub. None of the neighbours looked at so far is nearer by just the weight of an
    /// arc.
    Sought { dist: u64 },
    /// The row has one, and this is its via: the first neighbour looked at that is nearer, a number from 1; or 0 for the node's own
    /// entry, which has none.
    Found { via: u32 },
}

impl Slot {
    /// The slot of an entry at this distance, before any neighbour is looked at. At 0 it is the node's own, and nothing is sought.
    pub fn of_entry(dist: u64) -> Slot
        ensures { result ≡ slot_of dist }
    {
        if dist == 0 {
            Slot::Found { via: 0 }
        } else {
            Slot::Sought { dist }
        }
    }

    /// Whether the via is still sought here of an entry whose distance is the sum of these two, which may be 2^64 and more.
    pub fn is_sought_at(self, near: u64, weight: u64) -> bool
        ensures { IsTrue result ↔ (self ≡ Slot.Sought (near + weight)) }
    {
        match self {
            Slot::Sought { dist } => dist >= near && dist - near == weight,
            Slot::NoEntry | Slot::Found { via: _ } => false,
        }
    }

    /// The via that was found, or 0.
    pub fn via(self) -> u32
        ensures { result ≡ via_in self }
    {
        match self {
            Slot::Found { via } => via,
            Slot::NoEntry | Slot::Sought { dist: _ } => 0,
        }
    }
}
