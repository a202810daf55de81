use frontier::Carry;

/// The position, from 0, of the highest-ranked node on the shortest walks to a node that were found so far.
#[derive(Clone, Copy, Debug, PartialEq, Eq)]
pub struct Highest {
    pub position: u32,
}

impl Carry for Highest {
    ghost use Rattle.std.specs.Prelude.{min};

    ghost combined = { λ a b. record { position = min a.position b.position } };

    fn blank() -> Highest {
        Highest { position: 0 }
    }

    fn combine(self, later: Highest) -> Highest {
        Highest {
            position: self.position.min(later.position),
        }
    }
}
