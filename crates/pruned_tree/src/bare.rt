use frontier::Carry;

/// Nothing beside the distance.
#[derive(Clone, Copy, Debug, PartialEq, Eq)]
pub struct Bare {}

impl Carry for Bare {
    ghost combined = { λ a b. a };

    fn blank() -> Bare {
        Bare {}
    }

    fn combine(self, _later: Bare) -> Bare {
        self
    }
}
