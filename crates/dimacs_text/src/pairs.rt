ghost use Rattle.std.specs.Prelude.{◌≡◌};

use std::marker::Model;

/// Pairs of nodes, which are numbers from 1, in the order of their text. Contracts see them as a list.
#[derive(Debug, Drop)]
pub struct Pairs {
    pairs: Vec<(u32, u32)>,
}

impl Model for Pairs {
    ghost use Rattle.std.specs.Prelude.{ℕ, List};

    ghost Value = { List (ℕ × ℕ) };

    ghost view = { λ p. p.pairs.items };
}

impl Pairs {
    /// These pairs.
    pub fn new(pairs: Vec<(u32, u32)>) -> Pairs
        ensures { result ≡ pairs.items }
    {
        Pairs { pairs }
    }

    /// The pairs, in their order.
    pub fn list(&self) -> &[(u32, u32)]
        ensures { result.now ≡ self.now }
    {
        self.pairs.as_slice()
    }
}
