ghost use Rattle.std.specs.Prelude.{◌≡◌, ◌++◌, flat_map};

use std::alloc::Global;
use std::marker::Model;

/// Bytes in pieces, one after another: a first piece, and others. Contracts see the list of all bytes.
#[derive(Debug, Drop)]
pub struct Pieces {
    first: Vec<u8>,
    others: Vec<Vec<u8>>,
}

impl Model for Pieces {
    ghost use Rattle.std.specs.Prelude.{ℕ, ◌++◌, List, flat_map};

    ghost Value = { List ℕ };

    ghost view = { λ p. p.first.items ++ flat_map (λ piece. piece.items) p.others.items };
}

impl Pieces {
    /// These bytes in one piece. It takes no memory.
    pub fn one(alloc: Global, bytes: Vec<u8>) -> Pieces
        ensures { result ≡ bytes.items }
    {
        Pieces {
            first: bytes,
            others: Vec::new(alloc),
        }
    }

    /// These pieces, one after another. It takes no memory.
    pub fn new(first: Vec<u8>, others: Vec<Vec<u8>>) -> Pieces
        ensures { result ≡ first.items ++ flat_map (λ piece. piece.items) others.items }
    {
        Pieces { first, others }
    }

    /// The first piece, and the others.
    pub fn list(&self) -> (&[u8], &[Vec<u8>])
        ensures { self.now ≡ result.0.now ++ flat_map (λ piece. piece.items) result.1.now }
    {
        (&self.first, &self.others)
    }
}
