ghost use Rattle.std.specs.Prelude.{◌≡◌, ℕ, [], ◌∷◌, ◌++◌, Some, None, length, if◌then◌else◌, IfOk};
ghost use Rattle.index_file.specs.Parts.{Names, is_new_node, with_node};

use std::alloc::{AllocError, Global};
use std::collections::HashSet;
use std::marker::Model;

/// The nodes of an order that isn't whole yet. It grows with the nodes that are named, whatever their numbers are.
#[derive(Drop)]
pub struct Naming {
    n: u32,
    order: Vec<u32>,
    /// Whether vias are to come with the entries.
    traced: bool,
    /// The nodes of `order`.
    seen: HashSet<u32>,
}

impl Model for Naming {
    ghost use Rattle.std.specs.Prelude.{◌≡◌, ℕ, nat_eq};
    ghost use Rattle.std.specs.List.{list_any};
    ghost use Rattle.std.specs.HashSet.{contains};
    ghost use Rattle.index_file.specs.Parts.{Names};

    ghost Value = { Names };

    ghost view = { λ s. record { n = s.n; order = s.order.items; traced = s.traced } };

    ghost invariant = { λ s. (v : ℕ) → contains nat_eq s.seen v ≡ list_any (nat_eq v) s.order.items };
}

impl Naming {
    /// No node of 1..n is named yet, of an index with vias or without.
    pub fn new(alloc: Global, n: u32, traced: bool) -> Naming
        ensures { result ≡ record { n = n; order = []; traced = traced } }
    {
        Naming {
            n,
            order: Vec::new(alloc),
            traced,
            seen: HashSet::new(alloc),
        }
    }

    /// How many nodes there are to be named.
    pub fn n(&self) -> u32
        ensures { result ≡ self.now.n }
    {
        self.n
    }

    /// Whether vias are to come with the entries.
    pub fn is_traced(&self) -> bool
        ensures { result ≡ self.now.traced }
    {
        self.traced
    }

    /// How many are named.
    pub fn len(&self) -> usize
        ensures { result ≡ length self.now.order }
    {
        self.order.len()
    }

    /// Names the node `v` next, or answers None where it is outside 1..n or was named before.
    pub fn with(self, v: u32) -> Result<Option<Naming>, AllocError>
        ensures { IfOk result (λ named. named ≡ (if is_new_node self v then Some (with_node self v) else None)) }
    {
        let Naming {
            n,
            mut order,
            traced,
            mut seen,
        } = self;
        if v == 0 || v > n {
            return Ok(None);
        }
        if !seen.insert(v)? {
            return Ok(None);
        }
        order.push(v)?;
        Ok(Some(Naming {
            n,
            order,
            traced,
            seen,
        }))
    }

    /// The nodes that are named, highest rank first.
    pub fn into_order(self) -> Vec<u32>
        ensures { result.items ≡ self.order }
    {
        self.order
    }
}
