ghost use Rattle.std.specs.Prelude.{◌≡◌, IfOk};

use crate::bare::Bare;
use frontier::Frontier;
use hub_index::RootTable;
use std::alloc::{AllocError, Global};
use std::marker::Model;

/// The memory in which a worker grows the trees of roots one after another. A tree costs what it touches. Contracts see
/// the number of nodes.
#[derive(Debug, Drop)]
pub struct Work {
    /// How many nodes there are.
    pub n: u32,
    /// The nodes that a tree has reached, whatever the last one left there.
    pub frontier: Frontier<Bare>,
    /// The distances of the hubs of a root, whatever the last one left there.
    pub table: RootTable,
}

impl Model for Work {
    ghost use Rattle.std.specs.Prelude.{◌≡◌, ℕ, ◌+◌, length};

    ghost Value = { ℕ };

    ghost view = { λ w. w.n };

    ghost invariant = { λ w. (length w.frontier ≡ w.n + 1) × (length w.table ≡ w.n) };
}

impl Work {
    /// The memory for trees over the nodes 1..n. The only error is that memory ran out.
    pub fn new(alloc: Global, n: u32) -> Result<Work, AllocError>
        ensures { IfOk result (λ work. work ≡ n) }
    {
        Ok(Work {
            n,
            frontier: Frontier::new(alloc, n)?,
            table: RootTable::new(alloc, n)?,
        })
    }
}
