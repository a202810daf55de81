ghost use Rattle.std.specs.Prelude.{◌≡◌, ◌+◌, ◌^◌, ◌<◌, ◌≤◌, [], ◌∷◌, ◌++◌, All, length, map, IfOk, OnOk, OnErr};
ghost use Rattle.entry_vias.specs.RowVias.{via_row};

use std::alloc::{AllocError, Global};
use std::marker::Model;

/// A list of vias for each of the nodes 1..n, or for each of the nodes of a range: nodes, from 1, or 0, one for each entry of the
/// node's row. Contracts see the list of the lists.
#[derive(Debug, Drop)]
pub struct Vias {
    /// All lists, one after another.
    flat: Vec<u32>,
    /// Where each list begins, and where the last one ends.
    starts: Vec<usize>,
}

impl Model for Vias {
    ghost use Rattle.std.specs.Prelude.{ℕ, ◌^◌, ◌≤◌, List, length};
    ghost use Rattle.entry_vias.specs.ViaLists.{lists_of, RiseUpTo};

    ghost Value = { List (List ℕ) };

    ghost view = { λ v. lists_of v.flat.items v.starts.items };

    ghost invariant = { λ v. RiseUpTo v.starts.items (length v.flat.items) × (length v.starts.items ≤ 2 ^ 32) };
}

impl Vias {
    /// No lists. The only error is that memory ran out.
    pub fn new(alloc: Global) -> Result<Vias, AllocError>
        ensures { IfOk result (λ vias. vias ≡ []) }
    {
        Ok(Vias {
            flat: Vec::new(alloc),
            starts: vec![in alloc; 0usize]?,
        })
    }

    /// How many lists there are.
    pub fn n(&self) -> u32
        ensures { result ≡ length self.now }
    {
        (self.starts.len() - 1) as u32
    }

    /// The vias of the entries of the node `v`, a number from 1, in the order of its row. They are lent in O(1).
    pub fn row(&self, v: u32) -> &[u32]
        requires node { 1 ≤ v }
        requires within { v ≤ length self.now }
        ensures { result.now ≡ via_row self.now v }
    {
        let v = v as usize;
        &self.flat[self.starts[v - 1]..self.starts[v]]
    }

    /// Puts a list after the others. The only error is that memory ran out, and then nothing has changed.
    pub fn push_row(&mut self, row: &[u32]) -> Result<(), AllocError>
        requires { length self.old + 1 < 2 ^ 32 }
        ensures ok { OnOk result (self.new ≡ self.old ++ row.now ∷ []) }
        ensures err { OnErr result (self.new ≡ self.old) }
    {
        self.starts.reserve(1)?;
        self.flat.extend_from_slice(row)?;
        let end = self.flat.len();
        self.starts.push(end)?;
        Ok(())
    }

    /// These lists, and then the others. The only error is that memory ran out.
    pub fn joined(self, others: Vias) -> Result<Vias, AllocError>
        requires { length self + length others < 2 ^ 32 }
        ensures { IfOk result (λ vias. vias ≡ self ++ others) }
    {
        let Vias {
            mut flat,
            mut starts,
        } = self;
        flat.extend_from_slice(&others.flat)?;
        let by = flat.len() - others.flat.len();
        push_after(&mut starts, &others.starts[1..], by)?;
        Ok(Vias { flat, starts })
    }
}

/// Puts these places after the others, each so much later. The only error is that memory ran out.
fn push_after(starts: &mut Vec<usize>, more: &[usize], by: usize) -> Result<(), AllocError>
    requires { All (λ start. start + by < 2 ^ 64) more.now }
    ensures { OnOk result (starts.new.items ≡ starts.old.items ++ map (λ start. start + by) more.now) }
{
    for start in more {
        starts.push(*start + by)?;
    }
    Ok(())
}
