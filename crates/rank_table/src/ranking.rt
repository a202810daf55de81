ghost use Rattle.std.specs.Prelude.{◌≡◌, ℕ, ◌+◌, ◌^◌, ◌<◌, ◌≤◌, ◌↔◌, List, Some, length, slice_index, slice_get, vec_len, IsTrue, IfOk};
ghost use Rattle.walk_laws.specs.Ranking.{IsRanking, RanksAbove, position_of};

use std::alloc::{AllocError, Global};
use std::marker::Model;

/// A ranking of the nodes 1..n. The position of a node is its place in the ranking, from 0; the smaller
/// its position, the higher it ranks. Contracts see it as the list of the nodes, highest rank first.
#[derive(Debug, Drop)]
pub struct Ranking {
    at: Vec<u32>,
    /// The position of each node, at the node's number.
    places: Vec<u32>,
}

impl Model for Ranking {
    ghost use Rattle.std.specs.Prelude.{◌≡◌, ℕ, ◌+◌, ◌^◌, ◌<◌, ◌≤◌, List, length, slice_index};
    ghost use Rattle.walk_laws.specs.Ranking.{IsRanking, position_of};

    ghost Value = { List ℕ };

    ghost view = { λ r. r.at.items };

    ghost invariant = { λ r.
        IsRanking r.at.items
        × (length r.at.items < 2 ^ 32)
        × (length r.places.items ≡ length r.at.items + 1)
        × ((v : ℕ) → 1 ≤ v → v ≤ length r.at.items → slice_index r.places.items v ≡ position_of r.at.items v) };
}

impl Ranking {
    /// The ranking in which the node at place p of `at` has position p.
    pub fn new(alloc: Global, at: Vec<u32>) -> Result<Ranking, AllocError>
        requires { IsRanking at.items }
        ensures { IfOk result (λ r. r ≡ at.items) }
    {
        let places = places_of(alloc, &at)?;
        Ok(Ranking { at, places })
    }

    /// How many nodes there are.
    pub fn n(&self) -> u32
        ensures value { result ≡ length self.now }
        ensures ranking { IsRanking self.now }
    {
        (self.places.len() - 1) as u32
    }

    /// The position, from 0, of the node `v`, which is a number from 1.
    pub fn pos(&self, v: u32) -> u32
        requires node { 1 ≤ v }
        requires within { v ≤ length self.now }
        ensures value { result ≡ position_of self.now v }
        ensures position { result < length self.now }
        ensures inverse { slice_get self.now result ≡ Some v }
    {
        self.places[v as usize]
    }

    /// The node, a number from 1, at the position `p`, which counts from 0.
    pub fn at(&self, p: u32) -> u32
        requires { p < length self.now }
        ensures value { slice_get self.now p ≡ Some result }
        ensures inverse { position_of self.now result ≡ p }
        ensures node { 1 ≤ result }
        ensures within { result ≤ length self.now }
    {
        self.at[p as usize]
    }

    /// Whether the node `u` ranks above the node `v`.
    pub fn above(&self, u: u32, v: u32) -> bool
        requires first { 1 ≤ u }
        requires first_within { u ≤ length self.now }
        requires second { 1 ≤ v }
        requires second_within { v ≤ length self.now }
        ensures { IsTrue result ↔ RanksAbove self.now u v }
    {
        self.pos(u) < self.pos(v)
    }

    /// The same ranking once more.
    pub fn copy(&self, alloc: Global) -> Result<Ranking, AllocError>
        ensures { IfOk result (λ r. r ≡ self.now) }
    {
        let at = Vec::from_slice(alloc, &self.at)?;
        let places = Vec::from_slice(alloc, &self.places)?;
        Ok(Ranking { at, places })
    }
}

/// The position of each node of a ranking, at the node's number.
fn places_of(alloc: Global, at: &[u32]) -> Result<Vec<u32>, AllocError>
    requires { IsRanking at.now }
    ensures small { length at.now < 2 ^ 32 }
    ensures size { IfOk result (λ t. vec_len t ≡ length at.now + 1) }
    ensures place { IfOk result (λ t. (v : ℕ) → 1 ≤ v → v ≤ length at.now → slice_index t.items v ≡ position_of at.now v) }
{
    let mut places = vec![in alloc; 0u32; at.len() + 1]?;
    for (p, v) in at.iter().enumerate() {
        places[*v as usize] = p as u32;
    }
    Ok(places)
}
