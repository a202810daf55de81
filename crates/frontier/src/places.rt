ghost use Rattle.std.specs.Prelude.{◌≡◌, ◌<◌, length, replicate, slice_set, IfOk};
ghost use Rattle.frontier.specs.Places.{told, found_of};
ghost use Rattle.frontier.specs.Reaches.{reach_at};
ghost use Rattle.frontier.specs.declared.reach.Reach.TheVariants.{Unreached, Queued, Settled};

use crate::carry::Carry;
use crate::reach::{Found, Reach};
use std::alloc::{AllocError, Global};
use std::marker::Model;

/// Half of the words that say that the distance stands apart.
const FAR: u32 = 2_147_483_647;

/// A reach as it is stored, in the least room. The word is 0 for a node that isn't reached. Else it is twice the distance
/// and 2, and 1 more for a settled node; and where the distance is too great for that, it is 2^32 - 2 or, for a settled
/// node, 2^32 - 1, and the distance stands apart.
#[derive(Clone, Copy, Debug)]
pub struct Place<C> {
    word: u32,
    carried: C,
}

impl<C: Copy> Place<C> {
    /// How far the search has come with the node, of which this distance stands apart.
    #[inline(always)]
    fn reach(self, apart: u128) -> Reach<C>
        ensures { result ≡ told self apart }
    {
        if self.word < 2 {
            return Reach::Unreached;
        }
        let half = self.word / 2;
        let dist = if half == FAR {
            apart
        } else {
            (half - 1) as u128
        };
        let found = Found {
            dist,
            carried: self.carried,
        };
        if self.word % 2 == 0 {
            Reach::Queued(found)
        } else {
            Reach::Settled(found)
        }
    }
}

/// The reach of each of the nodes of a search. Contracts see the list of these.
#[derive(Debug, Drop)]
pub struct Places<C> {
    places: Vec<Place<C>>,
    /// The distances that are too great for a place, each at its node; all others mean nothing.
    apart: Vec<u128>,
}

impl<C> Model for Places<C> {
    ghost use Rattle.std.specs.Prelude.{◌≡◌, List, length};
    ghost use Rattle.frontier.specs.Places.{told_all};
    ghost use Rattle.frontier.specs.declared.reach.Reach.{Reach};

    ghost Value = { List (Reach C) };

    ghost view = { λ p. told_all p.places.items p.apart.items };

    ghost invariant = { λ p. length p.apart.items ≡ length p.places.items };
}

impl<C: Carry> Places<C> {
    /// So many nodes, none of which is reached. The only error is that memory ran out.
    pub fn new(alloc: Global, size: usize) -> Result<Places<C>, AllocError>
        ensures { IfOk result (λ places. places ≡ replicate size Unreached) }
    {
        let unreached = Place {
            word: 0,
            carried: C::blank(),
        };
        let mut places = Vec::with_capacity(alloc, size)?;
        for _ in 0..size {
            places.push(unreached)?;
        }
        Ok(Places {
            places,
            apart: vec![in alloc; 0u128; size]?,
        })
    }

    #[inline(always)]
    pub fn get(&self, node: u32) -> Reach<C>
        requires { node < length self.now }
        ensures { result ≡ reach_at self.now node }
    {
        let place = self.places[node as usize];
        if place.word / 2 == FAR {
            return place.reach(self.apart[node as usize]);
        }
        place.reach(0)
    }

    /// The node is queued with what was found of it.
    #[inline(always)]
    pub fn queue(&mut self, node: u32, found: Found<C>)
        requires { node < length self.old }
        ensures { self.new ≡ slice_set self.old node (Queued found) }
    {
        self.put(node, found, 0);
    }

    /// The node is settled with what was found of it.
    #[inline(always)]
    pub fn settle(&mut self, node: u32, found: Found<C>)
        requires { node < length self.old }
        ensures { self.new ≡ slice_set self.old node (Settled found) }
    {
        self.put(node, found, 1);
    }

    /// The node isn't reached any more.
    pub fn forget(&mut self, node: u32)
        requires { node < length self.old }
        ensures { self.new ≡ slice_set self.old node Unreached }
    {
        self.places[node as usize].word = 0;
    }

    #[inline(always)]
    fn put(&mut self, node: u32, found: Found<C>, state: u32)
        requires node { node < length self.old }
        requires state { state < 2 }
        ensures { self.new ≡ slice_set self.old node (found_of state found) }
    {
        let place = node as usize;
        if found.dist < (FAR - 1) as u128 {
            self.places[place] = Place {
                word: (found.dist as u32 + 1) * 2 + state,
                carried: found.carried,
            };
            return;
        }
        self.apart[place] = found.dist;
        self.places[place] = Place {
            word: FAR * 2 + state,
            carried: found.carried,
        };
    }
}
