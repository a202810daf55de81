ghost use Rattle.std.specs.Prelude.{◌≡◌, List};
ghost use Rattle.label_pool.specs.declared.rule.Linked.{Linked};
ghost use Rattle.label_pool.specs.Chains.{IsRest, IsNext};
ghost use Rattle.label_pool.specs.Seats.{IsSeatOf};

use crate::layout::{cell_in, dist_word, next_word, pos_in};
use crate::pool::Pool;
use crate::rule::{LinkFact, Reads};
use crate::seat::PoolSeat;
use std::marker::Model;
use walk_laws::{Dist, Entry};

/// A walk of the entries of a node, as far as it has come. Contracts see the cell at which it stands, or none at the end.
#[derive(Drop)]
pub struct Visit {
    at: Option<u32>,
}

impl Model for Visit {
    ghost use Rattle.std.specs.Prelude.{Option, ℕ};

    ghost Value = { Option ℕ };

    ghost view = { λ x. x.at };
}

impl Visit {
    /// A walk that stands at the cell.
    pub(crate) fn at(at: Option<u32>) -> Visit
        ensures { result ≡ at }
    {
        Visit { at }
    }

    /// The next entry of the chain that the visit found, newest first, or None at its end. It asks for the pool and the seat
    /// of the visit, or a seat into which that one was joined. It takes one load for each word of a cell, and never waits.
    pub fn next<F: LinkFact>(&mut self, pool: &Pool<F>, seat: &mut PoolSeat<F>) -> Option<Entry>
        requires seat { IsSeatOf pool.now seat.old }
        requires walk { (rest : List Linked) × IsRest seat.old.looks self.old rest }
        ensures next { (rest : List Linked) → IsRest seat.old.looks self.old rest → IsNext seat.old.looks rest result self.new }
        ensures same { seat.new ≡ seat.old }
    {
        let cell = self.at?;
        let words = &pool.table.shared;
        let next = words.load::<Reads>(&mut seat.seat, next_word(pool.n, cell));
        let dist = words.load::<Reads>(&mut seat.seat, dist_word(pool.n, cell));
        self.at = cell_in(next);
        Some(Entry {
            pos: pos_in(next),
            dist: Dist::of_u64(dist),
        })
    }
}
