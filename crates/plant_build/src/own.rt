ghost use Rattle.std.specs.Prelude.{◌≡◌, ℕ, ◌+◌, ◌++◌, ◌∷◌, [], List, length, IfOk, MatchOption, MatchResult};
ghost use Rattle.plant_build.specs.Hands.{unused, taken_from, found_empty, IsSettled};

use crate::other::Other;
use crate::rule::{Deque, Gets, Lends, Puts, Returns, Whole};
use std::alloc::{AllocError, Global};
use std::marker::Model;

/// A hand's own deque, and how often the hand has found it empty. Contracts see which deque it is, what was put into it,
/// what the hand took from it, how often it was lent, and how often it came back.
#[derive(Drop)]
pub struct Own {
    deque: Deque,
    empties: u64,
}

impl Model for Own {
    ghost use Rattle.std.specs.Prelude.{◌≡◌};
    ghost use Rattle.crossbeam_deque.specs.Handles.{worker_deque, worker_flavor, worker_port, worker_view};
    ghost use Rattle.plant_build.specs.Hands.{Owned};

    ghost Value = { Owned };

    ghost view = { λ o. record { reached = record { deque = worker_deque o.deque; got = (worker_view o.deque).got; empties = o.empties }; put = (worker_view o.deque).put; lent = (worker_view o.deque).lent; back = (worker_view o.deque).back } };

    ghost invariant = { λ o. (worker_flavor o.deque ≡ 0) × (worker_port o.deque ≡ 0) };
}

impl Own {
    /// An empty deque with room for so many batches. The only error is that memory ran out.
    pub fn new(alloc: Global, room: usize) -> Result<Own, AllocError>
        ensures reached { IfOk result (λ own. own.reached ≡ unused own.reached.deque) }
        ensures put { IfOk result (λ own. own.put ≡ []) }
        ensures lent { IfOk result (λ own. (own.lent ≡ 0) × (own.back ≡ 0)) }
    {
        Ok(Own {
            deque: Deque::fifo_as(alloc, room)?,
            empties: 0,
        })
    }

    /// Puts a batch last, or gives it back where memory ran out.
    pub fn put(&mut self, batch: u32) -> Result<(), u32>
        ensures reached { self.new.reached ≡ self.old.reached }
        ensures put { MatchResult result (λ _. self.new.put ≡ self.old.put ++ batch ∷ []) (λ back. (back ≡ batch) × (self.new.put ≡ self.old.put)) }
        ensures lent { (self.new.lent ≡ self.old.lent) × (self.new.back ≡ self.old.back) }
    {
        self.deque.push_as::<Puts>(batch)
    }

    /// Lends the deque to another hand. The only error is that memory ran out.
    pub fn lend(&mut self) -> Result<Other, AllocError>
        ensures other { IfOk result (λ other. other ≡ unused self.old.reached.deque) }
        ensures reached { self.new.reached ≡ self.old.reached }
        ensures put { self.new.put ≡ self.old.put }
        ensures lent { IfOk result (λ _. self.new.lent ≡ self.old.lent + 1) }
        ensures back { self.new.back ≡ self.old.back }
    {
        let thief = self.deque.stealer()?;
        Ok(Other::new(thief, self.deque.another::<Lends>()))
    }

    /// Takes the first batch. None where the deque was found empty.
    pub fn pop(&mut self) -> Option<u32>
        ensures reached { MatchOption result (self.new.reached ≡ found_empty self.old.reached) (λ batch. self.new.reached ≡ taken_from self.old.reached batch) }
        ensures put { self.new.put ≡ self.old.put }
        ensures lent { (self.new.lent ≡ self.old.lent) × (self.new.back ≡ self.old.back) }
    {
        let batch = self.deque.pop_as::<Gets>();
        if batch.is_none() {
            self.empties = self.empties.saturating_add(1);
        }
        batch
    }

    /// Takes back what was lent, with what was taken from it.
    pub fn take_back(&mut self, other: Other)
        requires { other.deque ≡ self.old.reached.deque }
        ensures deque { self.new.reached.deque ≡ self.old.reached.deque }
        ensures got { self.new.reached.got ≡ self.old.reached.got ++ other.got }
        ensures put { self.new.put ≡ self.old.put }
        ensures lent { (self.new.lent ≡ self.old.lent) × (self.new.back ≡ self.old.back + 1) }
    {
        self.deque.absorb::<Returns>(other.into_pass());
    }

    /// How many batches are left. Where all that was lent came back, each number was put as often as it was taken or is left.
    pub fn left(&mut self) -> usize
        ensures same { self.new ≡ self.old }
        ensures left { (rest : List ℕ) × (length rest ≡ result) × IsSettled self.old rest }
    {
        self.deque.len_as::<Whole>()
    }
}
