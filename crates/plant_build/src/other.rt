ghost use Rattle.std.specs.Prelude.{◌≡◌, true, [], MatchOption};
ghost use Rattle.crossbeam_deque.specs.Handles.{view, stealer_deque, IsPassOf};
ghost use Rattle.plant_build.specs.Balance.{lent};
ghost use Rattle.plant_build.specs.Hands.{unused, taken_from, found_empty};

use crate::rule::{Gets, Thief, ThiefPass};
use crossbeam_deque::Steal;
use std::marker::Model;
use std::sync::Wait;
use std::thread;

/// The deque of another worker, which was lent to a hand, and how often the hand has found it empty. Contracts see which
/// deque it is, and what the hand took from it.
#[derive(Drop)]
pub struct Other {
    thief: Thief,
    pass: ThiefPass,
    empties: u64,
}

impl Model for Other {
    ghost use Rattle.std.specs.Prelude.{◌≡◌, true};
    ghost use Rattle.crossbeam_deque.specs.Handles.{view as pass_view, stealer_deque, IsPassOf};
    ghost use Rattle.plant_build.specs.Hands.{Reached};

    ghost Value = { Reached };

    ghost view = { λ o. record { deque = stealer_deque o.thief; got = (pass_view o.pass).got; empties = o.empties } };

    ghost invariant = { λ o. IsPassOf (stealer_deque o.thief) o.pass × ((pass_view o.pass).out ≡ true) };
}

impl Other {
    /// The deque of a thief, with a pass that was lent for it.
    pub fn new(thief: Thief, pass: ThiefPass) -> Other
        requires of { IsPassOf (stealer_deque thief) pass }
        requires lent { view pass ≡ lent }
        ensures { result ≡ unused (stealer_deque thief) }
    {
        Other {
            thief,
            pass,
            empties: 0,
        }
    }

    /// Steals the first batch. It tries again where another thread came first. None where the deque was found empty.
    pub fn steal<R: Wait>(&mut self, rt: &R) -> Option<u32>
        ensures { MatchOption result (self.new ≡ found_empty self.old) (λ batch. self.new ≡ taken_from self.old batch) }
    {
        for _ in rt.forever() {
            match self.thief.steal_as::<Gets>(&mut self.pass) {
                Steal::Success(batch) => return Some(batch),
                Steal::Empty => {
                    self.empties = self.empties.saturating_add(1);
                    return None;
                }
                Steal::Retry => thread::yield_now(),
            }
        }
        unreachable!()
    }

    /// The pass, which knows what was taken.
    pub fn into_pass(self) -> ThiefPass
        ensures of { IsPassOf self.deque result }
        ensures out { (view result).out ≡ true }
        ensures got { (view result).got ≡ self.got }
    {
        let Other {
            thief: _,
            pass,
            empties: _,
        } = self;
        pass
    }
}
