ghost use Rattle.std.specs.Prelude.{◌≡◌};
ghost use Rattle.plant_build.specs.Hands.{Asked};
ghost use Rattle.plant_build.specs.Rounds.{reaches, share_of};

use crate::other::Other;
use crate::own::Own;
use std::sync::Wait;

/// What one worker takes batches by: its own deque, and those of the others, beginning with the next one round.
#[derive(Drop)]
pub struct Hand {
    pub own: Own,
    pub others: Vec<Other>,
}

impl Hand {
    /// The first batch of its own deque, or else one that it steals from another, beginning with the next one round. None
    /// only where this call has found every deque empty.
    pub fn take<R: Wait>(&mut self, rt: &R) -> Option<u32>
        ensures asked { Asked result (reaches self.old) (reaches self.new) }
        ensures share { share_of self.new ≡ share_of self.old }
    {
        if let Some(batch) = self.own.pop() {
            return Some(batch);
        }
        steal_any(rt, &mut self.others)
    }
}

/// The first batch of the first of these deques that is not found empty.
fn steal_any<R: Wait>(rt: &R, others: &mut [Other]) -> Option<u32>
    ensures { Asked result others.old others.new }
{
    for other in others {
        if let Some(batch) = other.steal(rt) {
            return Some(batch);
        }
    }
    None
}
