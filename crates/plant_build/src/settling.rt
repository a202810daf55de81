ghost use Rattle.std.specs.Prelude.{◌≡◌, ℕ, ◌+◌, ◌<◌, ◌≤◌, List, length, map, vec_len, sum_by, IfOk};
ghost use Rattle.plant_build.specs.Rounds.{deques_of, share_of, put_by, taken_by, got_from, IsOneRound};
ghost use Rattle.plant_build.specs.Dealt.{others_of};
ghost use Rattle.plant_build.specs.Settled.{kept_of, owned_deques, put_into, got_of, left_of, AreAfter, EachAfter};

use crate::hand::Hand;
use crate::other::Other;
use crate::own::Own;
use std::alloc::{AllocError, Global};

/// How many batches are left in each deque, once all hands have come back: each number was put as often as the hands have
/// taken it or it is left. So no batch is taken twice. The only error is that memory ran out.
pub fn settle(alloc: Global, hands: Vec<Hand>) -> Result<Vec<usize>, AllocError>
    requires { IsOneRound (map share_of hands.items) }
    ensures { IfOk result (λ left. (rests : List (List ℕ)) × (map length rests ≡ left.items) × ((x : ℕ) → put_by x (map share_of hands.items) ≡ taken_by x hands.items + left_of x rests)) }
{
    let (mut owns, rounds) = apart(alloc, hands)?;
    all_back(&mut owns, rounds);
    left_in(alloc, &mut owns)
}

/// The own deque of each hand, and those that are lent to it.
fn apart(alloc: Global, hands: Vec<Hand>) -> Result<(Vec<Own>, Vec<Vec<Other>>), AllocError>
    ensures owns { IfOk result (λ parts. parts.0.items ≡ map (λ h. h.own) hands.items) }
    ensures others { IfOk result (λ parts. map (λ os. os.items) parts.1.items ≡ others_of hands.items) }
{
    let mut owns = Vec::with_capacity(alloc, hands.len())?;
    let mut rounds = Vec::with_capacity(alloc, hands.len())?;
    for hand in hands {
        let Hand { own, others } = hand;
        owns.push(own)?;
        rounds.push(others)?;
    }
    Ok((owns, rounds))
}

/// The deques that are lent to each hand come back.
fn all_back(owns: &mut [Own], mut rounds: Vec<Vec<Other>>)
    requires rounds { vec_len rounds ≤ length owns.old }
    requires after { EachAfter (owned_deques owns.old) (map (λ os. os.items) rounds.items) }
    ensures kept { map kept_of owns.new ≡ map kept_of owns.old }
    ensures back { sum_by (λ own. own.back) owns.new ≡ sum_by (λ own. own.back) owns.old + sum_by vec_len rounds.items }
    ensures got { (x : ℕ) → got_of x owns.new ≡ got_of x owns.old + sum_by (λ os. got_from x os.items) rounds.items }
{
    while let Some(others) = rounds.pop() {
        round_back(owns, others, rounds.len());
    }
}

/// The deques that are lent to the hand at a place come back.
fn round_back(owns: &mut [Own], mut others: Vec<Other>, place: usize)
    requires place { place < length owns.old }
    requires after { AreAfter (owned_deques owns.old) place (deques_of others.items) }
    ensures kept { map kept_of owns.new ≡ map kept_of owns.old }
    ensures back { sum_by (λ own. own.back) owns.new ≡ sum_by (λ own. own.back) owns.old + vec_len others }
    ensures got { (x : ℕ) → got_of x owns.new ≡ got_of x owns.old + got_from x others.items }
{
    while let Some(other) = others.pop() {
        let at = (place + 1 + others.len()) % owns.len();
        let own = &mut owns[at];
        own.take_back(other);
    }
}

/// How many batches are left in each deque, once all that was lent came back.
fn left_in(alloc: Global, owns: &mut [Own]) -> Result<Vec<usize>, AllocError>
    requires { sum_by (λ own. own.lent) owns.old ≡ sum_by (λ own. own.back) owns.old }
    ensures { IfOk result (λ left. (rests : List (List ℕ)) × (map length rests ≡ left.items) × ((x : ℕ) → put_into x owns.old ≡ got_of x owns.old + left_of x rests)) }
{
    let mut left = Vec::with_capacity(alloc, owns.len())?;
    for own in owns {
        left.push(own.left())?;
    }
    Ok(left)
}
