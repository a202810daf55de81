ghost use Rattle.std.specs.Prelude.{◌≡◌, ℕ, ◌+◌, ◌<◌, ◌≤◌, [], All, length, map, vec_len, IfOk, OnOk, nat_lt, ◌==◌, if◌then◌else◌};
ghost use Rattle.plant_build.specs.Balance.{times};
ghost use Rattle.plant_build.specs.Rounds.{deques_of, share_of, put_by, IsOneRound, HasTakenNothing};
ghost use Rattle.plant_build.specs.Dealt.{owns_of, puts_of, others_of, lent_by, back_by, borrowed_by, AreUnused, AreAtHome, IsRest, AreLent};

use crate::hand::Hand;
use crate::other::Other;
use crate::own::Own;
use std::alloc::{AllocError, Global};

/// Deals the batches 0..batches to the deques of so many workers: batch b to that of worker b mod workers. The second list
/// has the batches that a deque did not take. The only error is that memory ran out.
pub fn deal(alloc: Global, batches: u32, workers: u32) -> Result<(Vec<Hand>, Vec<u32>), AllocError>
    requires from_one { 1 ≤ workers }
    requires to_64 { workers ≤ 64 }
    ensures hands { IfOk result (λ dealt. vec_len dealt.0 ≡ workers) }
    ensures each { IfOk result (λ dealt. (x : ℕ) → put_by x (map share_of dealt.0.items) + times x dealt.1.items ≡ (if nat_lt x batches then 1 else 0)) }
    ensures home { IfOk result (λ dealt. AreAtHome (puts_of dealt.0.items)) }
    ensures round { IfOk result (λ dealt. IsOneRound (map share_of dealt.0.items)) }
    ensures nothing { IfOk result (λ dealt. All HasTakenNothing dealt.0.items) }
{
    let mut hands = new_hands(alloc, batches, workers)?;
    let mut left = Vec::new(alloc);
    for batch in 0..batches {
        deal_one(&mut hands, &mut left, batch)?;
    }
    lend_all(alloc, &mut hands)?;
    Ok((hands, left))
}

/// A hand for each worker, with an empty deque that has room for its share of the batches.
fn new_hands(alloc: Global, batches: u32, workers: u32) -> Result<Vec<Hand>, AllocError>
    requires { 1 ≤ workers }
    ensures hands { IfOk result (λ hands. vec_len hands ≡ workers) }
    ensures owns { IfOk result (λ hands. AreUnused (owns_of hands.items)) }
    ensures puts { IfOk result (λ hands. All (λ put. put ≡ []) (puts_of hands.items)) }
    ensures others { IfOk result (λ hands. All (λ others. others ≡ []) (others_of hands.items)) }
    ensures lent { IfOk result (λ hands. (lent_by hands.items ≡ 0) × (back_by hands.items ≡ 0)) }
{
    let mut hands = Vec::with_capacity(alloc, workers as usize)?;
    for _ in 0..workers {
        let own = Own::new(alloc, (batches / workers) as usize + 1)?;
        let others = Vec::new(alloc);
        hands.push(Hand { own, others })?;
    }
    Ok(hands)
}

/// Puts a batch into the deque of worker batch mod workers, or, where the deque does not take it, among those that are left.
fn deal_one(hands: &mut [Hand], left: &mut Vec<u32>, batch: u32) -> Result<(), AllocError>
    requires { 0 < length hands.old }
    ensures owns { OnOk result (owns_of hands.new ≡ owns_of hands.old) }
    ensures others { OnOk result (others_of hands.new ≡ others_of hands.old) }
    ensures lent { OnOk result ((lent_by hands.new ≡ lent_by hands.old) × (back_by hands.new ≡ back_by hands.old)) }
    ensures each { OnOk result ((x : ℕ) → put_by x (map share_of hands.new) + times x left.new.items ≡ put_by x (map share_of hands.old) + times x left.old.items + (if batch == x then 1 else 0)) }
    ensures home { OnOk result (AreAtHome (puts_of hands.old) → AreAtHome (puts_of hands.new)) }
{
    let place = batch as usize % hands.len();
    let hand = &mut hands[place];
    if let Err(back) = hand.own.put(batch) {
        left.push(back)?;
    }
    Ok(())
}

/// Lends to each hand the deques of all others.
fn lend_all(alloc: Global, hands: &mut [Hand]) -> Result<(), AllocError>
    requires { All (λ others. others ≡ []) (others_of hands.old) }
    ensures owns { OnOk result (owns_of hands.new ≡ owns_of hands.old) }
    ensures puts { OnOk result (puts_of hands.new ≡ puts_of hands.old) }
    ensures lent { OnOk result (lent_by hands.old ≡ 0 → lent_by hands.new ≡ borrowed_by hands.new) }
    ensures back { OnOk result (back_by hands.new ≡ back_by hands.old) }
    ensures others { OnOk result (AreLent (deques_of (owns_of hands.old)) (others_of hands.new)) }
{
    for place in 0..hands.len() {
        let others = borrow_round(alloc, hands, place)?;
        let hand = &mut hands[place];
        hand.others = others;
    }
    Ok(())
}

/// What all hands but that at a place lend, beginning with the next one round.
fn borrow_round(alloc: Global, hands: &mut [Hand], place: usize) -> Result<Vec<Other>, AllocError>
    requires { place < length hands.old }
    ensures owns { OnOk result (owns_of hands.new ≡ owns_of hands.old) }
    ensures puts { OnOk result (puts_of hands.new ≡ puts_of hands.old) }
    ensures others { OnOk result (others_of hands.new ≡ others_of hands.old) }
    ensures lent { IfOk result (λ others. lent_by hands.new ≡ lent_by hands.old + vec_len others) }
    ensures back { OnOk result (back_by hands.new ≡ back_by hands.old) }
    ensures round { IfOk result (λ others. IsRest (deques_of (owns_of hands.old)) place (deques_of others.items)) }
    ensures unused { IfOk result (λ others. AreUnused others.items) }
{
    let mut others = Vec::with_capacity(alloc, hands.len())?;
    for step in 1..hands.len() {
        let at = (place + step) % hands.len();
        let hand = &mut hands[at];
        others.push(hand.own.lend()?)?;
    }
    Ok(others)
}
