ghost use Rattle.std.specs.Prelude.{ℕ, ◌^◌, ◌<◌, ◌≤◌, List, All, length, map, MatchOption};
ghost use Rattle.std.specs.List.Sorted.{IsStrictlyIncreasing};
ghost use Rattle.walk_laws.specs.declared.graph.Edge.{Edge};
ghost use Rattle.walk_laws.specs.Answer.{IsAnswer};
ghost use Rattle.walk_laws.specs.Joined.{Joined};
ghost use Rattle.walk_laws.specs.Labelling.{IsChl, label_row};
ghost use Rattle.walk_laws.specs.Laws.{WeighAtLeastOne};
ghost use Rattle.walk_laws.specs.Meet.{IsLeastSum, ShareNone, IsMeet};
ghost use Rattle.hub_query.specs.Meant.{meant};

use crate::answer::Answer;
use hub_index::{Entry, Index};

/// What the rows of the nodes `u` and `v`, numbers from 1, say of the pair: the least sum of their distances to a hub that
/// both have, with the highest-ranked hub of that sum. It holds of every index, and walks each row once.
///
/// In the square 1-2-3-4-1 of weights 1, of which a smaller number ranks higher, the nodes 2 and 4 share hub 1:
///
/// ```text
/// row of 2: hub 1 at 1, hub 2 at 0
/// row of 4: hub 1 at 1, hub 3 at 1, hub 4 at 0
/// ask(&index, 2, 4) == Answer::Near { dist: 2, hub: 1 }
/// ```
pub fn ask(index: &Index, u: u32, v: u32) -> Answer
    requires first { 1 ≤ u }
    requires first_within { u ≤ length index.now.order }
    requires second { 1 ≤ v }
    requires second_within { v ≤ length index.now.order }
    ensures meet { IsMeet index.now.order index.now.rows u v (meant result) }
    ensures answer { (edges : List Edge) → WeighAtLeastOne edges → IsChl (Joined edges) index.now.order index.now.rows
        → IsAnswer (Joined edges) index.now.order u v (meant result) }
{
    let ranking = index.ranking();
    match least_of(index, u, v) {
        None => Answer::Far,
        Some((pos, dist)) => Answer::Near {
            dist,
            hub: ranking.at(pos),
        },
    }
}

/// The least position with the least sum of two distances at one position of the rows of the nodes `u` and `v`, numbers
/// from 1, and that sum; None where the rows share no position.
fn least_of(index: &Index, u: u32, v: u32) -> Option<(u32, u128)>
    requires first { 1 ≤ u }
    requires first_within { u ≤ length index.now.order }
    requires second { 1 ≤ v }
    requires second_within { v ≤ length index.now.order }
    ensures { MatchOption result (ShareNone (label_row index.now.rows u) (label_row index.now.rows v))
        (λ best. IsLeastSum (label_row index.now.rows u) (label_row index.now.rows v) best.0 best.1) }
{
    if index.is_short() {
        least_short_sum(index.row(u), index.row(v))
    } else {
        least_sum(index.row(u), index.row(v))
    }
}

/// The same of two rows.
fn least_sum(first: &[Entry], second: &[Entry]) -> Option<(u32, u128)>
    requires first_rises { IsStrictlyIncreasing (map (λ e. e.pos) first.now) }
    requires second_rises { IsStrictlyIncreasing (map (λ e. e.pos) second.now) }
    requires first_fits { All (λ e. e.dist < 2 ^ 64) first.now }
    requires second_fits { All (λ e. e.dist < 2 ^ 64) second.now }
    ensures { MatchOption result (ShareNone first.now second.now) (λ best. IsLeastSum first.now second.now best.0 best.1) }
{
    let (mut i, mut j) = (0, 0);
    let (mut pos, mut least) = (0, u128::MAX);
    while i < first.len() && j < second.len() {
        let a = first[i];
        let b = second[j];
        if a.pos == b.pos {
            let total = a.dist.get() + b.dist.get();
            if total < least {
                pos = a.pos;
                least = total;
            }
            i += 1;
            j += 1;
        } else if a.pos < b.pos {
            i += 1;
        } else {
            j += 1;
        }
    }
    if least == u128::MAX {
        None
    } else {
        Some((pos, least))
    }
}

/// The same of two rows with short distances, whose sums are found faster.
fn least_short_sum(first: &[Entry], second: &[Entry]) -> Option<(u32, u128)>
    requires first_rises { IsStrictlyIncreasing (map (λ e. e.pos) first.now) }
    requires second_rises { IsStrictlyIncreasing (map (λ e. e.pos) second.now) }
    requires first_fits { All (λ e. e.dist < 2 ^ 62) first.now }
    requires second_fits { All (λ e. e.dist < 2 ^ 62) second.now }
    ensures { MatchOption result (ShareNone first.now second.now) (λ best. IsLeastSum first.now second.now best.0 best.1) }
{
    let (mut i, mut j) = (0, 0);
    let (mut pos, mut least) = (0, u64::MAX);
    while i < first.len() && j < second.len() {
        let a = first[i];
        let b = second[j];
        if a.pos == b.pos {
            let sum = a.dist.get_u64() + b.dist.get_u64();
            if sum < least {
                pos = a.pos;
                least = sum;
            }
            i += 1;
            j += 1;
        } else if a.pos < b.pos {
            i += 1;
        } else {
            j += 1;
        }
    }
    if least == u64::MAX {
        None
    } else {
        Some((pos, u128::from(least)))
    }
}
