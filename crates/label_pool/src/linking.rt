//! A put: the first cell in reserve is opened, filled, and linked before a chain.
ghost use Rattle.std.specs.Prelude.{◌≡◌, ◌*◌, ◌^◌, ◌<◌, ◌≤◌, ℕ, Some, None, List, [], ◌∷◌, IfErr, OnOk};
ghost use Rattle.hub_index.specs.Views.{IsNode};
ghost use Rattle.table_seats.specs.Seats.{knowing};
ghost use Rattle.label_pool.specs.declared.rule.Linked.{Linked};
ghost use Rattle.label_pool.specs.Chains.{IsTailOf, seen_of};
ghost use Rattle.label_pool.specs.Fillings.{filled, with_next};
ghost use Rattle.label_pool.specs.Layout.{dist_at, pos_in};
ghost use Rattle.label_pool.specs.Seats.{IsMet, HasReserve};
ghost use Rattle.label_pool.specs.Steps.{IsRefilled, with_filling, with_link, with_opened};

use crate::layout::{COUNTER, dist_word, head_word, next_stored, next_word};
use crate::rule::{About, Draws, FillsNext, Law, LinkFact, Links, Opens, View};
use atomic_table::{Seat, Shared};
use std::sync::Wait;
use table_seats::SeatView;
use walk_laws::Dist;

/// The words of a pool.
pub type Words<F> = Shared<(), SeatView<View<F>>, About<F>, Law>;

/// Makes sure that the seat has a cell in reserve, of those from `next` up to but not including `end`, numbers from 0: where it
/// has none it draws a block of `block` cells. The error is the number of the first cell of that block, where it is past the
/// cells.
pub fn refill<F: LinkFact>(
    words: &Words<F>,
    seat: &mut Seat<(), SeatView<View<F>>>,
    block: u32,
    cells: u32,
    next: &mut u32,
    end: &mut u32,
) -> Result<(), u64>
    requires table { seat.old.table_id ≡ words.now.table_id }
    requires counter { 0 < words.now.table_id.words }
    requires live { 1 ≤ seat.old.me.0.seats }
    requires block { (seat.old.me.0.knows.block ≡ block) × (1 ≤ block) }
    requires cells { (seat.old.me.0.knows.cells ≡ cells) × (cells ≤ 2 ^ 31) }
    requires whole { (blocks : ℕ) × (cells ≡ blocks * block) }
    requires past { seat.old.me.0.knows.past ≡ None }
    requires reserve { HasReserve seat.old.me.0.knows next.old end.old }
    ensures same { (seat.new.table_id ≡ seat.old.table_id) × (seat.new.id ≡ seat.old.id) }
    ensures ok { OnOk result (IsRefilled seat.old.me next.new end.new seat.new.me) }
    ensures err { IfErr result (λ past. (cells ≤ past) × (seat.old.me.0.knows.reserve ≡ []) × ((number : ℕ) × (past ≡ number * block)) × (seat.new.me ≡ (knowing seat.old.me.0 (record seat.old.me.0.knows { past = Some past }), seat.old.me.1)) × (next.new ≡ next.old) × (end.new ≡ end.old)) }
{
    if *next < *end {
        return Ok(());
    }
    let drawn = words.fetch_add::<Draws>(seat, COUNTER, 1);
    let first = drawn * u64::from(block);
    if first >= u64::from(cells) {
        return Err(first);
    }
    *next = first as u32;
    *end = first as u32 + block;
    Ok(())
}

/// Opens the first cell that the seat has in reserve, a number from 0, in a pool of `n` nodes, and stores the distance of an
/// entry there, which is below 2^64.
pub fn open_first<F: LinkFact>(
    words: &Words<F>,
    seat: &mut Seat<(), SeatView<View<F>>>,
    n: u32,
    cell: u32,
    dist: Dist,
)
    requires table { seat.old.table_id ≡ words.now.table_id }
    requires inside { dist_at n cell < words.now.table_id.words }
    requires live { 1 ≤ seat.old.me.0.seats }
    requires n { seat.old.me.0.knows.n ≡ n }
    requires filling { seat.old.me.0.knows.filling ≡ None }
    requires reserve { (rest : List ℕ) × (seat.old.me.0.knows.reserve ≡ cell ∷ rest) }
    requires near { dist < 2 ^ 64 }
    ensures same { (seat.new.table_id ≡ seat.old.table_id) × (seat.new.id ≡ seat.old.id) }
    ensures opened { (rest : List ℕ) → seat.old.me.0.knows.reserve ≡ cell ∷ rest → seat.new.me ≡ (knowing seat.old.me.0 (with_opened seat.old.me.0.knows cell rest dist), seat.old.me.1) }
{
    words.store::<Opens>(seat, dist_word(n, cell), dist.get_u64());
}

/// Links the filled cell, a number from 0, before the chain of the node `v`, a number from 1, in a pool of `n` nodes. It
/// stores the position with the name of the first cell of the chain as its next, and tries one exchange of the head; where
/// another came first it tries again with the head that it found.
pub fn link<F: LinkFact, R: Wait>(
    rt: &R,
    words: &Words<F>,
    seat: &mut Seat<(), SeatView<View<F>>>,
    n: u32,
    v: u32,
    cell: u32,
    pos: u32,
)
    requires table { seat.old.table_id ≡ words.now.table_id }
    requires inside { dist_at n cell < words.now.table_id.words }
    requires live { 1 ≤ seat.old.me.0.seats }
    requires n { seat.old.me.0.knows.n ≡ n }
    requires node { IsNode n v }
    requires filled { (dist : ℕ) × (seat.old.me.0.knows.filling ≡ Some (filled cell None dist)) × IsMet F.fact seat.old.me.0.knows.fact v (record { pos = pos; dist = dist }) }
    ensures same { (seat.new.table_id ≡ seat.old.table_id) × (seat.new.id ≡ seat.old.id) }
    ensures linked { (older : List Linked) × (next : ℕ) × (pos_in next ≡ pos) × IsTailOf (seen_of seat.old.me.0.knows.marks v) older
        × (seat.new.me ≡ (knowing seat.old.me.0 (with_link (with_filling seat.old.me.0.knows (with_next (Some next) seat.old.me.0.knows.filling)) v older), seat.old.me.1)) }
{
    let mut head = words.peek(head_word(v));
    for _ in rt.forever() {
        words.store::<FillsNext>(seat, next_word(n, cell), next_stored(head, pos));
        let found = words.compare_exchange::<Links>(seat, head_word(v), head, u64::from(cell) + 1);
        if found == head {
            return;
        }
        head = found;
    }
    unreachable!()
}
