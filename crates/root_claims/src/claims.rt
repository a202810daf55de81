ghost use Rattle.std.specs.Prelude.{◌≡◌, ℕ, ◌+◌, ◌^◌, ◌<◌, ◌≤◌, ◌||◌, true, false, [], ◌∷◌, ◌++◌, IsPermutation, IfOk, nat_eq};
ghost use Rattle.std.specs.List.{IsDistinct};
ghost use Rattle.table_seats.specs.Numbers.{numbers};
ghost use Rattle.root_claims.specs.Seats.{IsSeatAt, IsSeatOf, from};
ghost use Rattle.root_claims.specs.Answers.{IfRoot, IfEnd, is_end};

use crate::claim::Claim;
use crate::rule::{Bounds, Draws, Handing, Law, Settles, View};
use atomic_table::{Seat, Table};
use std::alloc::{AllocError, Global};
use std::marker::Model;
use table_seats::{SeatView, join_in, split_off};

/// The numbers from a first one up to but not including `n`, which the seats of workers draw, each once. Positions of roots
/// are such numbers. Contracts see which table it is, the first number, `n`, and how many seats there are. Where the last seat
/// settles what was drawn ([`Claims::settle`]), its claims are from the next number on.
///
/// ```text
/// let (claims, mut one) = Claims::new(alloc, 0, n, 2)?;
/// let mut two = claims.split(&mut one, 0);
/// while let Claim::Root(root) = claims.claim(&mut two) { .. }    // in one thread, and the same with `one` in another
/// claims.join(&mut one, two);
/// let next = claims.close(one);
/// ```
#[derive(Drop)]
pub struct Claims {
    table: Table<(), SeatView<View>, Bounds, Law, Global>,
    n: u32,
}

impl Model for Claims {
    ghost use Rattle.std.specs.Prelude.{◌≡◌};
    ghost use Rattle.root_claims.specs.Seats.{ClaimsId, claims_id};

    ghost Value = { ClaimsId };

    ghost view = { λ c. claims_id c.table.shared.table_id c.table.shared.key };

    ghost invariant = { λ c. (c.table.shared.table_id.words ≡ 1) × (c.table.shared.table_id.slots ≡ 0) × (c.table.shared.key.n ≡ c.n) };
}

/// The right to draw from one table of claims, and to split seats off. It goes from thread to thread and is never copied.
/// Contracts see whose it is, how many seats may still be split from it, the numbers that it got (those that it drew, and
/// those of the seats that were joined into it), and whether it is over: it drew the end, or was split from a seat or
/// joined with one that was over.
#[derive(Drop)]
pub struct ClaimSeat {
    seat: Seat<(), SeatView<View>>,
    left: u32,
}

impl Model for ClaimSeat {
    ghost use Rattle.std.specs.Prelude.{◌≡◌, ◌<◌, ◌+◌, []};
    ghost use Rattle.root_claims.specs.Seats.{Claimed, claims_id};

    ghost Value = { Claimed };

    ghost view = { λ s. record { claims = claims_id s.seat.table_id s.seat.me.0.knows.of; left = s.left; got = s.seat.me.0.knows.got; over = s.seat.me.0.knows.over } };

    ghost invariant = { λ s. (s.seat.me.0.seats ≡ s.left + 1) × (s.left < 64) × (s.seat.me.1 ≡ []) };
}

impl Claims {
    /// Claims of the numbers from `first` up to but not including `n`, none of which is drawn yet, and their first seat,
    /// from which `seats - 1` may be split. The only error is that memory ran out.
    pub fn new(
        alloc: Global,
        first: u32,
        n: u32,
        seats: u32,
    ) -> Result<(Claims, ClaimSeat), AllocError>
        requires first { first ≤ n }
        requires n { n ≤ 2 ^ 30 }
        requires seats { (1 ≤ seats) × (seats ≤ 64) }
        ensures claims { IfOk result (λ made. (made.0.first ≡ first) × (made.0.n ≡ n) × (made.0.seats ≡ seats)) }
        ensures seat { IfOk result (λ made. IsSeatOf made.0 made.1) }
        ensures left { IfOk result (λ made. made.1.left + 1 ≡ seats) }
        ensures got { IfOk result (λ made. made.1.got ≡ []) }
        ensures over { IfOk result (λ made. made.1.over ≡ false) }
    {
        let bounds = Bounds { first, n, seats };
        let (table, seat) = Table::of_words(alloc, &[u64::from(first)], &bounds)?;
        let left = seats - 1;
        Ok((Claims { table, n }, ClaimSeat { seat, left }))
    }

    /// Draws one number, once, by one atomic step. A number below `n` is the position of a root, from 0, which no seat got
    /// before; any other is the end, and then the seat is over and draws no more.
    pub fn claim(&self, seat: &mut ClaimSeat) -> Claim
        requires seat { IsSeatAt self.now seat.old }
        requires over { seat.old.over ≡ false }
        ensures seat { seat.new.claims ≡ seat.old.claims }
        ensures left { seat.new.left ≡ seat.old.left }
        ensures within { IfRoot result (λ p. (seat.old.claims.first ≤ p) × (p < self.now.n)) }
        ensures root { IfRoot result (λ p. seat.new.got ≡ seat.old.got ++ p ∷ []) }
        ensures end { IfEnd result (seat.new.got ≡ seat.old.got) }
        ensures once { IsDistinct nat_eq seat.new.got }
        ensures over { seat.new.over ≡ is_end result }
    {
        let number = self.table.shared.fetch_add::<Draws>(&mut seat.seat, 0, 1);
        if number < u64::from(self.n) {
            Claim::Root(number as u32)
        } else {
            Claim::End
        }
    }

    /// Splits a new seat off, from which `give` more may be split; the old one loses those and one for the new seat
    /// itself. A seat that is over gives one that is over. It takes no memory.
    pub fn split(&self, seat: &mut ClaimSeat, give: u32) -> ClaimSeat
        requires seat { IsSeatAt self.now seat.old }
        requires enough { give < seat.old.left }
        ensures seat { seat.new.claims ≡ seat.old.claims }
        ensures left { seat.new.left + give + 1 ≡ seat.old.left }
        ensures got { seat.new.got ≡ seat.old.got }
        ensures over { seat.new.over ≡ seat.old.over }
        ensures new_seat { result.claims ≡ seat.old.claims }
        ensures new_left { result.left ≡ give }
        ensures new_got { result.got ≡ [] }
        ensures new_over { result.over ≡ seat.old.over }
    {
        let given = split_off::<Handing, _, _, _, _>(&self.table.shared, &mut seat.seat, give);
        seat.left -= give + 1;
        ClaimSeat {
            seat: given,
            left: give,
        }
    }

    /// Joins the other seat into this one, which gains what it got and what may be split from it, and is over where one of
    /// them is. Both drew from the same number on. It takes no memory.
    pub fn join(&self, seat: &mut ClaimSeat, other: ClaimSeat)
        requires seat { IsSeatAt self.now seat.old }
        requires other { IsSeatAt self.now other }
        ensures seat { seat.new.claims ≡ seat.old.claims }
        ensures alike { other.claims ≡ seat.old.claims }
        ensures left { seat.new.left ≡ seat.old.left + other.left + 1 }
        ensures got { seat.new.got ≡ seat.old.got ++ other.got }
        ensures once { IsDistinct nat_eq seat.new.got }
        ensures over { seat.new.over ≡ (seat.old.over || other.over) }
    {
        let ClaimSeat { seat: spent, left } = other;
        join_in::<Handing, Handing, _, _, _, _>(&self.table.shared, &mut seat.seat, spent);
        seat.left += left + 1;
    }

    /// Settles what was drawn, by the last seat, into which all others were joined. It answers the next number that a draw would
    /// give, or `n` where that is less: what the seat got are the numbers from the first up to but not including the answer, each
    /// once. The seat has got nothing then, and its claims are from the answer on, which is `n` where it is over.
    pub fn settle(&self, seat: &mut ClaimSeat) -> u32
        requires seat { IsSeatAt self.now seat.old }
        requires last { seat.old.left + 1 ≡ self.now.seats }
        ensures seat { seat.new.claims ≡ from result seat.old.claims }
        ensures left { seat.new.left ≡ seat.old.left }
        ensures got { seat.new.got ≡ [] }
        ensures same { seat.new.over ≡ seat.old.over }
        ensures within { (seat.old.claims.first ≤ result) × (result ≤ self.now.n) }
        ensures drawn { IsPermutation seat.old.got (numbers seat.old.claims.first result) }
        ensures over { seat.old.over ≡ true → result ≡ self.now.n }
    {
        let number = self.table.shared.load::<Settles>(&mut seat.seat, 0);
        number.min(u64::from(self.n)) as u32
    }

    /// Ends the claims, by the last seat, into which all others were joined. It answers the next number that a draw would
    /// have given, or `n` where that is less: what the seat got are the numbers from the first up to but not including the
    /// answer, each once. The answer is `n` where the seat is over.
    pub fn close(self, seat: ClaimSeat) -> u32
        requires seat { IsSeatAt self seat }
        requires last { seat.left + 1 ≡ self.seats }
        ensures within { (seat.claims.first ≤ result) × (result ≤ self.n) }
        ensures drawn { IsPermutation seat.got (numbers seat.claims.first result) }
        ensures over { seat.over ≡ true → result ≡ self.n }
    {
        let Claims { table, n } = self;
        let ClaimSeat { seat, left: _ } = seat;
        let closed = table.close_with(seat);
        let next = closed.word(0);
        closed.free();
        next.min(u64::from(n)) as u32
    }
}

impl ClaimSeat {
    /// How many seats may still be split from this one.
    pub fn left(&self) -> u32
        ensures { result ≡ self.now.left }
    {
        self.left
    }
}
