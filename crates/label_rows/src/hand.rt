ghost use Rattle.std.specs.Prelude.{◌≡◌, List, None, length};
ghost use Rattle.walk_laws.specs.declared.entry.Entry.{Entry as AnEntry};
ghost use Rattle.walk_laws.specs.Joined.{Joined};
ghost use Rattle.walk_laws.specs.Labelling.{EntryFits};
ghost use Rattle.hub_index.specs.RootDistances.{HoldsRow};
ghost use Rattle.hub_index.specs.Views.{IsNode, IsFoundOnward, IsAnswerOf, with_put};
ghost use Rattle.label_rows.specs.Seats.{IsSeatOf, with_visit};
ghost use Rattle.label_rows.specs.Visits.{seen_of, puts_of, put_by, visit_of};

use crate::locks::{give, take};
use crate::rows::Rows;
use crate::seat::RowSeat;
use hub_index::{Offer, RootTable, RowView};
use std::marker::Model;
use std::sync::Wait;
use walk_laws::Entry;

/// The rows as one worker sees and grows them. Contracts see its seat, which is lost where the hand is dropped.
#[derive(Drop)]
pub struct RowHand<'a, R: Wait> {
    rt: &'a R,
    rows: &'a Rows,
    seat: RowSeat,
}

impl<'a, R: Wait> Model for RowHand<'a, R> {
    ghost use Rattle.label_rows.specs.Seats.{Seated, IsSeatOf};

    ghost Value = { Seated };

    ghost view = { λ h. h.seat };

    ghost invariant = { λ h. IsSeatOf h.rows.now h.seat };
}

impl<'a, R: Wait> RowHand<'a, R> {
    /// A hand of the seat. By `rt` it waits for locks.
    pub fn new(rt: &'a R, rows: &'a Rows, seat: RowSeat) -> RowHand<'a, R>
        requires seat { IsSeatOf rows.now seat }
        ensures { result ≡ seat }
    {
        RowHand { rt, rows, seat }
    }

    /// The seat, with the visits that were made by the hand.
    pub fn into_seat(self) -> RowSeat
        ensures { result ≡ self.entry }
    {
        let RowHand {
            rt: _,
            rows: _,
            seat,
        } = self;
        seat
    }
}

/// The list seen of a node's row is the longest that a visit left. Each call takes the lock of its node once, waits while
/// another seat has it, and is one visit of the seat: the row that it found, and the entry that it put, or none. What was
/// seen before is the prefix of that row, and after a put the list seen is the row with the entry after it.
impl<'a, R: Wait> RowView for RowHand<'a, R> {
    ghost use Rattle.walk_laws.specs.Joined.{Joined};
    ghost use Rattle.walk_laws.specs.Labelling.{EntryFits};
    ghost use Rattle.label_rows.specs.Seats.{HandKept, hand_kept};

    ghost edges = { λ hand. hand.rows.edges };

    ghost order = { λ hand. hand.rows.order };

    ghost fact = { λ hand v e. EntryFits (Joined hand.rows.edges) hand.rows.order v e };

    ghost seen = { λ hand v. seen_of hand.visits v };

    ghost puts = { λ hand v. puts_of hand.visits v };

    ghost Kept = { HandKept };

    ghost kept = { λ hand. hand_kept hand };

    ghost fact_fits = { λ hand v e. (λ fits. fits, λ fits. fits) };

    fn load_root(&mut self, h: u32, table: &mut RootTable)
        requires node { IsNode (length self.old.rows.order) h }
        requires size { length table.old ≡ length self.old.rows.order }
        ensures visit { (row : List AnEntry) × IsFoundOnward (EntryFits (Joined self.old.rows.edges) self.old.rows.order h) (seen_of self.old.visits h) row
            × HoldsRow table.new row × (self.new ≡ with_visit self.old (visit_of h row None)) × (seen_of self.new.visits h ≡ row) }
        ensures size { length table.new ≡ length table.old }
    {
        let rows = self.rows;
        let locks = &rows.table.shared;
        let row = take(self.rt, rows.alloc, locks, &mut self.seat.seat, h);
        row.load(table);
        give(locks, &mut self.seat.seat, h, row);
    }

    fn offer(&mut self, v: u32, entry: Entry, table: &RootTable) -> Offer
        requires node { IsNode (length self.old.rows.order) v }
        requires size { length table.now ≡ length self.old.rows.order }
        requires fits { EntryFits (Joined self.old.rows.edges) self.old.rows.order v entry }
        ensures visit { (row : List AnEntry) × IsFoundOnward (EntryFits (Joined self.old.rows.edges) self.old.rows.order v) (seen_of self.old.visits v) row
            × IsAnswerOf table.now row entry result × (self.new ≡ with_visit self.old (visit_of v row (put_by entry result))) × (seen_of self.new.visits v ≡ with_put row entry result) }
    {
        let rows = self.rows;
        let locks = &rows.table.shared;
        let mut row = take(self.rt, rows.alloc, locks, &mut self.seat.seat, v);
        let answer = row.offer(entry, table);
        give(locks, &mut self.seat.seat, v, row);
        answer
    }
}
