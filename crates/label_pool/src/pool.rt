ghost use Rattle.std.specs.Prelude.{◌≡◌, ℕ, ◌+◌, ◌*◌, ◌^◌, ◌<◌, ◌≤◌, [], ◌++◌, Option, Some, None, List, All, IsPermutation, IfOk, length};
ghost use Rattle.walk_laws.specs.Labelling.{label_row};
ghost use Rattle.hub_index.specs.Views.{IsNode};
ghost use Rattle.label_pool.specs.declared.rule.Linked.{Linked};
ghost use Rattle.table_seats.specs.Numbers.{numbers};
ghost use Rattle.label_pool.specs.Chains.{EndsIn, IsRest, entries_at};
ghost use Rattle.label_pool.specs.Seats.{IsSeatOf, IsMet, HasPut, HasFound, IfPut, IfFull, first_some};

use crate::gathering::gathered;
use crate::layout::{cell_named, count_words, head_word};
use crate::linking::{link, open_first, refill};
use crate::pool_put::PoolPut;
use crate::rule::{About, Finds, Handing, Law, LinkFact, View};
use crate::seat::PoolSeat;
use crate::visit::Visit;
use atomic_table::Table;
use hub_index::RowList;
use std::alloc::{AllocError, Global};
use std::marker::Model;
use std::sync::Wait;
use table_seats::{SeatView, join_in, split_off};
use walk_laws::Entry;

/// A chain of cells for each of the nodes 1..n, into which many workers put entries without locks. Contracts see which table
/// it is, how many nodes, cells and seats there are, and the value of the fact that its entries meet.
///
/// ```text
/// let (pool, mut one) = Pool::new(alloc, n, cells, 2, fact)?;
/// let mut two = pool.split(&mut one, 0);
/// pool.put(rt, &mut two, v, entry);                        // in one thread, and the same with `one` in another
/// let mut walk = pool.visit(&mut two, v);
/// while let Some(entry) = walk.next(&pool, &mut two) { .. }
/// pool.join(&mut one, two);
/// let raw = pool.close(one)?;
/// ```
#[derive(Drop)]
pub struct Pool<F: LinkFact> {
    pub(crate) table: Table<(), SeatView<View<F>>, About<F>, Law, Global>,
    alloc: Global,
    pub(crate) n: u32,
    cells: u32,
    blocks: u32,
    block: u32,
}

impl<F: LinkFact> Model for Pool<F> {
    ghost use Rattle.std.specs.Prelude.{◌≡◌, ◌*◌, ◌^◌, ◌≤◌};
    ghost use Rattle.label_pool.specs.Layout.{word_count};
    ghost use Rattle.label_pool.specs.Lawful.{first_known};
    ghost use Rattle.label_pool.specs.Seats.{PoolId, pool_id};

    ghost Value = { PoolId F };

    ghost view = { λ p. pool_id p.table.shared.table_id (first_known p.table.shared.key) };

    ghost invariant = { λ p.
        (p.table.shared.table_id.words ≡ word_count p.n p.cells)
        × (p.table.shared.table_id.slots ≡ 0)
        × (p.table.shared.key.n ≡ p.n)
        × (p.table.shared.key.cells ≡ p.cells)
        × (p.table.shared.key.blocks ≡ p.blocks)
        × (p.table.shared.key.block ≡ p.block)
        × (p.cells ≡ p.blocks * p.block)
        × (1 ≤ p.block)
        × (p.n ≤ 2 ^ 30)
        × (p.cells ≤ 2 ^ 31) };
}

impl<F: LinkFact> Pool<F> {
    /// An empty chain for each of the nodes 1..n, so many cells, none of which is drawn, and the first seat, from which
    /// `seats - 1` may be split. The only error is that memory ran out.
    pub fn new(
        alloc: Global,
        n: u32,
        cells: u32,
        seats: u32,
        fact: F,
    ) -> Result<(Pool<F>, PoolSeat<F>), AllocError>
        requires n { n ≤ 2 ^ 30 }
        requires cells { (1 ≤ cells) × (cells ≤ 2 ^ 31) }
        requires seats { (1 ≤ seats) × (seats ≤ 64) }
        ensures pool { IfOk result (λ made. (made.0.n ≡ n) × (made.0.cells ≡ cells) × (made.0.block ≡ 1) × (made.0.seats ≡ seats) × (made.0.fact ≡ Some fact)) }
        ensures seat { IfOk result (λ made. IsSeatOf made.0 made.1) }
        ensures left { IfOk result (λ made. made.1.left + 1 ≡ seats) }
        ensures drawn { IfOk result (λ made. (made.1.blocks ≡ []) × (made.1.reserve ≡ []) × (made.1.spare ≡ [])) }
        ensures puts { IfOk result (λ made. made.1.puts ≡ []) }
        ensures looks { IfOk result (λ made. (made.1.looks ≡ []) × (made.1.marks ≡ [])) }
        ensures past { IfOk result (λ made. made.1.past ≡ None) }
    {
        Pool::in_blocks(alloc, n, cells, 1, seats, fact)
    }

    /// The same with so many blocks of `block` cells each. A seat draws a block at once, so that few seats meet at the
    /// counter; in return the cells that are left of its last block are used by nobody. The only error is that memory ran
    /// out.
    pub fn in_blocks(
        alloc: Global,
        n: u32,
        blocks: u32,
        block: u32,
        seats: u32,
        fact: F,
    ) -> Result<(Pool<F>, PoolSeat<F>), AllocError>
        requires n { n ≤ 2 ^ 30 }
        requires blocks { (1 ≤ blocks) × (1 ≤ block) }
        requires cells { blocks * block ≤ 2 ^ 31 }
        requires seats { (1 ≤ seats) × (seats ≤ 64) }
        ensures pool { IfOk result (λ made. (made.0.n ≡ n) × (made.0.cells ≡ blocks * block) × (made.0.block ≡ block) × (made.0.seats ≡ seats) × (made.0.fact ≡ Some fact)) }
        ensures seat { IfOk result (λ made. IsSeatOf made.0 made.1) }
        ensures left { IfOk result (λ made. made.1.left + 1 ≡ seats) }
        ensures drawn { IfOk result (λ made. (made.1.blocks ≡ []) × (made.1.reserve ≡ []) × (made.1.spare ≡ [])) }
        ensures puts { IfOk result (λ made. made.1.puts ≡ []) }
        ensures looks { IfOk result (λ made. (made.1.looks ≡ []) × (made.1.marks ≡ [])) }
        ensures past { IfOk result (λ made. made.1.past ≡ None) }
    {
        let cells = blocks * block;
        let words = vec![in alloc; 0u64; count_words(n, cells)]?;
        let about = About {
            n,
            cells,
            blocks,
            block,
            seats,
            fact,
        };
        let (table, seat) = Table::of_words(alloc, words.as_slice(), &about)?;
        let pool = Pool {
            table,
            alloc,
            n,
            cells,
            blocks,
            block,
        };
        let seat = PoolSeat {
            seat,
            left: seats - 1,
            next: 0,
            end: 0,
        };
        Ok((pool, seat))
    }

    /// Puts the entry, with a distance below 2^64, before the chain of the node `v`, a number from 1. Where the seat has no cell
    /// in reserve it draws a block of cells, once; where no block has the number that it drew it answers Full, and the seat is
    /// past the cells and puts no more. It tries its link again where others came first, which may take forever as far as its
    /// contract goes.
    pub fn put<R: Wait>(&self, rt: &R, seat: &mut PoolSeat<F>, v: u32, entry: Entry) -> PoolPut
        requires seat { IsSeatOf self.now seat.old }
        requires past { seat.old.past ≡ None }
        requires node { IsNode self.now.n v }
        requires near { entry.dist < 2 ^ 64 }
        requires fact { IsMet F.fact self.now.fact v entry }
        ensures put { IfPut result (HasPut seat.old v entry seat.new) }
        ensures full { IfFull result (λ cell cells. (seat.old.reserve ≡ []) × (self.now.cells ≤ cell) × ((block : ℕ) × (cell ≡ block * self.now.block)) × (cells ≡ self.now.cells) × (seat.new ≡ record seat.old { past = Some cell })) }
    {
        let words = &self.table.shared;
        let room = refill(
            words,
            &mut seat.seat,
            self.block,
            self.cells,
            &mut seat.next,
            &mut seat.end,
        );
        if let Err(cell) = room {
            return PoolPut::Full {
                cell,
                cells: self.cells,
            };
        }
        let cell = seat.next;
        seat.next += 1;
        open_first(words, &mut seat.seat, self.n, cell, entry.dist);
        link(rt, words, &mut seat.seat, self.n, v, cell, entry.pos);
        PoolPut::Put
    }

    /// Begins a walk of the entries of the node `v`, a number from 1, by one load. It never waits. The walk has all that the
    /// seat, and those that were joined into it, put and found there.
    pub fn visit(&self, seat: &mut PoolSeat<F>, v: u32) -> Visit
        requires seat { IsSeatOf self.now seat.old }
        requires node { IsNode self.now.n v }
        ensures found { (found : List Linked) × HasFound F.fact self.now seat.old v found seat.new × IsRest seat.new.looks result found }
    {
        let head = self
            .table
            .shared
            .load::<Finds>(&mut seat.seat, head_word(v));
        Visit::at(cell_named(head))
    }

    /// Splits a new seat off, from which `give` more may be split; the old one loses those and one for the new seat
    /// itself. What the old one saw counts as seen by the new one, too. It takes no memory and never waits.
    pub fn split(&self, seat: &mut PoolSeat<F>, give: u32) -> PoolSeat<F>
        requires seat { IsSeatOf self.now seat.old }
        requires enough { give < seat.old.left }
        ensures seat { IsSeatOf self.now seat.new }
        ensures left { seat.new.left + give + 1 ≡ seat.old.left }
        ensures drawn { (seat.new.blocks ≡ seat.old.blocks) × (seat.new.reserve ≡ seat.old.reserve) × (seat.new.spare ≡ seat.old.spare) }
        ensures same { (seat.new.puts ≡ seat.old.puts) × (seat.new.looks ≡ seat.old.looks) × (seat.new.marks ≡ seat.old.marks) × (seat.new.past ≡ seat.old.past) }
        ensures new_seat { IsSeatOf self.now result }
        ensures new_left { result.left ≡ give }
        ensures new_drawn { (result.blocks ≡ []) × (result.reserve ≡ []) × (result.spare ≡ []) }
        ensures new { (result.puts ≡ []) × (result.looks ≡ []) × (result.marks ≡ seat.old.marks) × (result.past ≡ seat.old.past) }
    {
        let given = split_off::<Handing, _, _, _, _>(&self.table.shared, &mut seat.seat, give);
        seat.left -= give + 1;
        PoolSeat {
            seat: given,
            left: give,
            next: 0,
            end: 0,
        }
    }

    /// Joins the other seat into this one, which gains what that put and found and what may be split from it, and is past
    /// the cells where one of them is. What the other saw does not count as seen by this one, and the cells that it has in
    /// reserve are used by nobody. It takes no memory and never waits.
    pub fn join(&self, seat: &mut PoolSeat<F>, other: PoolSeat<F>)
        requires seat { IsSeatOf self.now seat.old }
        requires other { IsSeatOf self.now other }
        ensures seat { IsSeatOf self.now seat.new }
        ensures left { seat.new.left ≡ seat.old.left + other.left + 1 }
        ensures drawn { (seat.new.blocks ≡ seat.old.blocks ++ other.blocks) × (seat.new.reserve ≡ seat.old.reserve) × (seat.new.spare ≡ seat.old.spare ++ (other.reserve ++ other.spare)) }
        ensures puts { seat.new.puts ≡ seat.old.puts ++ other.puts }
        ensures looks { seat.new.looks ≡ seat.old.looks ++ other.looks }
        ensures marks { seat.new.marks ≡ seat.old.marks }
        ensures past { seat.new.past ≡ first_some seat.old.past other.past }
    {
        let PoolSeat {
            seat: spent,
            left,
            next: _,
            end: _,
        } = other;
        join_in::<Handing, Handing, _, _, _, _>(&self.table.shared, &mut seat.seat, spent);
        seat.left += left + 1;
    }

    /// The raw rows, by the last seat, into which all others were joined: in each row the entries that the seats put there,
    /// each once and nothing else. Each chain that one of them found is the end of its row. What they drew are the first
    /// blocks, each once, and all where one of them drew past the cells. The only error is that memory ran out, and then the
    /// cells are given up.
    pub fn close(self, seat: PoolSeat<F>) -> Result<RowList, AllocError>
        requires seat { IsSeatOf self seat }
        requires last { seat.left + 1 ≡ self.seats }
        ensures drawn { IsPermutation seat.blocks (numbers 0 (length seat.blocks)) }
        ensures past { (cell : ℕ) → seat.past ≡ Some cell → length seat.blocks * self.block ≡ self.cells }
        ensures size { IfOk result (λ rows. length rows ≡ self.n) }
        ensures puts { IfOk result (λ rows. (v : ℕ) → IsNode self.n v → IsPermutation (entries_at seat.puts v) (label_row rows v)) }
        ensures found { IfOk result (λ rows. All (λ look. EndsIn (label_row rows look.node) look.found) seat.looks) }
        ensures fact { IfOk result (λ rows. (v : ℕ) → IsNode self.n v → All (IsMet F.fact self.fact v) (label_row rows v)) }
    {
        let Pool {
            table,
            alloc,
            n,
            cells,
            blocks: _,
            block: _,
        } = self;
        let PoolSeat {
            seat,
            left: _,
            next: _,
            end: _,
        } = seat;
        let closed = table.close_with(seat);
        let rows = gathered(alloc, &closed, n, cells);
        closed.free();
        rows
    }
}
