ghost use Rattle.std.specs.Prelude.{◌≡◌, ◌⊎◌, ◌^◌, ◌<◌, ◌≤◌, None, All, IsFalse, IsTrue, List, [], length, replicate, OnOk, OnErr};
ghost use Rattle.walk_laws.specs.Labelling.{label_row};
ghost use Rattle.hub_index.specs.PlainRows.{IsGathered};
ghost use Rattle.hub_index.specs.RootDistances.{HoldsRow};
ghost use Rattle.hub_index.specs.Views.{IsNode, IsFound};
ghost use Rattle.hub_index.specs.declared.row_view.Offer.TheVariants.{Covered};
ghost use Rattle.label_pool.specs.declared.rule.Linked.{Linked};
ghost use Rattle.label_pool.specs.Seats.{IsSeatOf};
ghost use Rattle.pool_view.specs.Fitting.{IsFittingPool, edges_of, order_of};
ghost use Rattle.pool_view.specs.Putting.{IsListOf};
ghost use Rattle.pool_view.specs.Viewing.{HasGained, HasVisited, IsForOwn, IsPast, IsOfferedToAll, IsOfferedToGlobal, fact_of, seen_row, whole_row};

use crate::chain::{covered_in_chain, note_chain};
use crate::fits::Fits;
use crate::puts::{OwnRows, Puts};
use hub_index::{NodeEntry, Offer, RootTable, RowView, ShardedRows};
use label_pool::{Pool, PoolPut, PoolSeat};
use std::alloc::AllocError;
use std::marker::Model;
use std::sync::Wait;
use walk_laws::{Dist, Entry};

/// The rows of a superstep as one worker sees and grows them. The row of a node is its row of the global table, then what
/// all workers put in the pool, the oldest first, then what the worker keeps itself: what the pool has no cell for, or a cell
/// no room for, and what it put at that node after such an entry.
/// Entries of the global table take 8 bytes where their distances fit in 4: each of a row up to the first that doesn't.
/// All that the worker puts is listed, so that nobody has to go through the pool's cells for it. Contracts see its seat at
/// the pool, the global rows, its own rows, and what is listed.
#[derive(Drop)]
pub struct PoolView<'a, R: Wait> {
    rt: &'a R,
    pool: &'a Pool<Fits>,
    global: ShardedRows<'a>,
    seat: PoolSeat<Fits>,
    puts: Puts,
    /// Whether the seat drew past the last cell.
    past: bool,
}

impl<'a, R: Wait> Model for PoolView<'a, R> {
    ghost use Rattle.std.specs.Prelude.{◌≡◌, All};
    ghost use Rattle.hub_index.specs.Views.{IsNode};
    ghost use Rattle.label_pool.specs.Seats.{IsSeatOf};
    ghost use Rattle.pool_view.specs.Putting.{IsPooledBy, own_rows};
    ghost use Rattle.pool_view.specs.Viewing.{Viewing, IsViewing, IsOpen};

    ghost Value = { Viewing };

    ghost view = { λ v. record { seat = v.seat; global = v.global; own = own_rows v.puts; list = v.puts.list } };

    ghost invariant = { λ v. IsSeatOf v.pool.now v.seat × IsViewing (record { seat = v.seat; global = v.global; own = own_rows v.puts; list = v.puts.list }) × IsOpen v.past v.seat v.puts × IsPooledBy v.seat v.puts × All (λ e. IsNode v.puts.n e.node) v.puts.kept };
}

impl<'a, R: Wait> PoolView<'a, R> {
    /// A view by a seat that has seen and put nothing, and neither have those that were joined into it or the one that it was
    /// split from. The own rows and the list are empty. By `rt` its puts wait for one another.
    pub fn new(
        rt: &'a R,
        pool: &'a Pool<Fits>,
        global: ShardedRows<'a>,
        seat: PoolSeat<Fits>,
        own: OwnRows,
        list: Vec<NodeEntry>,
    ) -> PoolView<'a, R>
        requires pool { IsFittingPool pool.now }
        requires seat { IsSeatOf pool.now seat }
        requires past { seat.past ≡ None }
        requires fresh { (seat.looks ≡ []) × (seat.marks ≡ []) }
        requires puts { seat.puts ≡ [] }
        requires global { IsGathered (edges_of pool.now.fact) (order_of pool.now.fact) global }
        requires own { own ≡ length global }
        requires list { list.items ≡ [] }
        ensures seat { result.seat ≡ seat }
        ensures global { result.global ≡ global.entry }
        ensures own { result.own ≡ replicate own [] }
        ensures list { result.list ≡ [] }
    {
        PoolView {
            rt,
            pool,
            global,
            seat,
            puts: Puts::new(own, list),
            past: false,
        }
    }

    /// The seat, the own rows, which are emptied at the cost of what they have, and the list of all that was put, in that
    /// order. It takes no memory.
    pub fn into_parts(self) -> (PoolSeat<Fits>, OwnRows, Vec<NodeEntry>)
        ensures seat { result.0 ≡ self.entry.seat }
        ensures own { result.1 ≡ length (order_of self.entry.seat.pool.fact) }
        ensures list { result.2.items ≡ self.entry.list }
        ensures puts { IsListOf self.entry.seat self.entry.list }
        ensures nodes { All (λ e. IsNode (length (order_of self.entry.seat.pool.fact)) e.node) self.entry.list }
    {
        let PoolView {
            rt: _,
            pool: _,
            global: _,
            seat,
            puts,
            past: _,
        } = self;
        let (own, list) = puts.into_parts();
        (seat, own, list)
    }

    /// Puts the entry at the node `v`, a number from 1: in the pool, or where that doesn't take it in the own row of `v`. The
    /// only error is that memory ran out for that, and nothing is put.
    fn put(&mut self, v: u32, entry: Entry) -> Result<(), AllocError>
        requires node { IsNode (length (order_of self.old.seat.pool.fact)) v }
        requires fits { fact_of self.old v entry }
        ensures ok { OnOk result (HasGained self.old v entry self.new) }
        ensures err { OnErr result ((self.new ≡ self.old) ⊎ IsPast self.old self.new) }
    {
        let Entry { pos, dist } = entry;
        if !self.is_for_pool(v, dist) {
            return self.puts.keep(v, pos, dist);
        }
        self.puts.list(v, pos, dist)?;
        match self
            .pool
            .put(self.rt, &mut self.seat, v, Entry { pos, dist })
        {
            PoolPut::Put => Ok(()),
            PoolPut::Full { .. } => {
                self.puts.unlist();
                self.past = true;
                self.puts.keep(v, pos, dist)
            }
        }
    }

    /// Whether an entry with this distance is to go in the pool: not where the seat has drawn past the last cell, nor where a
    /// cell has no room for the distance, nor where the own row of the node `v`, a number from 1, has entries, since what is put
    /// later comes last.
    fn is_for_pool(&self, v: u32, dist: Dist) -> bool
        requires node { IsNode (length (order_of self.now.seat.pool.fact)) v }
        ensures yes { IsTrue result → (self.now.seat.past ≡ None) × (dist < 2 ^ 64) × (label_row self.now.own v ≡ []) }
        ensures no { IsFalse result → IsForOwn self.now v dist self.now.seat.past }
    {
        if self.past {
            return false;
        }
        if dist.get() > u128::from(u64::MAX) {
            return false;
        }
        self.puts.keeps_none(v)
    }
}

/// A root is loaded from its whole row, by one visit. An offer is tested by the global row first, and goes to the pool only
/// where no entry of that covers it: then it is one visit, and it is tested by the whole row. What is put goes into the
/// pool, or, where that doesn't take it, into the worker's own rows, and is listed in both cases.
impl<'a, R: Wait> RowView for PoolView<'a, R> {
    ghost use Rattle.pool_view.specs.Fitting.{edges_of, order_of};
    ghost use Rattle.pool_view.specs.Viewing.{ViewKept, view_kept, seen_row, puts_row, fact_of};

    ghost edges = { λ view. edges_of view.seat.pool.fact };

    ghost order = { λ view. order_of view.seat.pool.fact };

    ghost fact = { fact_of };

    ghost seen = { seen_row };

    ghost puts = { puts_row };

    ghost Kept = { ViewKept };

    ghost kept = { view_kept };

    ghost fact_fits = { λ view v e. (λ fits. fits, λ fits. fits) };

    fn load_root(&mut self, h: u32, table: &mut RootTable)
        requires node { IsNode (length (order_of self.old.seat.pool.fact)) h }
        requires size { length table.old ≡ length (order_of self.old.seat.pool.fact) }
        ensures visit { (found : List Linked) × HasVisited self.old h found self.new × IsFound (fact_of self.old h) (seen_row self.old h) (whole_row self.old found h)
            × HoldsRow table.new (whole_row self.old found h) × (seen_row self.new h ≡ whole_row self.old found h) }
        ensures size { length table.new ≡ length table.old }
    {
        table.clear();
        note_chain(self.pool, &mut self.seat, h, table);
        self.puts.note(h, table);
        self.global.note(h, table);
    }

    fn offer(&mut self, v: u32, entry: Entry, table: &RootTable) -> Offer
        requires node { IsNode (length (order_of self.old.seat.pool.fact)) v }
        requires size { length table.now ≡ length (order_of self.old.seat.pool.fact) }
        requires fits { fact_of self.old v entry }
        ensures offered { IsOfferedToGlobal table.now self.old v entry result self.new ⊎ IsOfferedToAll table.now self.old v entry result self.new }
    {
        let dist = entry.dist.get();
        if let Some(cover) = self.global.cover(v, table, entry.pos, dist) {
            return covered_by(cover);
        }
        if let Some(cover) = covered_in_chain(
            self.pool,
            &mut self.seat,
            v,
            table,
            entry.pos,
            dist,
        ) {
            return covered_by(cover);
        }
        if let Some(cover) = self.puts.cover(v, table, entry.pos, dist) {
            return covered_by(cover);
        }
        match self.put(v, entry) {
            Ok(()) => Offer::Put,
            Err(_) => Offer::NoMemory,
        }
    }
}

/// The answer of an offer that the entry covers.
fn covered_by(cover: Entry) -> Offer
    ensures { result ≡ Covered cover.pos cover.dist }
{
    Offer::Covered {
        pos: cover.pos,
        dist: cover.dist.get(),
    }
}
