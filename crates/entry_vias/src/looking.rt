//! The vias of one row: its entries are laid out by position, and the rows of neighbours walked over them until each has its via.
ghost use Rattle.std.specs.Prelude.{◌≡◌, ◌↔◌, ℕ, ◌+◌, ◌++◌, ◌^◌, ◌<◌, ◌≤◌, All, length, map, OnOk, IsTrue};
ghost use Rattle.std.specs.List.Sorted.{IsStrictlyIncreasing};
ghost use Rattle.walk_laws.specs.Graph.{IsGraph};
ghost use Rattle.walk_laws.specs.Joined.{Joined};
ghost use Rattle.entry_vias.specs.RowVias.{AreRowVias};
ghost use Rattle.entry_vias.specs.Slots.{IsEmpty, HoldsNoOther, IsLaidOut, IsRepeated, IsAfterLook, IsAfterAll, slot_at, sought_in, via_in};

use crate::slot::Slot;
use hub_index::{Entry, Index};
use std::alloc::AllocError;
use walk_laws::{Arc, Graph};

/// Puts each entry of the row at its position, from 0, of a table that has none. The answer is of how many the via is sought: of
/// all but the node's own.
fn lay_out(table: &mut [Slot], row: &[Entry]) -> usize
    requires empty { IsEmpty table.old }
    requires rises { IsStrictlyIncreasing (map (λ e. e.pos) row.now) }
    requires within { All (λ e. e.pos < length table.old) row.now }
    requires fits { All (λ e. e.dist < 2 ^ 64) row.now }
    ensures row { IsLaidOut row.now table.new }
    ensures sought { result ≡ sought_in table.new }
    ensures size { length table.new ≡ length table.old }
{
    let mut sought = 0usize;
    for entry in row {
        let dist = entry.dist.get_u64();
        table[entry.pos as usize] = Slot::of_entry(dist);
        if dist > 0 {
            sought += 1;
        }
    }
    sought
}

/// Looks at the row at the end of an arc: where it is nearer to a hub by the weight of the arc, and no earlier one was, the end of
/// the arc is the via. The answer is how many vias it found.
fn look_at(table: &mut [Slot], row: &[Entry], arc: Arc) -> usize
    requires within { All (λ e. e.pos < length table.old) row.now }
    requires fits { All (λ e. e.dist < 2 ^ 64) row.now }
    ensures each { (p : ℕ) → IsAfterLook row.now arc p (slot_at table.old p) (slot_at table.new p) }
    ensures found { sought_in table.new + result ≡ sought_in table.old }
    ensures size { length table.new ≡ length table.old }
{
    let mut found = 0usize;
    for entry in row {
        let pos = entry.pos as usize;
        if table[pos].is_sought_at(entry.dist.get_u64(), arc.w) {
            table[pos] = Slot::Found { via: arc.to };
            found += 1;
        }
    }
    found
}

/// Looks at the rows of the neighbours of the node `v`, by rising number, so that the first that fits is the least. It stops once
/// all vias are found; at first so many are sought. Of an edge that the graph has twice, as road files do, one arc is enough.
fn look_around(graph: &Graph, index: &Index, v: u32, table: &mut [Slot], sought: usize)
    requires graph { IsGraph graph.now.n graph.now.edges }
    requires size { length index.now.order ≡ graph.now.n }
    requires table { length table.old ≡ length index.now.order }
    requires sought { sought ≡ sought_in table.old }
    requires node { 1 ≤ v }
    requires within { v ≤ graph.now.n }
    ensures each { (p : ℕ) → IsAfterAll (Joined graph.now.edges) index.now.rows v p (slot_at table.old p) (slot_at table.new p) }
    ensures size { length table.new ≡ length table.old }
{
    let arcs = graph.arcs(v);
    let mut left = sought;
    for k in 0..arcs.len() {
        if left == 0 {
            return;
        }
        if is_repeated(arcs, k) {
            continue;
        }
        let arc = arcs[k];
        left -= look_at(table, index.row(arc.to), arc);
    }
}

/// Whether the arc at a place, from 0, is the same as the one before it.
fn is_repeated(arcs: &[Arc], k: usize) -> bool
    requires { k < length arcs.now }
    ensures { IsTrue result ↔ IsRepeated arcs.now k }
{
    k > 0 && arcs[k - 1] == arcs[k]
}

/// Puts the via of each entry of the row after the others, 0 where none is known. The only error is that memory ran out.
fn push_vias(table: &[Slot], row: &[Entry], vias: &mut Vec<u32>) -> Result<(), AllocError>
    requires { All (λ e. e.pos < length table.now) row.now }
    ensures { OnOk result (vias.new.items ≡ vias.old.items ++ map (λ e. via_in (slot_at table.now e.pos)) row.now) }
{
    for entry in row {
        vias.push(table[entry.pos as usize].via())?;
    }
    Ok(())
}

/// Takes the entries of the row out of a table that has no others, at the cost of the row.
fn clear(table: &mut [Slot], row: &[Entry])
    requires others { HoldsNoOther row.now table.old }
    requires within { All (λ e. e.pos < length table.old) row.now }
    ensures empty { IsEmpty table.new }
    ensures size { length table.new ≡ length table.old }
{
    for entry in row {
        table[entry.pos as usize] = Slot::NoEntry;
    }
}

/// Makes `vias` the vias of the row of the node `v`, a number from 1. The table is of use again where memory sufficed, and want
/// of it is the only error.
pub fn find_vias(
    graph: &Graph,
    index: &Index,
    v: u32,
    table: &mut [Slot],
    vias: &mut Vec<u32>,
) -> Result<(), AllocError>
    requires graph { IsGraph graph.now.n graph.now.edges }
    requires size { length index.now.order ≡ graph.now.n }
    requires table { length table.old ≡ length index.now.order }
    requires empty { IsEmpty table.old }
    requires node { 1 ≤ v }
    requires within { v ≤ graph.now.n }
    ensures vias { OnOk result (AreRowVias (Joined graph.now.edges) index.now.rows v vias.new.items) }
    ensures empty { OnOk result (IsEmpty table.new) }
    ensures size { length table.new ≡ length table.old }
{
    let row = index.row(v);
    vias.clear();
    let sought = lay_out(table, row);
    look_around(graph, index, v, table, sought);
    push_vias(table, row, vias)?;
    clear(table, row);
    Ok(())
}
