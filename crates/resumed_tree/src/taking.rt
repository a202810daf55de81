//! A row takes an entry of the root, unless it is needless. Rows stay by rising position.
ghost use Rattle.std.specs.Prelude.{◌≡◌, ◌≢◌, ◌⊎◌, ℕ, ◌-◌, ◌≤◌, length, map, slice_set, IfOk, IsTrue, IsFalse, OnOk, OnErr};
ghost use Rattle.std.specs.List.{insert};
ghost use Rattle.std.specs.List.Sorted.{IsStrictlyIncreasing};
ghost use Rattle.walk_laws.specs.Labelling.{label_row};
ghost use Rattle.resumed_tree.specs.Taken.{HasNoLonger, HasCover, IsUncovered, IsStand, IsTaken};

use hub_index::{Entry, RootTable, RowList};
use std::alloc::AllocError;

/// Where an entry that is offered to a row is to stand there. Places count from 0.
#[derive(Clone, Copy, Debug)]
pub enum Stand {
    /// Nowhere: an entry of its hub that is no longer stands there, or one covers it.
    Nowhere,
    /// In place of a longer one of its hub, at this place.
    Instead(usize),
    /// Before the entry at this place, or last where the place is the row's length. None is of its hub.
    Before(usize),
}

/// Offers the entry to the row of the node `v`, a number from 1, and answers whether the row took it. The only error is that
/// memory ran out, and then nothing has changed.
pub fn take(rows: &mut RowList, v: u32, entry: Entry, table: &RootTable) -> Result<bool, AllocError>
    requires node { 1 ≤ v }
    requires within { v ≤ length rows.old }
    requires position { entry.pos ≤ length table.now }
    requires rising { IsStrictlyIncreasing (map (λ e. e.pos) (label_row rows.old v)) }
    ensures size { length rows.new ≡ length rows.old }
    ensures others { (x : ℕ) → 1 ≤ x → x ≢ v → label_row rows.new x ≡ label_row rows.old x }
    ensures taken { IfOk result (λ took. IsTrue took → IsTaken (label_row rows.old v) (label_row rows.new v) entry) }
    ensures uncovered { IfOk result (λ took. IsTrue took → IsUncovered table.now (label_row rows.old v) entry) }
    ensures same { IfOk result (λ took. IsFalse took → rows.new ≡ rows.old) }
    ensures needless { IfOk result (λ took. IsFalse took → HasNoLonger (label_row rows.old v) entry ⊎ HasCover table.now (label_row rows.old v) entry) }
    ensures err { OnErr result (rows.new ≡ rows.old) }
{
    match stand_of(rows.row(v), &entry, table) {
        Stand::Nowhere => Ok(false),
        Stand::Instead(place) => {
            rows.set(v, place, entry);
            Ok(true)
        }
        Stand::Before(place) => {
            put_at(rows, v, place, entry)?;
            Ok(true)
        }
    }
}

/// Where the entry is to stand in the row, by way of the root's hubs in the table. It goes along the row from the front, only
/// as far as entries rank above the entry's hub: no other could cover it.
fn stand_of(row: &[Entry], entry: &Entry, table: &RootTable) -> Stand
    requires position { entry.now.pos ≤ length table.now }
    requires rising { IsStrictlyIncreasing (map (λ e. e.pos) row.now) }
    ensures { IsStand table.now row.now entry.now result }
{
    let dist = entry.dist.get();
    for (place, other) in row.iter().enumerate() {
        if other.pos > entry.pos {
            return Stand::Before(place);
        }
        if other.pos == entry.pos {
            if other.dist.get() <= dist {
                return Stand::Nowhere;
            }
            return Stand::Instead(place);
        }
        if table.covers(*other, entry.pos, dist) {
            return Stand::Nowhere;
        }
    }
    Stand::Before(row.len())
}

/// Puts the entry at a place from 0 of the row of the node `v`, a number from 1; what stood there and after it moves up one
/// place. The only error is that memory ran out, and then nothing has changed.
fn put_at(rows: &mut RowList, v: u32, place: usize, entry: Entry) -> Result<(), AllocError>
    requires node { 1 ≤ v }
    requires within { v ≤ length rows.old }
    requires place { place ≤ length (label_row rows.old v) }
    ensures ok { OnOk result (rows.new ≡ slice_set rows.old (v - 1) (insert (label_row rows.old v) place entry)) }
    ensures err { OnErr result (rows.new ≡ rows.old) }
{
    let mut free = rows.row(v).len();
    rows.push(
        v,
        Entry {
            pos: entry.pos,
            dist: entry.dist,
        },
    )?;
    while free > place {
        let moved = rows.row(v)[free - 1];
        rows.set(v, free, moved);
        free -= 1;
    }
    rows.set(v, place, entry);
    Ok(())
}
