ghost use Rattle.std.specs.Prelude.{◌≡◌, ℕ, ◌≤◌, ◌++◌, length, IfOk};
ghost use Rattle.walk_laws.specs.Labelling.{label_row};
ghost use Rattle.label_clean.specs.RawRows.{both_rows};

use hub_index::RowList;
use std::alloc::{AllocError, Global};
use walk_laws::Entry;

/// The row of the node `v`, a number from 1, which is empty where there are fewer nodes.
fn row_or_none(rows: &RowList, v: u32) -> &[Entry]
    requires { 1 ≤ v }
    ensures { result.now ≡ label_row rows.now v }
{
    if v <= rows.n() {
        return rows.row(v);
    }
    &[]
}

/// The rows of both tables together, as many as there are raw rows. The only error is that memory ran out.
pub fn together(alloc: Global, global: &RowList, raw: &RowList) -> Result<RowList, AllocError>
    ensures size { IfOk result (λ rows. length rows ≡ length raw.now) }
    ensures rows { IfOk result (λ rows. (v : ℕ) → 1 ≤ v → v ≤ length raw.now → label_row rows v ≡ both_rows global.now raw.now v) }
{
    let n = raw.n();
    let mut rows = Vec::with_capacity(alloc, n as usize)?;
    for place in 0..n {
        rows.push(both(alloc, row_or_none(global, place + 1), raw.row(place + 1))?)?;
    }
    Ok(RowList::from_rows(rows))
}

/// A row after another. The only error is that memory ran out.
fn both(alloc: Global, first: &[Entry], second: &[Entry]) -> Result<Vec<Entry>, AllocError>
    ensures { IfOk result (λ row. row.items ≡ first.now ++ second.now) }
{
    let mut row = Vec::with_capacity(alloc, first.len() + second.len())?;
    row.extend_from_slice(first)?;
    row.extend_from_slice(second)?;
    Ok(row)
}
