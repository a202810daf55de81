//! Cleaning of rows.
ghost use Rattle.std.specs.Prelude.{◌≡◌, [], ◌∷◌, IfOk};
ghost use Rattle.walk_laws.specs.Worked.{entry as entry_of};

use super::{entry, expect_row, one_to_four};
use hub_index::RowList;
use label_clean::clean;
use std::alloc::Global;
use std::process::Abort;
use std::test::Fail;

/// The hub 1 of the square's nodes.
fn first_hub(alloc: Global) -> Result<RowList, Fail>
    ensures { IfOk result (λ rows. rows ≡
        (entry_of 0 0 ∷ []) ∷ (entry_of 0 1 ∷ []) ∷ (entry_of 0 2 ∷ []) ∷ (entry_of 0 1 ∷ []) ∷ []) }
{
    let first = vec![in alloc; entry(0, 0)]?;
    let second = vec![in alloc; entry(0, 1)]?;
    let third = vec![in alloc; entry(0, 2)]?;
    let fourth = vec![in alloc; entry(0, 1)]?;
    let rows = vec![in alloc; first, second, third, fourth]?;
    Ok(RowList::from_rows(rows))
}

/// What trees of the other three roots put, where that of 2 didn't see that of 1.
fn later_entries(alloc: Global) -> Result<RowList, Fail>
    ensures { IfOk result (λ rows. rows ≡
        [] ∷ (entry_of 1 0 ∷ []) ∷ (entry_of 1 1 ∷ entry_of 2 0 ∷ []) ∷ (entry_of 3 0 ∷ entry_of 1 2 ∷ entry_of 2 1 ∷ []) ∷ []) }
{
    let second = vec![in alloc; entry(1, 0)]?;
    let third = vec![in alloc; entry(1, 1), entry(2, 0)]?;
    let fourth = vec![in alloc; entry(3, 0), entry(1, 2), entry(2, 1)]?;
    let rows = vec![in alloc; Vec::new(alloc), second, third, fourth]?;
    Ok(RowList::from_rows(rows))
}

/// The rows of the square: positions and distances.
const SQUARE_ROWS: [&[(u32, u64)]; 4] = [
    &[(0, 0)],
    &[(0, 1), (1, 0)],
    &[(0, 2), (1, 1), (2, 0)],
    &[(0, 1), (2, 1), (3, 0)],
];

/// Compares rows with those of the square.
fn expect_square<R: Abort>(rt: &R, rows: &RowList) {
    assert_eq!(rt; rows.n(), 4);
    for (place, row) in SQUARE_ROWS.iter().enumerate() {
        expect_row(rt, rows, place as u32 + 1, row);
    }
}

/// Of the ten entries (1, 2) at node 4 alone is deleted, since the way of 1 + 1 over node 1 is no longer.
#[test]
fn nine_of_ten_entries_stay(rt: HostRuntime) -> Result<(), Fail> {
    let ranking = one_to_four(rt.alloc())?;
    let global = first_hub(rt.alloc())?;
    let raw = later_entries(rt.alloc())?;
    let rows = clean(&rt, rt.alloc(), &ranking, &global, &raw)?;
    expect_square(&rt, &rows);
    Ok(())
}
