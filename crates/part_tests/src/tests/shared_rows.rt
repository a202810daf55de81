//! Rows that two seats write.

use super::{entry, one_to_four, square_graph};
use hub_index::{Offer, RootTable, RowView};
use label_rows::{RowHand, Rows};
use std::test::Fail;

/// The second seat finds what the first one put before it has put anything itself.
#[test]
fn what_one_seat_put_another_finds(rt: HostRuntime) -> Result<(), Fail> {
    let graph = square_graph(rt.alloc())?;
    let ranking = one_to_four(rt.alloc())?;
    let (rows, mut one) = Rows::new(rt.alloc(), &graph, &ranking, 2)?;
    let two = rows.split(&mut one, 0);
    let mut table = RootTable::new(rt.alloc(), 4)?;
    let mut first = RowHand::new(&rt, &rows, one);
    let mut second = RowHand::new(&rt, &rows, two);
    assert_eq!(rt; first.offer(4, entry(0, 1), &table), Offer::Put);
    second.load_root(4, &mut table);
    assert_eq!(rt; table.get(0), Some(1));
    Ok(())
}
