//! Pools, by one seat and by two.
ghost use Rattle.std.specs.Prelude.{◌^◌, ◌<◌};

use label_pool::{LinkFact, Pool, PoolPut};
use std::test::Fail;
use walk_laws::{Dist, Entry};

/// The fact that always holds.
#[derive(Clone, Copy)]
struct Anything;

impl LinkFact for Anything {
    ghost fact = { λ _ _ _. Unit {0} };
}

// An entry at a position from 0.
fn entry(pos: u32) -> Entry
    ensures { result.dist < 2 ^ 64 }
{
    Entry {
        pos,
        dist: Dist::of_u64(u64::from(pos) + 7),
    }
}

#[test]
fn one_cell_takes_one_entry(rt: HostRuntime) -> Result<(), Fail> {
    let (pool, mut seat) = Pool::new(rt.alloc(), 2, 1, 1, Anything)?;
    assert_eq!(rt; seat.left(), 0);
    assert_eq!(rt; pool.put(&rt, &mut seat, 2, entry(3)), PoolPut::Put);
    assert_eq!(rt;
        pool.put(&rt, &mut seat, 2, entry(4)),
        PoolPut::Full { cell: 1, cells: 1 }
    );
    let mut walk = pool.visit(&mut seat, 2);
    assert_eq!(rt; walk.next(&pool, &mut seat), Some(entry(3)));
    assert_eq!(rt; walk.next(&pool, &mut seat), None);
    let rows = pool.close(seat)?;
    assert_eq!(rt; rows.row(2), [entry(3)].as_slice());
    assert!(rt; rows.row(1).is_empty());
    Ok(())
}

/// The second seat finds what the first one put before it has put anything itself.
#[test]
fn a_seat_finds_what_another_put(rt: HostRuntime) -> Result<(), Fail> {
    let (pool, mut one) = Pool::new(rt.alloc(), 3, 4, 2, Anything)?;
    let mut two = pool.split(&mut one, 0);
    assert_eq!(rt; pool.put(&rt, &mut one, 3, entry(1)), PoolPut::Put);
    let mut walk = pool.visit(&mut two, 3);
    assert_eq!(rt; walk.next(&pool, &mut two), Some(entry(1)));
    Ok(())
}
