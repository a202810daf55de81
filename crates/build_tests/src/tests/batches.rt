//! Batches of roots, and the hands that take them.

use super::gates::{Order, Watch};
use super::*;
use plant_build::{deal, settle};

/// The first hand takes its own batches, and then steals those of the other.
#[test]
fn a_hand_takes_all_batches(rt: HostRuntime) -> Result<(), Fail> {
    let (mut hands, left) = deal(rt.alloc(), 4, 2)?;
    assert!(rt; left.is_empty());
    let first = &mut hands[0];
    for batch in &[Some(0), Some(2), Some(1), Some(3), None] {
        assert_eq!(rt; first.take(&rt), *batch);
    }
    Ok(())
}

/// Of five batches three lie in the first deque and two in the second.
#[test]
fn what_no_hand_took_is_left(rt: HostRuntime) -> Result<(), Fail> {
    let (hands, back) = deal(rt.alloc(), 5, 2)?;
    assert!(rt; back.is_empty());
    let left = settle(rt.alloc(), hands)?;
    assert_eq!(rt; left.len(), 2);
    assert_eq!(rt; left.first(), Some(&3));
    assert_eq!(rt; left.last(), Some(&2));
    Ok(())
}

/// Each of 1,089 batches of one root is planted once, and by a worker: the tree of root 0 waits for all others, and its worker
/// with it, while the caller would plant only after that what no worker took.
#[test]
fn workers_plant_more_than_a_thousand_batches(rt: HostRuntime) -> Result<(), Fail> {
    let made = grid(&rt, rt.alloc(), 33)?;
    let watch = Watch::new(rt.alloc(), 1089, Order::FirstAfterAll)?;
    let built = Built {
        by: By::Plant,
        workers: 3,
        cut: 1,
        eta: 0,
    };
    let index = build(&rt, &made.0, &made.1, built, &watch)?;
    assert!(rt; watch.all_came());
    for p in 0..1089 {
        assert_eq!(rt; watch.begun.at(p), 1, "{p}");
    }
    expect_file(&rt, &made.0, &made.1, &index)
}
