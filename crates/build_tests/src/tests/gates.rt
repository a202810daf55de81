//! A gate that counts what it is told of each root, and that may hold one root's tree up until another one's has begun or ended.

use desk_io::Gate;
use std::alloc::{AllocError, Global};
use std::sync::atomic::{AtomicU32, Ordering};
use std::thread::yield_now;

/// Which tree waits for which, whoever grows them. Roots are told by their positions, from 0.
#[derive(Clone, Copy, Debug)]
pub enum Order {
    /// None waits.
    Free,
    /// The tree of root 0 begins when that of root 1 has ended.
    SecondBeforeFirst,
    /// The tree of root 1 grows when that of root 0 has ended; but it has begun before the worker of root 0 goes on.
    FirstBeforeSecond,
    /// The tree of root 1 grows when that of root 2 has ended; but it has begun before the worker of root 0 goes on.
    ThirdBeforeSecond,
    /// The tree of root 0 begins when those of all others have ended.
    FirstAfterAll,
    /// Each tree begins when that of the root before it has ended.
    InTurn,
}

/// A count for each root.
#[derive(Drop)]
pub struct Counts {
    of: Vec<AtomicU32>,
}

/// How many turns a wait has.
const TURNS: u32 = 50_000_000;

impl Counts {
    fn new(alloc: Global, n: u32) -> Result<Counts, AllocError> {
        let mut of = Vec::new(alloc);
        for _ in 0..n {
            of.push(AtomicU32::new(0))?;
        }
        Ok(Counts { of })
    }

    fn add(&self, p: u32, more: u32) {
        if let Some(count) = self.of.get(p as usize) {
            count.fetch_add(more, Ordering::SeqCst);
        }
    }

    /// The count of a root, and 0 where there is no such root.
    pub fn at(&self, p: u32) -> u32 {
        match self.of.get(p as usize) {
            Some(count) => count.load(Ordering::SeqCst),
            None => 0,
        }
    }

    /// Whether the count of a root has risen before the turns ran out.
    fn rises(&self, p: u32) -> bool {
        for _ in 0..TURNS {
            if self.at(p) > 0 {
                return true;
            }
            yield_now();
        }
        false
    }
}

/// How often each root's tree began and ended, how many entries it put, and whether a wait ran out.
#[derive(Drop)]
pub struct Watch {
    order: Order,
    n: u32,
    pub begun: Counts,
    pub ended: Counts,
    pub puts: Counts,
    ran_out: AtomicU32,
}

impl Watch {
    pub fn new(alloc: Global, n: u32, order: Order) -> Result<Watch, AllocError> {
        Ok(Watch {
            order,
            n,
            begun: Counts::new(alloc, n)?,
            ended: Counts::new(alloc, n)?,
            puts: Counts::new(alloc, n)?,
            ran_out: AtomicU32::new(0),
        })
    }

    /// Whether all that waited saw what they waited for.
    pub fn all_came(&self) -> bool {
        self.ran_out.load(Ordering::SeqCst) == 0
    }

    /// Waits until the count of a root has risen, unless a wait has run out.
    fn wait_for(&self, counts: &Counts, p: u32) {
        if self.all_came() && !counts.rises(p) {
            self.ran_out.store(1, Ordering::SeqCst);
        }
    }
}

impl Gate for Watch {
    fn begins(&self, p: u32) {
        self.begun.add(p, 1);
        match (self.order, p) {
            (Order::SecondBeforeFirst, 0) => self.wait_for(&self.ended, 1),
            (Order::FirstBeforeSecond, 1) => self.wait_for(&self.ended, 0),
            (Order::ThirdBeforeSecond, 1) => self.wait_for(&self.ended, 2),
            (Order::FirstAfterAll, 0) => {
                for other in 1..self.n {
                    self.wait_for(&self.ended, other);
                }
            }
            (Order::InTurn, 1..) => self.wait_for(&self.ended, p - 1),
            _ => {}
        }
    }

    fn ends(&self, p: u32, puts: u32) {
        self.puts.add(p, puts);
        self.ended.add(p, 1);
        match (self.order, p) {
            (Order::FirstBeforeSecond, 0) => self.wait_for(&self.begun, 1),
            (Order::ThirdBeforeSecond, 0) => self.wait_for(&self.begun, 1),
            _ => {}
        }
    }
}
