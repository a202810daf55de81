//! The pool of a superstep before it begins.
ghost use Rattle.std.specs.Prelude.{◌≡◌, ◌*◌, ◌/◌, ◌^◌, ◌≤◌, min};

use gll_table::{Build, BuildContext};
use label_pool::{Pool, PoolSeat};
use pool_view::Fits;
use std::alloc::AllocError;
use std::marker::{Model, PhantomData};

/// The most cells that the pool of a superstep has.
const MOST_CELLS: u64 = 1_048_576;

/// How many cells a block of a large pool has.
const BLOCK: u32 = 64;

/// A pool for the next superstep, which has a seat for each worker of the build. Contracts see for how many.
#[derive(Drop)]
pub struct NextPool<B: Build> {
    pub(crate) pool: Pool<Fits>,
    pub(crate) seat: PoolSeat<Fits>,
    pub(crate) of: PhantomData<B>,
}

impl<B: Build> Model for NextPool<B> {
    ghost use Rattle.std.specs.Prelude.{ℕ};
    ghost use Rattle.gll_superstep.specs.Workers.{IsNextPool};

    ghost Value = { ℕ };

    ghost view = { λ _. B.workers };

    ghost invariant = { λ p. IsNextPool B.edges B.order B.workers p.pool p.seat };
}

impl<B: Build> NextPool<B> {
    /// A pool for the build's workers. The only error is that memory ran out.
    pub fn new(context: &BuildContext<'_, B>) -> Result<NextPool<B>, AllocError> {
        let workers = context.workers;
        let fact = Fits::of(context.graph, context.ranking);
        let cells = cells_for(workers, context.cut);
        let block = block_for(cells, context.cut, workers);
        let (pool, seat) = Pool::in_blocks(
            context.alloc,
            context.graph.n(),
            cells / block,
            block,
            workers,
            fact,
        )?;
        Ok(NextPool {
            pool,
            seat,
            of: PhantomData,
        })
    }
}

/// A pool for the next superstep, where one was made.
pub struct PoolSlot<B: Build> {
    made: Option<NextPool<B>>,
}

// Written out, so that crates above prove no drop of what it holds.
impl<B: Build> Drop for PoolSlot<B> {
    fn drop(self) {
        let PoolSlot { made: _ } = self;
    }
}

impl<B: Build> PoolSlot<B> {
    /// None.
    pub fn empty() -> PoolSlot<B> {
        PoolSlot { made: None }
    }

    /// A pool for the build's workers. The only error is that memory ran out.
    pub fn new(context: &BuildContext<'_, B>) -> Result<PoolSlot<B>, AllocError> {
        Ok(PoolSlot {
            made: Some(NextPool::new(context)?),
        })
    }

    /// Whether there is one.
    pub fn is_made(&self) -> bool {
        self.made.is_some()
    }

    /// The pool, or where there is none a new one. The only error is that memory ran out.
    pub(crate) fn or_new(self, context: &BuildContext<'_, B>) -> Result<NextPool<B>, AllocError> {
        let mut slot = self;
        match slot.made.take() {
            Some(next_pool) => Ok(next_pool),
            None => NextPool::new(context),
        }
    }
}

/// How many cells the pool of a superstep has: the workers' cuts together, up to a bound.
fn cells_for(workers: u32, cut: u32) -> u32
    requires { (1 ≤ workers) × (1 ≤ cut) }
    ensures cells { result ≡ min (workers * cut) 1048576 }
    ensures within { (1 ≤ result) × (result ≤ 2 ^ 31) }
{
    (u64::from(workers) * u64::from(cut)).min(MOST_CELLS) as u32
}

/// How many of the cells a worker draws from the pool at once: one, unless they can be drawn in blocks that take no more than
/// a worker's cut.
fn block_for(cells: u32, cut: u32, workers: u32) -> u32
    requires cells { cells ≡ min (workers * cut) 1048576 }
    requires workers { (1 ≤ workers) × (workers ≤ 64) }
    requires cut { 1 ≤ cut }
    ensures some { 1 ≤ result }
    ensures whole { cells / result * result ≡ cells }
    ensures each { workers * result ≤ cells }
{
    if cut >= BLOCK && cells % BLOCK == 0 {
        return BLOCK;
    }
    1
}
