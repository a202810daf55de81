//! Label lists without locks: a pool of cells, into which many workers put entries, and whose readers never wait.
//!
//! A [`Pool`] has a chain of cells for each node. Each worker has a [`PoolSeat`]: by it [`Pool::put`] links a new cell in
//! front of a chain, [`Pool::visit`] begins a walk of one, and [`Visit::next`] goes on, newest first. What a walk is to give
//! is fixed when it begins, whatever others put meanwhile. Every entry put meets a fact of the pool's own, its [`LinkFact`].
//! The words of the pool are a table of atomic_table under a rule (`rule`, `specs/Lawful`), which holds between any two steps
//! of any number of seats; how these are counted, split and joined is table_seats' matter. Its callers' clauses use
//! `specs/Seats` (`IsSeatOf`, `IsMet`, `HasPut`, `HasFound`) and `specs/Chains` (`seen_of`, `entries_at`, `IsRest`, `EndsIn`).
#![tactic(auto)]

mod gathering;
pub mod laws;
mod layout;
mod linking;
mod pool;
mod pool_put;
mod rule;
mod seat;
mod visit;

pub use pool::Pool;
pub use pool_put::PoolPut;
pub use rule::LinkFact;
pub use seat::PoolSeat;
pub use visit::Visit;
