//! [`MemDesk`]: a desk in memory, for tests. Its files are a table, what is said is kept, and calls of one's choice fail.
//! It stands on desk_io (`Desk`). Its callers' clauses use `Memory` (specs/Memory).
#![tactic(auto)]

mod calls;
mod desk;

pub use calls::Call;
pub use desk::MemDesk;
