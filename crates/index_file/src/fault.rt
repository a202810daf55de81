ghost use Rattle.std.specs.Prelude.{◌≡◌};
ghost use Rattle.index_file.specs.declared.fault.IndexFault.TheVariants.{NoMemory};

use std::alloc::{AllocError, AllocFailed};
use thiserror::Error;

/// Why bytes are no index file. Each field is judged as soon as it is whole, from left to right.
#[derive(Clone, Copy, Debug, PartialEq, Eq, Error)]
pub enum IndexFault {
    /// The byte at the offset `at`, below 7, isn't its letter of `CHLABEL`.
    #[error("index: magic {at}")]
    Magic { at: u64 },
    /// The byte after the letters is neither 1 nor 2.
    #[error("index: version {byte}")]
    Version { byte: u8 },
    /// There are more than 2^30 nodes.
    #[error("index: size {n}")]
    Size { n: u32 },
    /// The node at this place of the order, from 0, is outside 1..n or stood before.
    #[error("index: order {place}")]
    Order { place: u32 },
    /// The row of the node `v` has no entry; or the position at this place, from 0, isn't above the one before it; or it
    /// isn't that of `v` at the last place, or isn't below that of `v` at another.
    #[error("index: row {v} {place}")]
    Row { v: u32, place: u32 },
    /// In the row of the node `v` the last distance isn't 0, or the one at another place, from 0, is 0.
    #[error("index: distance {v} {place}")]
    Distance { v: u32, place: u32 },
    /// In the row of the node `v`, of a file of version 2, the last via isn't 0, or the one at another place, from 0, is 0, `v`
    /// or above the number of nodes.
    #[error("index: via {v} {place}")]
    Via { v: u32, place: u32 },
    /// A byte follows the end; `at` is its offset.
    #[error("index: long {at}")]
    Long { at: u64 },
    /// The bytes end at the offset `at`, before the end of the index.
    #[error("index: short {at}")]
    Short { at: u64 },
    /// There was no memory for it.
    #[error("out of memory")]
    NoMemory,
}

impl From<AllocError> for IndexFault {
    ghost from_gives = { λ _ fault. fault ≡ NoMemory };

    fn from(_error: AllocError) -> IndexFault {
        IndexFault::NoMemory
    }
}

impl<T: Drop> From<AllocFailed<T>> for IndexFault {
    ghost from_gives = { λ _ fault. fault ≡ NoMemory };

    fn from(_error: AllocFailed<T>) -> IndexFault {
        IndexFault::NoMemory
    }
}
