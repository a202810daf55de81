ghost use Rattle.std.specs.Prelude.{◌≡◌};
ghost use Rattle.chl_inputs.specs.declared.stop.Stop.TheVariants.{NoMemory};

use dimacs_text::TextFault;
use index_audit::Audit;
use index_file::IndexFault;
use order_text::OrderFault;
use std::alloc::{AllocError, AllocFailed};
use thiserror::Error;

/// How it shows that an index is of another graph. Its text is what the program says of it.
#[derive(Clone, Copy, Debug, PartialEq, Eq, Error)]
pub enum NotOf {
    /// The graph has `graph` nodes, and the index has `index`.
    #[error("graph has {graph} nodes, index has {index}")]
    Sizes { graph: u32, index: u32 },
    /// From `at` no neighbour leads on to `to` as the rows of the index have it.
    #[error("stuck at {at} to {to}")]
    Stuck { at: u32, to: u32 },
}

/// Why a command has no output.
#[derive(Clone, Copy, Debug, PartialEq, Eq)]
pub enum Stop {
    /// The graph text has this first fault.
    Graph(TextFault),
    /// The order text has this first fault.
    Order(OrderFault),
    /// The pairs text has this first fault.
    Pairs(TextFault),
    /// The edits text has this first fault.
    Edits(TextFault),
    /// The text of the points has this first fault.
    Points(OrderFault),
    /// The text of the sources has this first fault.
    From(OrderFault),
    /// The index file has this first fault.
    Index(IndexFault),
    /// A hub of the graph under the order is farther than an index can tell: the node `hub` is 2^64 or more from the node `v`,
    /// the first such pair by rising `v` and then by falling rank of the hub.
    Overflow { v: u32, hub: u32 },
    /// The index is not that of the graph under the order, or its vias are wrong, or an index that is to be upgraded, or to which
    /// edges are to be opened, isn't the graph's. This is the first thing that is wrong with it.
    Differs(Audit),
    /// The index, which is to be of the graph, is of another one.
    NotOfGraph(NotOf),
    /// The index, by whose vias walks are asked for, has none.
    NoVias,
    /// The vias of the index lead nowhere: from the node `at` no step leads nearer to the node `hub`.
    Broken { at: u32, hub: u32 },
    /// An input has more bytes than the limit, and none of its lines or fields within the limit was refused.
    TooLong,
    /// An input could not be opened or read.
    ReadFailed,
    /// There was no memory.
    NoMemory,
}

impl From<AllocError> for Stop {
    ghost from_gives = { λ _ stop. stop ≡ NoMemory };

    fn from(_error: AllocError) -> Stop {
        Stop::NoMemory
    }
}

impl<T: Drop> From<AllocFailed<T>> for Stop {
    ghost from_gives = { λ _ stop. stop ≡ NoMemory };

    fn from(_error: AllocFailed<T>) -> Stop {
        Stop::NoMemory
    }
}
