ghost use Rattle.std.specs.Prelude.{◌≡◌};
ghost use Rattle.order_text.specs.declared.order_fault.OrderFault.TheVariants.{NoMemory};

use std::alloc::AllocError;
use thiserror::Error;

/// Why a text is no ranking of the nodes 1..n, or no list of such nodes. Lines count from 1. The text of a fault stands right
/// behind the word for what was read, such as `order`.
#[derive(Clone, Copy, Debug, PartialEq, Eq, Error)]
pub enum OrderFault {
    /// A line holds more than one word.
    #[error(" line {line}: bad field")]
    BadField { line: u64 },
    /// A line holds no number.
    #[error(" line {line}: bad number")]
    BadNumber { line: u64 },
    /// A number is outside 1..n.
    #[error(" line {line}: node out of range")]
    NodeRange { line: u64 },
    /// An earlier line names the node too, which may not repeat.
    #[error(" line {line}: repeated node {node}")]
    Repeated { line: u64, node: u32 },
    /// The text of a ranking names `found` nodes, fewer than the `wanted` ones.
    #[error(": wanted {wanted}, found {found}")]
    Count { wanted: u32, found: u32 },
    /// There was no memory for it.
    #[error(": out of memory")]
    NoMemory,
}

impl From<AllocError> for OrderFault {
    ghost from_gives = { λ _ fault. fault ≡ NoMemory };

    fn from(_error: AllocError) -> OrderFault {
        OrderFault::NoMemory
    }
}
