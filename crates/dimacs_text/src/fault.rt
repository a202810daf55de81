ghost use Rattle.std.specs.Prelude.{◌≡◌};
ghost use Rattle.dimacs_text.specs.declared.fault.GrFault.TheVariants as graph;
ghost use Rattle.dimacs_text.specs.declared.fault.PairsFault.TheVariants as pairs;

use std::alloc::AllocError;
use thiserror::Error;

/// What is wrong with a line of a graph, pairs or edits text.
#[derive(Clone, Copy, Debug, PartialEq, Eq, Error)]
pub enum TextKind {
    /// The line begins with no word of the format.
    #[error("unknown line")]
    UnknownLine,
    /// There is no problem line, or none before this line.
    #[error("no problem line")]
    NoProblem,
    /// There was a problem line before.
    #[error("second problem line")]
    SecondProblem,
    /// A word in a number's place is no number.
    #[error("bad number")]
    BadNumber,
    /// The line has too few or too many words, or a wrong one.
    #[error("bad field")]
    BadField,
    /// A number in a node's place is no node.
    #[error("node out of range")]
    NodeRange,
    /// A weight is 0.
    #[error("zero weight")]
    ZeroWeight,
    /// A weight is above the limit.
    #[error("weight out of range")]
    WeightRange,
    /// A declared count is above the limit.
    #[error("too many")]
    TooMany,
    /// The text has `found` lines after its problem line, which declares `declared`.
    #[error("declared {declared}, found {found}")]
    Count { declared: u64, found: u64 },
}

/// The first fault of a text, and its line, which counts from 1.
#[derive(Clone, Copy, Debug, PartialEq, Eq, Error)]
#[error("line {line}: {kind}")]
pub struct TextFault {
    pub line: u64,
    pub kind: TextKind,
}

/// Why a text is no graph.
#[derive(Clone, Copy, Debug, PartialEq, Eq, Error)]
pub enum GrFault {
    /// The text has a fault.
    #[error("graph {0}")]
    Text(TextFault),
    /// There was no memory for it.
    #[error("out of memory")]
    NoMemory,
}

/// Why a text is no list of pairs, or none of edges, between given nodes.
#[derive(Clone, Copy, Debug, PartialEq, Eq, Error)]
pub enum PairsFault {
    /// The text has a fault.
    #[error("{0}")]
    Text(TextFault),
    /// There was no memory for it.
    #[error("out of memory")]
    NoMemory,
}

impl From<AllocError> for GrFault {
    ghost from_gives = { λ _ fault. fault ≡ graph.NoMemory };

    fn from(_error: AllocError) -> GrFault {
        GrFault::NoMemory
    }
}

impl From<AllocError> for PairsFault {
    ghost from_gives = { λ _ fault. fault ≡ pairs.NoMemory };

    fn from(_error: AllocError) -> PairsFault {
        PairsFault::NoMemory
    }
}
