ghost use Rattle.std.specs.Prelude.{◌≡◌};
ghost use Rattle.chl_inputs.specs.Stops.{HasMemoryOnce};
ghost use Rattle.chl_answers.specs.Statuses.{number_of, status_of, CarriesFaultsAlone};
ghost use Rattle.chl_inputs.specs.declared.stop.Stop.{Stop as AnyStop};

use chl_inputs::{NotOf, Stop};
use dimacs_text::TextFault;
use index_audit::Audit;
use index_file::IndexFault;
use order_text::OrderFault;
use thiserror::Error;

/// How a run of the program ended. Its text is the line that the program prints on standard error.
#[derive(Clone, Copy, Debug, PartialEq, Eq, Error)]
pub enum Status {
    /// The output was written.
    #[error("chl: done")]
    Done,
    /// The index is not that of the graph under the order, or its vias are wrong, or an index that is to be upgraded, or to which
    /// edges are to be opened, isn't the graph's. This is the first thing that is wrong with it.
    #[error("chl: index differs: {0}")]
    Differs(Audit),
    /// The words are no command.
    #[error("chl: usage")]
    Usage,
    /// The graph text has this first fault.
    #[error("chl: graph {0}")]
    GraphText(TextFault),
    /// The order text has this first fault.
    #[error("chl: order{0}")]
    OrderText(OrderFault),
    /// The pairs text has this first fault.
    #[error("chl: pairs {0}")]
    PairsText(TextFault),
    /// The index file has this first fault.
    #[error("chl: {0}")]
    IndexBytes(IndexFault),
    /// The node `hub` is a hub of `v` at a distance of 2^64 or more, which no index keeps: the first such pair, by rising `v`, and
    /// then by falling rank of `hub`.
    #[error("chl: overflow: hub {hub} at {v}")]
    Overflow { v: u32, hub: u32 },
    /// An input could not be opened or read.
    #[error("chl: read failed")]
    ReadFault,
    /// The output could not be written.
    #[error("chl: write failed")]
    WriteFault,
    /// There was no memory for it.
    #[error("chl: out of memory")]
    NoMemory,
    /// The index, which is to be of the graph, is of another one.
    #[error("chl: index not of graph: {0}")]
    NotOfGraph(NotOf),
    /// An input has more than 2^48 bytes, and none of its lines or fields within these was refused.
    #[error("chl: input too long")]
    TooLong,
    /// The index, by whose vias walks are asked for, has none.
    #[error("chl: index has no vias")]
    NoVias,
    /// The vias of the index lead nowhere: from the node `at` no step leads nearer to the node `hub`.
    #[error("chl: trace broken: hub {hub} at {at}")]
    Broken { at: u32, hub: u32 },
    /// The text of the edges that are opened has this first fault.
    #[error("chl: edits {0}")]
    EditsText(TextFault),
    /// The text of the points has this first fault.
    #[error("chl: points{0}")]
    PointsText(OrderFault),
    /// The text of the sources has this first fault.
    #[error("chl: from{0}")]
    FromText(OrderFault),
}

impl Status {
    /// The exit status of the program.
    pub fn number(&self) -> u8
        ensures { result ≡ number_of self.now }
    {
        match self {
            Status::Done => 0,
            Status::Differs(_) => 1,
            Status::Usage => 2,
            Status::GraphText(_) => 3,
            Status::OrderText(_) => 4,
            Status::PairsText(_) => 5,
            Status::IndexBytes(_) => 6,
            Status::Overflow { .. } => 7,
            Status::ReadFault => 8,
            Status::WriteFault => 9,
            Status::NoMemory => 10,
            Status::NotOfGraph(_) => 11,
            Status::TooLong => 12,
            Status::NoVias => 13,
            Status::Broken { .. } => 14,
            Status::EditsText(_) => 15,
            Status::PointsText(_) => 16,
            Status::FromText(_) => 17,
        }
    }
}

/// The status of a run whose command has no output.
pub fn stopped(stop: Stop) -> Status
    requires { HasMemoryOnce stop }
    ensures status { result ≡ status_of stop }
    ensures faults_alone { CarriesFaultsAlone result }
{
    match stop {
        Stop::Graph(fault) => Status::GraphText(fault),
        Stop::Overflow { v, hub } => Status::Overflow { v, hub },
        Stop::Order(fault) => Status::OrderText(fault),
        Stop::Pairs(fault) => Status::PairsText(fault),
        Stop::Points(fault) => Status::PointsText(fault),
        Stop::From(fault) => Status::FromText(fault),
        Stop::Edits(fault) => Status::EditsText(fault),
        Stop::Index(fault) => Status::IndexBytes(fault),
        Stop::Differs(audit) => Status::Differs(audit),
        Stop::NotOfGraph(not_of) => Status::NotOfGraph(not_of),
        Stop::NoVias => Status::NoVias,
        Stop::Broken { at, hub } => Status::Broken { at, hub },
        Stop::TooLong => Status::TooLong,
        Stop::ReadFailed => Status::ReadFault,
        Stop::NoMemory => Status::NoMemory,
    }
}
