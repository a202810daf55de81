ghost use Rattle.std.specs.Prelude.{◌≡◌};
ghost use Rattle.chl_inputs.specs.Stops.{end_stop, opening_stop};

use crate::stop::Stop;
use desk_io::{DeskFault, ReadEnd, Reader};
use dimacs_text::{EditsReader, GrFault, GrReader, PairsFault, PairsReader};
use index_file::{IndexFault, IndexReader};
use order_text::{NodesReader, OrderFault, OrderReader};

/// A kind of input, which such a reader reads, and at whose faults a command stops.
pub trait StopsAt<R: Reader> {
    ghost use Rattle.std.specs.Prelude.{◌≡◌, ◌≢◌};
    ghost use Rattle.chl_inputs.specs.Stops.{HasMemoryOnce};
    ghost use Rattle.chl_inputs.specs.declared.stop.Stop.{Stop as AnyStop};
    ghost use Rattle.chl_inputs.specs.declared.stop.Stop.TheVariants.{ReadFailed, NoMemory};

    /// How the command stops at a fault.
    ghost stop_of: { R.Fault → AnyStop };

    /// How the command stops at a fault.
    fn stop(fault: R::Fault) -> Stop
        ensures { result ≡ stop_of fault };

    /// Want of memory is no fault of the input.
    ghost want: { stop_of R.no_memory ≡ NoMemory };

    ghost memory_once: { (fault : R.Fault) → HasMemoryOnce (stop_of fault) };

    /// And a fault is no failed call.
    ghost no_call: { (fault : R.Fault) → stop_of fault ≢ ReadFailed };
}

/// A graph text.
pub struct GraphText;

impl StopsAt<GrReader> for GraphText {
    ghost use Rattle.std.specs.Prelude.{refl};
    ghost use Rattle.chl_inputs.specs.Stops.{graph_stop, graph_memory_once, graph_no_call};

    ghost stop_of = { graph_stop };

    fn stop(fault: GrFault) -> Stop {
        match fault {
            GrFault::Text(fault) => Stop::Graph(fault),
            GrFault::NoMemory => Stop::NoMemory,
        }
    }

    ghost want = { refl };

    ghost memory_once = { graph_memory_once };

    ghost no_call = { graph_no_call };
}

/// An order text.
pub struct OrderText;

impl StopsAt<OrderReader> for OrderText {
    ghost use Rattle.std.specs.Prelude.{refl};
    ghost use Rattle.chl_inputs.specs.Stops.{order_stop, order_memory_once, order_no_call};

    ghost stop_of = { order_stop };

    fn stop(fault: OrderFault) -> Stop {
        match fault {
            OrderFault::NoMemory => Stop::NoMemory,
            fault => Stop::Order(fault),
        }
    }

    ghost want = { refl };

    ghost memory_once = { order_memory_once };

    ghost no_call = { order_no_call };
}

/// A pairs text.
pub struct PairsText;

impl StopsAt<PairsReader> for PairsText {
    ghost use Rattle.std.specs.Prelude.{refl};
    ghost use Rattle.chl_inputs.specs.Stops.{pairs_stop, pairs_memory_once, pairs_no_call};

    ghost stop_of = { pairs_stop };

    fn stop(fault: PairsFault) -> Stop {
        match fault {
            PairsFault::Text(fault) => Stop::Pairs(fault),
            PairsFault::NoMemory => Stop::NoMemory,
        }
    }

    ghost want = { refl };

    ghost memory_once = { pairs_memory_once };

    ghost no_call = { pairs_no_call };
}

/// An edits text.
pub struct EditsText;

impl StopsAt<EditsReader> for EditsText {
    ghost use Rattle.std.specs.Prelude.{refl};
    ghost use Rattle.chl_inputs.specs.Stops.{edits_stop, edits_memory_once, edits_no_call};

    ghost stop_of = { edits_stop };

    fn stop(fault: PairsFault) -> Stop {
        match fault {
            PairsFault::Text(fault) => Stop::Edits(fault),
            PairsFault::NoMemory => Stop::NoMemory,
        }
    }

    ghost want = { refl };

    ghost memory_once = { edits_memory_once };

    ghost no_call = { edits_no_call };
}

/// The text of the points.
pub struct PointsText;

impl StopsAt<NodesReader> for PointsText {
    ghost use Rattle.std.specs.Prelude.{refl};
    ghost use Rattle.chl_inputs.specs.Stops.{points_stop, points_memory_once, points_no_call};

    ghost stop_of = { points_stop };

    fn stop(fault: OrderFault) -> Stop {
        match fault {
            OrderFault::NoMemory => Stop::NoMemory,
            fault => Stop::Points(fault),
        }
    }

    ghost want = { refl };

    ghost memory_once = { points_memory_once };

    ghost no_call = { points_no_call };
}

/// The text of the sources.
pub struct SourcesText;

impl StopsAt<NodesReader> for SourcesText {
    ghost use Rattle.std.specs.Prelude.{refl};
    ghost use Rattle.chl_inputs.specs.Stops.{sources_stop, sources_memory_once, sources_no_call};

    ghost stop_of = { sources_stop };

    fn stop(fault: OrderFault) -> Stop {
        match fault {
            OrderFault::NoMemory => Stop::NoMemory,
            fault => Stop::From(fault),
        }
    }

    ghost want = { refl };

    ghost memory_once = { sources_memory_once };

    ghost no_call = { sources_no_call };
}

/// An index file.
pub struct IndexBytes;

impl StopsAt<IndexReader> for IndexBytes {
    ghost use Rattle.std.specs.Prelude.{refl};
    ghost use Rattle.chl_inputs.specs.Stops.{index_stop, index_memory_once, index_no_call};

    ghost stop_of = { index_stop };

    fn stop(fault: IndexFault) -> Stop {
        match fault {
            IndexFault::NoMemory => Stop::NoMemory,
            fault => Stop::Index(fault),
        }
    }

    ghost want = { refl };

    ghost memory_once = { index_memory_once };

    ghost no_call = { index_no_call };
}

/// How a command stops at the end of a reading.
pub fn stop_at_end<R: Reader, K: StopsAt<R>>(end: ReadEnd<R::Fault>) -> Stop
    ensures { result ≡ end_stop K.stop_of end }
{
    match end {
        ReadEnd::Failed => Stop::ReadFailed,
        ReadEnd::TooLong => Stop::TooLong,
        ReadEnd::NoMemory => Stop::NoMemory,
        ReadEnd::Refused(fault) => K::stop(fault),
    }
}

/// How a command stops where an input can't be opened.
pub fn stop_at_opening(fault: DeskFault) -> Stop
    ensures { result ≡ opening_stop fault }
{
    match fault {
        DeskFault::Failed => Stop::ReadFailed,
        DeskFault::NoMemory => Stop::NoMemory,
    }
}
