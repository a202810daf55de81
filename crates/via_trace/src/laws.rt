//! The laws of traces. Each function does nothing: its contract is the law, over every graph and every index with vias.
ghost use Rattle.via_trace.specs.Laws.{ATraceIsALeastWalk, EachPairHasATrace, TheTraceIsOne};

/// Where the rows are the canonical hub labelling of a graph, with its vias, the trace is a shortest walk by way of the
/// highest-ranked node on any.
pub fn a_trace_is_a_least_walk()
    ensures { ATraceIsALeastWalk }
{}

/// Two nodes of an index with vias have a trace, whatever the rows and vias are.
pub fn each_pair_has_a_trace()
    ensures { EachPairHasATrace }
{}

/// And only one.
pub fn the_trace_is_one()
    ensures { TheTraceIsOne }
{}
