ghost use Rattle.std.specs.Prelude.{◌≡◌, ◌⊎◌, List, Some, None, length, IfOk, IfErr};
ghost use Rattle.entry_vias.specs.RowVias.{HaveVias};
ghost use Rattle.hub_index.specs.WellFormed.{IsWellFormed};
ghost use Rattle.via_trace.specs.Traces.{IsTraceOf};
ghost use Rattle.via_trace.specs.declared.trace_answer.Trace.{Trace as AnyTrace};
ghost use Rattle.chl_inputs.specs.Inputs.{ArePairsWithin};
ghost use Rattle.chl_inputs.specs.Stages.{Conforms};
ghost use Rattle.chl_inputs.specs.declared.stop.Stop.TheVariants.{NoMemory};
ghost use Rattle.chl_answers.specs.Commands.{AreAnswers, first_stop, trace_stage, trace_stop, traces_stage};

use super::text::text_output;
use chl_inputs::{Stop, read_index, read_pairs};
use chl_lines::trace_lines;
use chl_words::Name;
use desk_io::Desk;
use dimacs_text::Pairs;
use entry_vias::TracedIndex;
use index_file::{Pieces, StoredIndex};
use std::alloc::Global;
use via_trace::{Trace, trace};

/// The lines of the walks of the pairs of a text by the vias of an index file, which must have them: shortest walks by way of the
/// highest-ranked node, where the index is the canonical hub labelling of a graph with its vias.
pub fn trace_output<D: Desk>(
    alloc: Global,
    index: &Name,
    pairs: &Name,
    desk: &mut D,
) -> Result<Pieces, Stop>
    ensures { Conforms D.Desk (trace_stage index.now pairs.now) result desk.old desk.new }
{
    let stored = read_index(alloc, index.text(), desk)?;
    match stored {
        StoredIndex::Plain(_) => Err(Stop::NoVias),
        StoredIndex::Traced(traced) => traces_output(alloc, &traced, pairs.text(), desk),
    }
}

/// The lines of the walks of the pairs of a text by the vias of an index.
fn traces_output<D: Desk>(
    alloc: Global,
    traced: &TracedIndex,
    pairs: &str,
    desk: &mut D,
) -> Result<Pieces, Stop>
    ensures { Conforms D.Desk (traces_stage traced.now pairs.now) result desk.old desk.new }
{
    let index = traced.index();
    let pairs = read_pairs(alloc, pairs, index.n(), desk)?;
    let traces = traces_of(alloc, traced, &pairs)?;
    text_output(alloc, trace_lines(alloc, pairs.list(), &traces))
}

/// The traces of the pairs, or the stop at the first one that is broken.
fn traces_of(alloc: Global, traced: &TracedIndex, pairs: &Pairs) -> Result<Vec<Trace>, Stop>
    requires index { IsWellFormed traced.now.order traced.now.rows }
    requires vias { HaveVias traced.now.rows traced.now.vias }
    requires within { ArePairsWithin (length traced.now.order) pairs.now }
    ensures ok { IfOk result (λ traces. AreAnswers (IsTraceOf traced.now) pairs.now traces.items × (first_stop trace_stop traces.items ≡ None)) }
    ensures err { IfErr result (λ stop. (stop ≡ NoMemory)
        ⊎ ((traces : List AnyTrace) × AreAnswers (IsTraceOf traced.now) pairs.now traces × (first_stop trace_stop traces ≡ Some stop))) }
{
    let mut traces = Vec::new(alloc);
    for pair in pairs.list() {
        let told = trace(alloc, traced, pair.0, pair.1)?;
        if let Some(stop) = stop_of(&told) {
            return Err(stop);
        }
        traces.push(told)?;
    }
    Ok(traces)
}

/// The stop at a trace that is broken.
fn stop_of(trace: &Trace) -> Option<Stop>
    ensures { result ≡ trace_stop trace.now }
{
    match trace {
        Trace::Unreachable | Trace::Walk { .. } => None,
        Trace::Broken { at, hub } => Some(Stop::Broken { at: *at, hub: *hub }),
    }
}
