ghost use Rattle.chl_inputs.specs.Stages.{Conforms};
ghost use Rattle.chl_answers.specs.Commands.{list_stage};

use crate::labelling::{labelling, unbuilt};
use chl_inputs::{Stop, read_graph, read_order};
use chl_lines::row_lines;
use chl_outputs::text_output;
use chl_words::{By, Construction, Name};
use desk_io::{Desk, FreeGate};
use index_file::Pieces;
use std::alloc::Global;
use std::sync::Wait;
use std::thread::Threads;

/// The lines of the rows of the canonical hub labelling of a graph under an order, planted on one thread.
pub fn list_output<R: Threads + Wait + Sync, D: Desk>(
    rt: &R,
    alloc: Global,
    graph: &Name,
    order: &Name,
    desk: &mut D,
) -> Result<Pieces, Stop>
    ensures { Conforms D.Desk (list_stage graph.now order.now) result desk.old desk.new }
{
    let alone = Construction {
        by: By::Plant,
        workers: 1,
        cut: 1,
        eta: 0,
    };
    let graph = read_graph(alloc, graph.text(), desk)?;
    let ranking = read_order(alloc, order.text(), graph.n(), desk)?;
    let index = labelling(rt, alloc, &graph, &ranking, alone, &FreeGate).map_err(unbuilt)?;
    text_output(alloc, row_lines(alloc, &index))
}
