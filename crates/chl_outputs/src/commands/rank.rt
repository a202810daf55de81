ghost use Rattle.std.specs.Prelude.{◌≡◌, ℕ, List, IfOk};
ghost use Rattle.chl_inputs.specs.Stages.{Conforms};
ghost use Rattle.chl_lines.specs.PrintedOrders.{order_lines as lines_of_nodes};
ghost use Rattle.chl_answers.specs.Commands.{IsRankingOf, rank_stage};

use super::text::text_output;
use chl_inputs::{Stop, read_graph};
use chl_lines::order_lines;
use chl_words::Name;
use desk_io::Desk;
use index_file::Pieces;
use node_contraction::contraction_order;
use std::alloc::{AllocError, Global};
use std::thread::Threads;
use walk_laws::Graph;

/// The order text of a ranking of the nodes of a graph under which its index is small.
pub fn rank_output<R: Threads + Sync, D: Desk>(
    rt: &R,
    alloc: Global,
    graph: &Name,
    desk: &mut D,
) -> Result<Pieces, Stop>
    ensures { Conforms D.Desk (rank_stage graph.now) result desk.old desk.new }
{
    let graph = read_graph(alloc, graph.text(), desk)?;
    text_output(alloc, ranked_text(rt, alloc, &graph))
}

/// The order text of the nodes.
fn ranked_text<R: Threads + Sync>(
    rt: &R,
    alloc: Global,
    graph: &Graph,
) -> Result<Vec<u8>, AllocError>
    ensures { IfOk result (λ text. (at : List ℕ) × IsRankingOf graph.now.n at × (text.items ≡ lines_of_nodes at)) }
{
    let ranking = contraction_order(rt, alloc, graph)?;
    order_lines(alloc, &ranking)
}
