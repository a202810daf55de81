ghost use Rattle.std.specs.Prelude.{◌≡◌, ℕ, List, IfOk};
ghost use Rattle.rank_table.specs.ByDegree.{IsByDegree};
ghost use Rattle.chl_inputs.specs.Stages.{Conforms};
ghost use Rattle.chl_lines.specs.PrintedOrders.{order_lines as lines_of_nodes};
ghost use Rattle.chl_answers.specs.Commands.{degree_stage};

use super::text::text_output;
use chl_inputs::{Stop, read_graph};
use chl_lines::order_lines;
use chl_words::Name;
use desk_io::Desk;
use index_file::Pieces;
use rank_table::by_degree;
use std::alloc::{AllocError, Global};
use walk_laws::Graph;

/// The order text of the nodes of a graph by falling degree.
pub fn degree_output<D: Desk>(alloc: Global, graph: &Name, desk: &mut D) -> Result<Pieces, Stop>
    ensures { Conforms D.Desk (degree_stage graph.now) result desk.old desk.new }
{
    let graph = read_graph(alloc, graph.text(), desk)?;
    text_output(alloc, nodes_text(alloc, &graph))
}

/// The order text of the nodes.
fn nodes_text(alloc: Global, graph: &Graph) -> Result<Vec<u8>, AllocError>
    ensures { IfOk result (λ text. (at : List ℕ) × IsByDegree graph.now at × (text.items ≡ lines_of_nodes at)) }
{
    let ranking = by_degree(alloc, graph)?;
    order_lines(alloc, &ranking)
}
