ghost use Rattle.std.specs.Prelude.{◌≡◌, ◌^◌, ◌<◌, List, ◌++◌, length, nat_eq, All, IfOk};
ghost use Rattle.std.specs.List.{IsDistinct};
ghost use Rattle.walk_laws.specs.declared.graph.Edge.{Edge};
ghost use Rattle.walk_laws.specs.Graph.{IsEdge, IsGraph};
ghost use Rattle.walk_laws.specs.Ranking.{IsRanking};
ghost use Rattle.order_text.specs.OrderText.{AreWithin};
ghost use Rattle.chl_inputs.specs.Inputs.{ArePairsWithin, edits_input, graph_input, index_input, order_input, pairs_input, points_input, sources_input};
ghost use Rattle.chl_inputs.specs.Stages.{Conforms, reading};

use crate::reading::read_input;
use crate::stop::Stop;
use crate::stops_at::{
    EditsText, GraphText, IndexBytes, OrderText, PairsText, PointsText, SourcesText,
};
use desk_io::Desk;
use dimacs_text::{Edits, EditsReader, GrReader, Pairs, PairsReader};
use index_file::{IndexReader, StoredIndex};
use order_text::{NodeList, NodesReader, OrderReader};
use rank_table::Ranking;
use std::alloc::Global;
use walk_laws::Graph;

/// The graph of the named text.
pub fn read_graph<D: Desk>(alloc: Global, name: &str, desk: &mut D) -> Result<Graph, Stop>
    ensures { Conforms D.Desk (reading (graph_input name.now)) result desk.old desk.new }
{
    let reader = GrReader::new(alloc)?;
    read_input::<D, GrReader, GraphText>(desk, name, reader)
}

/// The ranking of the nodes 1..n of the named text.
pub fn read_order<D: Desk>(alloc: Global, name: &str, n: u32, desk: &mut D) -> Result<Ranking, Stop>
    ensures size { IfOk result (λ at. length at ≡ n) }
    ensures ranking { IfOk result IsRanking }
    ensures goes { Conforms D.Desk (reading (order_input n name.now)) result desk.old desk.new }
{
    let reader = OrderReader::new(alloc, n)?;
    read_input::<D, OrderReader, OrderText>(desk, name, reader)
}

/// The pairs of the nodes 1..n of the named text.
pub fn read_pairs<D: Desk>(alloc: Global, name: &str, n: u32, desk: &mut D) -> Result<Pairs, Stop>
    ensures within { IfOk result (ArePairsWithin n) }
    ensures goes { Conforms D.Desk (reading (pairs_input n name.now)) result desk.old desk.new }
{
    let reader = PairsReader::new(alloc, n)?;
    read_input::<D, PairsReader, PairsText>(desk, name, reader)
}

/// The edges between the nodes 1..n of the named text, which are to be added to a graph of these nodes.
pub fn read_edits<D: Desk>(alloc: Global, name: &str, n: u32, desk: &mut D) -> Result<Edits, Stop>
    ensures edges { IfOk result (All (IsEdge n)) }
    ensures light { IfOk result (All (λ e. e.w < 2 ^ 64)) }
    ensures graph { IfOk result (λ edits. (edges : List Edge) → IsGraph n edges → IsGraph n (edges ++ edits)) }
    ensures goes { Conforms D.Desk (reading (edits_input n name.now)) result desk.old desk.new }
{
    let reader = EditsReader::new(alloc, n)?;
    read_input::<D, EditsReader, EditsText>(desk, name, reader)
}

/// The points of the named text: nodes of 1..n, no two of them equal.
pub fn read_points<D: Desk>(
    alloc: Global,
    name: &str,
    n: u32,
    desk: &mut D,
) -> Result<NodeList, Stop>
    ensures within { IfOk result (AreWithin n) }
    ensures distinct { IfOk result (IsDistinct nat_eq) }
    ensures goes { Conforms D.Desk (reading (points_input n name.now)) result desk.old desk.new }
{
    let reader = NodesReader::new(alloc, n, false)?;
    read_input::<D, NodesReader, PointsText>(desk, name, reader)
}

/// The sources of the named text: nodes of 1..n.
pub fn read_sources<D: Desk>(
    alloc: Global,
    name: &str,
    n: u32,
    desk: &mut D,
) -> Result<NodeList, Stop>
    ensures within { IfOk result (AreWithin n) }
    ensures goes { Conforms D.Desk (reading (sources_input n name.now)) result desk.old desk.new }
{
    let reader = NodesReader::new(alloc, n, true)?;
    read_input::<D, NodesReader, SourcesText>(desk, name, reader)
}

/// The index of the named file, with its vias where the file has them.
pub fn read_index<D: Desk>(alloc: Global, name: &str, desk: &mut D) -> Result<StoredIndex, Stop>
    ensures { Conforms D.Desk (reading (index_input name.now)) result desk.old desk.new }
{
    let reader = IndexReader::new(alloc)?;
    read_input::<D, IndexReader, IndexBytes>(desk, name, reader)
}
