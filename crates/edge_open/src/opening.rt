ghost use Rattle.std.specs.Prelude.{◌≡◌, All, length, IfOk, IfErr};
ghost use Rattle.walk_laws.specs.Graph.{IsEdge};
ghost use Rattle.walk_laws.specs.Joined.{Joined};
ghost use Rattle.walk_laws.specs.Labelling.{IsChl};
ghost use Rattle.walk_laws.specs.Overflow.{Overflows};
ghost use Rattle.hub_index.specs.Faults.{TellsFault};
ghost use Rattle.edge_open.specs.Opened.{opened};

use crate::graph::opened_graph;
use crate::trees::raw_rows;
use hub_index::{BuildFault, Index, RowList};
use label_clean::clean_in_place;
use label_clean::laws::the_whole_is_the_labelling;
use rank_table::Ranking;
use std::alloc::{AllocError, Global};
use std::thread::Threads;
use walk_laws::{Edge, Graph};

/// The index of the graph with these edges appended to its list, from the index of the graph: each row and byte is as a build
/// makes it of the longer graph under the index's ranking.
///
/// Over each edge, in both directions, the hubs of the one end go on to the other, where they rank no lower: the tree of a hub
/// is resumed once, at all these nodes, and ends where it makes nothing nearer. It costs what these trees touch, beside the
/// longer graph and one cleaning of all rows at the end, on all cores. An edge that is no shorter than a walk between its ends
/// changes nothing, nor does one from a node to itself. The errors are that a hub is too far for an index, in the longer
/// graph, and that memory ran out.
///
/// In the path 1-2-3 of weights 1, ranked 2, 1, 3, the new edge 1-3 of weight 1 brings node 1, at position 1, to 3:
///
/// ```text
/// row of 1:  (0, 1), (1, 0)
/// row of 2:  (0, 0)
/// row of 3:  (0, 1), (2, 0)      before
/// row of 3:  (0, 1), (1, 1), (2, 0)      after
/// ```
pub fn open_edges<R: Threads + Sync>(
    rt: &R,
    alloc: Global,
    graph: &Graph,
    index: Index,
    edges: &[Edge],
) -> Result<Index, BuildFault>
    requires nodes { length index.order ≡ graph.now.n }
    requires labelling { IsChl (Joined graph.now.edges) index.order index.rows }
    requires ends { All (IsEdge graph.now.n) edges.now }
    ensures order { IfOk result (λ made. made.order ≡ index.order) }
    ensures labelling { IfOk result (λ made. IsChl (Joined (opened graph.now edges.now).edges) index.order made.rows) }
    ensures fits { IfOk result (λ _. ¬ Overflows (Joined (opened graph.now edges.now).edges) index.order) }
    ensures fault { IfErr result (λ fault. TellsFault (Joined (opened graph.now edges.now).edges) index.order fault) }
{
    let longer = opened_graph(alloc, graph, edges)?;
    let (ranking, rows) = index.into_parts();
    let rows = labelled_rows(rt, alloc, graph, &longer, &ranking, rows, edges)?;
    Index::of_labelling(&longer, ranking, rows)
}

/// The rows of the labelling of the longer graph, from those of the graph. The only error is that memory ran out.
fn labelled_rows<R: Threads + Sync>(
    rt: &R,
    alloc: Global,
    graph: &Graph,
    longer: &Graph,
    ranking: &Ranking,
    rows: RowList,
    edges: &[Edge],
) -> Result<RowList, AllocError>
    requires longer { longer.now ≡ opened graph.now edges.now }
    requires nodes { length ranking.now ≡ graph.now.n }
    requires labelling { IsChl (Joined graph.now.edges) ranking.now rows }
    ensures { IfOk result (λ rows. IsChl (Joined longer.now.edges) ranking.now rows) }
{
    let raw = raw_rows(alloc, graph, longer, ranking, rows, edges)?;
    the_whole_is_the_labelling();
    clean_in_place(rt, alloc, ranking, raw)
}
