ghost use Rattle.std.specs.Prelude.{◌≡◌, All, IfOk};
ghost use Rattle.walk_laws.specs.Graph.{IsEdge};
ghost use Rattle.edge_open.specs.Opened.{opened};

use std::alloc::{AllocError, Global};
use walk_laws::{Edge, Graph};

/// The graph with these edges appended to its list. The only error is that memory ran out.
pub fn opened_graph(alloc: Global, graph: &Graph, edges: &[Edge]) -> Result<Graph, AllocError>
    requires { All (IsEdge graph.now.n) edges.now }
    ensures { IfOk result (λ g. g ≡ opened graph.now edges.now) }
{
    let old = graph.edges();
    let mut all = Vec::with_capacity(alloc, old.len() + edges.len())?;
    all.extend_from_slice(old)?;
    for edge in edges {
        let Edge { u, v, w } = *edge;
        all.push(Edge { u, v, w })?;
    }
    Graph::new(alloc, graph.n(), all)?.with_narrow_arcs(alloc)
}
