ghost use Rattle.std.specs.Prelude.{◌≡◌, length, map, IfOk};
ghost use Rattle.walk_laws.specs.Ranking.{IsRanking};
ghost use Rattle.renumbering.specs.Renumbered.{renumbered as renumbered_nodes, renumbered_edges};

use rank_table::Ranking;
use std::alloc::{AllocError, Global};
use walk_laws::{Edge, Graph};

/// The graph by the new numbers of its nodes, which are their places in the breadth-first order. The only error is that memory ran out.
pub fn renumbered_graph(
    alloc: Global,
    graph: &Graph,
    bfs_order: &Ranking,
) -> Result<Graph, AllocError>
    requires { length bfs_order.now ≡ graph.now.n }
    ensures n { IfOk result (λ g. g.n ≡ graph.now.n) }
    ensures edges { IfOk result (λ g. g.edges ≡ renumbered_edges bfs_order.now graph.now.edges) }
{
    let n = graph.n();
    let places = bfs_order.n();
    prove!(n == places);
    let edges = edges_of(alloc, graph, bfs_order)?;
    Graph::new(alloc, n, edges)?.with_narrow_arcs(alloc)
}

/// The edges between the new numbers. The only error is that memory ran out.
fn edges_of(alloc: Global, graph: &Graph, bfs_order: &Ranking) -> Result<Vec<Edge>, AllocError>
    requires { length bfs_order.now ≡ graph.now.n }
    ensures { IfOk result (λ edges. edges.items ≡ renumbered_edges bfs_order.now graph.now.edges) }
{
    let old = graph.edges();
    let mut edges = Vec::with_capacity(alloc, old.len())?;
    for e in old {
        edges.push(Edge {
            u: bfs_order.pos(e.u) + 1,
            v: bfs_order.pos(e.v) + 1,
            w: e.w,
        })?;
    }
    Ok(edges)
}

/// The ranking of the nodes by their new numbers: the node at each position is the same. The only error is that memory ran
/// out.
pub fn renumbered_ranking(
    alloc: Global,
    ranking: &Ranking,
    bfs_order: &Ranking,
) -> Result<Ranking, AllocError>
    requires { length bfs_order.now ≡ length ranking.now }
    ensures { IfOk result (λ r. r ≡ renumbered_nodes bfs_order.now ranking.now) }
{
    let nodes = nodes_of(alloc, ranking, bfs_order)?;
    Ranking::new(alloc, nodes)
}

/// The new numbers of the nodes, highest rank first. The only error is that memory ran out.
fn nodes_of(alloc: Global, ranking: &Ranking, bfs_order: &Ranking) -> Result<Vec<u32>, AllocError>
    requires { length bfs_order.now ≡ length ranking.now }
    ensures nodes { IfOk result (λ nodes. nodes.items ≡ renumbered_nodes bfs_order.now ranking.now) }
    ensures ranking { IfOk result (λ nodes. IsRanking nodes.items) }
{
    let n = ranking.n();
    let places = bfs_order.n();
    prove!(n == places);
    let mut nodes = Vec::with_capacity(alloc, n as usize)?;
    for p in 0..n {
        nodes.push(bfs_order.pos(ranking.at(p)) + 1)?;
    }
    Ok(nodes)
}
