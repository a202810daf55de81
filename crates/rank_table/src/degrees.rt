ghost use Rattle.std.specs.Prelude.{◌≡◌, ℕ, map, IfOk};
ghost use Rattle.std.specs.List.{range_with_len};
ghost use Rattle.rank_table.specs.ByDegree.{IsByDegree, degree};

use crate::ranking::Ranking;
use std::alloc::{AllocError, Global};
use walk_laws::Graph;

/// A node, which is a number from 1, with the number of its arcs.
#[derive(Clone, Copy, Debug, PartialEq, Eq)]
struct DegreeOf {
    node: u32,
    degree: usize,
}

/// The ranking of the nodes of a graph by falling degree: nodes of many edges rank high. Of two nodes of one degree the one
/// with the lower number ranks higher. Each edge counts once at each of its ends, so a self-loop counts two at its node, and
/// a node without edges ranks below those that have some. It takes O(n log n) for n nodes; want of memory is the only error.
pub fn by_degree(alloc: Global, graph: &Graph) -> Result<Ranking, AllocError>
    ensures { IfOk result (IsByDegree graph.now) }
{
    let nodes = nodes_by_degree(alloc, graph)?;
    Ranking::new(alloc, nodes)
}

/// The nodes of a graph by falling degree, and those of one degree by rising number.
fn nodes_by_degree(alloc: Global, graph: &Graph) -> Result<Vec<u32>, AllocError>
    ensures { IfOk result (λ nodes. IsByDegree graph.now nodes.items) }
{
    let mut degrees = degrees_of(alloc, graph)?;
    // Ties keep their order, which is by rising number. A stable sort is fast where few degrees differ.
    degrees.sort_by(|a, b| b.degree.cmp(&a.degree))?;
    nodes_of(alloc, &degrees)
}

/// The nodes alone.
fn nodes_of(alloc: Global, degrees: &[DegreeOf]) -> Result<Vec<u32>, AllocError>
    ensures { IfOk result (λ nodes. nodes.items ≡ map (λ d. d.node) degrees.now) }
{
    degrees.iter().map(|d| d.node).collect(alloc)
}

/// The degree of each node, by rising node.
fn degrees_of(alloc: Global, graph: &Graph) -> Result<Vec<DegreeOf>, AllocError>
    ensures { IfOk result (λ degrees. degrees.items ≡ map (λ v. record { node = v; degree = degree graph.now.edges v }) (range_with_len 1 graph.now.n)) }
{
    let n = graph.n();
    let mut degrees = Vec::with_capacity(alloc, n as usize)?;
    for k in 0..n {
        let node = k + 1;
        let arcs = graph.arcs(node);
        let degree = arcs.len();
        degrees.push(DegreeOf { node, degree })?;
    }
    Ok(degrees)
}
