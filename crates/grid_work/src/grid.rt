ghost use Rattle.std.specs.Prelude.{◌≡◌, ◌*◌, ◌^◌, ◌<◌, ◌≤◌, [], ◌∷◌, IfOk, OnOk};
ghost use Rattle.grid_work.specs.Grid.{ends_from, ends_in_row, grid_edges};
ghost use Rattle.grid_work.specs.Laid.{Lays};

use crate::weights::{next_number, weight_of};
use std::alloc::{AllocError, Global};
use walk_laws::{Edge, Graph};

/// The graph of a square grid of `side` times `side` nodes. The node at row r and column c, both from 0, has the number
/// r * side + c + 1. An edge leads from each node to its right neighbour and to its lower one, where it has them, and the
/// edges stand in this order, for the nodes by rising number. Each has a weight from 1 to 8, which comes from the seed: of the
/// numbers x(0), which is the seed, and x(k + 1) = (x(k) * 1103515245 + 12345) mod 2^31, the k-th edge, from 1, takes
/// x(k), and its weight is 1 more than the rest of x(k) / 65536 by 8. The only error is that memory ran out.
///
/// ```text
/// side 2, seed 1:    1 --7-- 2
///                    |       |
///                    7       2
///                    |       |
///                    3 --4-- 4
/// ```
pub fn grid_graph(alloc: Global, side: u32, seed: u32) -> Result<Graph, AllocError>
    requires { side ≤ 2 ^ 15 }
    ensures nodes { IfOk result (λ graph. graph.n ≡ side * side) }
    ensures edges { IfOk result (λ graph. graph.edges ≡ grid_edges side seed) }
{
    let mut laid = Laid {
        edges: Vec::new(alloc),
        number: seed,
    };
    for row in 0..side {
        laid.lay_row(side, row)?;
    }
    Graph::new(alloc, side * side, laid.edges)
}

/// The edges that are laid so far, and the number of which the last weight was made; before the first edge, the seed.
#[derive(Debug, Drop)]
struct Laid {
    edges: Vec<Edge>,
    number: u32,
}

impl Laid {
    /// Lays the edges of the nodes of a row, which counts from 0.
    fn lay_row(&mut self, side: u32, row: u32) -> Result<(), AllocError>
        requires small { side ≤ 2 ^ 15 }
        requires row { row < side }
        ensures { OnOk result (Lays self.old self.new (ends_in_row side row)) }
    {
        for column in 0..side {
            self.lay_node(side, row, column)?;
        }
        Ok(())
    }

    /// Lays the edges from the node at a row and a column to its right neighbour and to its lower one.
    fn lay_node(&mut self, side: u32, row: u32, column: u32) -> Result<(), AllocError>
        requires small { side ≤ 2 ^ 15 }
        requires row { row < side }
        requires column { column < side }
        ensures { OnOk result (Lays self.old self.new (ends_from side row column)) }
    {
        let node = row * side + column + 1;
        if column + 1 < side {
            self.lay(node, node + 1)?;
        }
        if row + 1 < side {
            self.lay(node, node + side)?;
        }
        Ok(())
    }

    /// Lays an edge between two nodes, with the next weight.
    fn lay(&mut self, u: u32, v: u32) -> Result<(), AllocError>
        ensures { OnOk result (Lays self.old self.new ((u, v) ∷ [])) }
    {
        self.number = next_number(self.number);
        let w = weight_of(self.number);
        self.edges.push(Edge { u, v, w })?;
        Ok(())
    }
}
