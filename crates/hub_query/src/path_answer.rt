use crate::nodes::Nodes;

/// What is answered where the walk of a pair is asked for. Nodes are numbers from 1, and lengths are in the graph's weights.
#[derive(Debug, Drop)]
pub enum Path {
    /// The graph has `graph` nodes, and the index has `index`.
    Sizes { graph: u32, index: u32 },
    /// The rows of the two nodes share no hub.
    Unreachable,
    /// A walk of the graph of this length, with the nodes that it passes, both ends counted.
    Walk { length: u128, nodes: Nodes },
    /// The index is of another graph: from `at` no neighbour leads on to `to` as the rows have it.
    Stuck { at: u32, to: u32 },
}
