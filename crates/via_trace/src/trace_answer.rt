use hub_query::Nodes;

/// What is answered where the trace of a pair is asked for. Nodes are numbers from 1, and lengths are in the graph's weights.
#[derive(Debug, Drop)]
pub enum Trace {
    /// The rows of the two nodes share no hub.
    Unreachable,
    /// The vias lead nowhere: from `at` no step leads nearer to the hub of the two rows.
    Broken { at: u32, hub: u32 },
    /// A walk of this length, as the rows have it, with the nodes that it passes, both ends counted.
    Walk { length: u128, nodes: Nodes },
}
