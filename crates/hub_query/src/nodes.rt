ghost use Rattle.std.specs.Prelude.{◌≡◌};

use std::marker::Model;

/// The nodes of a walk, numbers from 1, from its start to its end. Contracts see them as a list.
#[derive(Debug, Drop)]
pub struct Nodes {
    nodes: Vec<u32>,
}

impl Model for Nodes {
    ghost use Rattle.std.specs.Prelude.{ℕ, List};

    ghost Value = { List ℕ };

    ghost view = { λ n. n.nodes.items };
}

impl Nodes {
    /// These nodes. It takes no memory.
    pub fn new(nodes: Vec<u32>) -> Nodes
        ensures { result ≡ nodes.items }
    {
        Nodes { nodes }
    }

    /// The nodes, in their order.
    pub fn list(&self) -> &[u32]
        ensures { result.now ≡ self.now }
    {
        self.nodes.as_slice()
    }
}
