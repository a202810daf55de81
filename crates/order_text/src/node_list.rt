ghost use Rattle.std.specs.Prelude.{◌≡◌};

use std::marker::Model;

/// Nodes, which are numbers from 1, in the order of their text. Contracts see them as a list.
#[derive(Debug, Drop)]
pub struct NodeList {
    nodes: Vec<u32>,
}

impl Model for NodeList {
    ghost use Rattle.std.specs.Prelude.{ℕ, List};

    ghost Value = { List ℕ };

    ghost view = { λ l. l.nodes.items };
}

impl NodeList {
    /// These nodes.
    pub fn new(nodes: Vec<u32>) -> NodeList
        ensures { result ≡ nodes.items }
    {
        NodeList { nodes }
    }

    /// The nodes, in their order.
    pub fn list(&self) -> &[u32]
        ensures { result.now ≡ self.now }
    {
        self.nodes.as_slice()
    }
}
