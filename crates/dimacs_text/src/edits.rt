ghost use Rattle.std.specs.Prelude.{◌≡◌};

use std::marker::Model;
use walk_laws::Edge;

/// Edges that are to be added to a graph, in the order of their text. Contracts see them as a list.
#[derive(Debug, Drop)]
pub struct Edits {
    edges: Vec<Edge>,
}

impl Model for Edits {
    ghost use Rattle.std.specs.Prelude.{List};
    ghost use Rattle.walk_laws.specs.declared.graph.Edge.{Edge};

    ghost Value = { List Edge };

    ghost view = { λ e. e.edges.items };
}

impl Edits {
    /// These edges.
    pub fn new(edges: Vec<Edge>) -> Edits
        ensures { result ≡ edges.items }
    {
        Edits { edges }
    }

    /// The edges, in their order.
    pub fn edges(&self) -> &[Edge]
        ensures { result.now ≡ self.now }
    {
        self.edges.as_slice()
    }
}
