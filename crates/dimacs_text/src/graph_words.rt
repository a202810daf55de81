use crate::arcs::edge_of;
use crate::counted_text::CountedText;
use crate::fault::{GrFault, TextFault, TextKind};
use std::alloc::Global;
use walk_laws::{Edge, Graph};

/// The greatest number of nodes, 2^30, and the greatest number of arcs, 2^32 - 1.
static LIMITS: [u64; 2] = [1 << 30, (1 << 32) - 1];

/// The words of a graph text: `p sp N M`, and `a U V W` for an edge.
#[derive(Clone, Copy, Debug)]
pub struct GraphWords;

impl CountedText for GraphWords {
    ghost use Rattle.std.specs.Prelude.{◌≡◌, ◌⊎◌, map, Ok, Err, IfOk, IfErr};
    ghost use Rattle.dimacs_text.specs.Arcs.{arc_numbers};
    ghost use Rattle.dimacs_text.specs.Counted.{AreAccepted};
    ghost use Rattle.dimacs_text.specs.GraphText.{graph_wording, graph_of_lines};
    ghost use Rattle.dimacs_text.specs.declared.fault.GrFault.TheVariants.{Text, NoMemory};

    type Item = Edge;

    type Value = Graph;

    type Fault = GrFault;

    ghost wording = { graph_wording };

    ghost written = { arc_numbers };

    ghost value_of = { graph_of_lines };

    ghost in_text = { Text };

    ghost no_memory = { NoMemory };

    fn fixed(&self) -> &'static [u8] {
        b"sp"
    }

    fn limits(&self) -> &'static [u64] {
        &LIMITS
    }

    fn letter(&self) -> u8 {
        b'a'
    }

    fn numbers(&self) -> usize {
        3
    }

    fn item(&self, counts: &[u64], numbers: &[u128]) -> Result<Edge, TextKind> {
        edge_of(counts[0] as u32, numbers)
    }

    fn value(self, alloc: Global, counts: Vec<u64>, items: Vec<Edge>) -> Result<Graph, GrFault>
        requires { AreAccepted (graph_wording self) counts.items (map arc_numbers items.items) }
        ensures ok { IfOk result (λ graph. graph_of_lines self counts.items (map arc_numbers items.items) ≡ Ok graph) }
        ensures err { IfErr result (λ fault. (fault ≡ NoMemory)
            ⊎ (graph_of_lines self counts.items (map arc_numbers items.items) ≡ Err fault)) }
    {
        let graph = Graph::new(alloc, counts[0] as u32, items)?;
        Ok(graph)
    }

    fn text_fault(fault: TextFault) -> GrFault {
        GrFault::Text(fault)
    }

    ghost want = { λ error fault is. is };
}
