use crate::arcs::edge_of;
use crate::counted_text::CountedText;
use crate::edits::Edits;
use crate::fault::{PairsFault, TextFault, TextKind};
use std::alloc::Global;
use walk_laws::Edge;

/// The greatest number of edges, 2^32 - 1.
static LIMITS: [u64; 1] = [(1 << 32) - 1];

/// The words of an edits text over the nodes 1..n: `p open K`, and `a U V W` for an edge.
#[derive(Clone, Copy, Debug)]
pub struct EditsWords {
    pub n: u32,
}

impl CountedText for EditsWords {
    ghost use Rattle.std.specs.Prelude.{◌≡◌, ◌⊎◌, map, Ok, Err, IfOk, IfErr};
    ghost use Rattle.dimacs_text.specs.Arcs.{arc_numbers};
    ghost use Rattle.dimacs_text.specs.Counted.{AreAccepted};
    ghost use Rattle.dimacs_text.specs.EditsText.{edits_wording, edits_of_lines};
    ghost use Rattle.dimacs_text.specs.declared.fault.PairsFault.TheVariants.{Text, NoMemory};

    type Item = Edge;

    type Value = Edits;

    type Fault = PairsFault;

    ghost wording = { edits_wording };

    ghost written = { arc_numbers };

    ghost value_of = { edits_of_lines };

    ghost in_text = { Text };

    ghost no_memory = { NoMemory };

    fn fixed(&self) -> &'static [u8] {
        b"open"
    }

    fn limits(&self) -> &'static [u64] {
        &LIMITS
    }

    fn letter(&self) -> u8 {
        b'a'
    }

    fn numbers(&self) -> usize {
        3
    }

    fn item(&self, _counts: &[u64], numbers: &[u128]) -> Result<Edge, TextKind> {
        edge_of(self.n, numbers)
    }

    fn value(self, _alloc: Global, _counts: Vec<u64>, items: Vec<Edge>) -> Result<Edits, PairsFault>
        requires { AreAccepted (edits_wording self) _counts.items (map arc_numbers items.items) }
        ensures ok { IfOk result (λ edits. edits_of_lines self _counts.items (map arc_numbers items.items) ≡ Ok edits) }
        ensures err { IfErr result (λ fault. (fault ≡ NoMemory)
            ⊎ (edits_of_lines self _counts.items (map arc_numbers items.items) ≡ Err fault)) }
    {
        Ok(Edits::new(items))
    }

    fn text_fault(fault: TextFault) -> PairsFault {
        PairsFault::Text(fault)
    }

    ghost want = { λ error fault is. is };
}
