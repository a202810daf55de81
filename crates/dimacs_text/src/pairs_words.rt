use crate::counted_text::{CountedText, is_outside_of};
use crate::fault::{PairsFault, TextFault, TextKind};
use crate::pairs::Pairs;
use std::alloc::Global;

/// The greatest number of pairs, 2^32 - 1.
static LIMITS: [u64; 1] = [(1 << 32) - 1];

/// The words of a pairs text over the nodes 1..n: `p aux sp p2p K`, and `q S T` for a pair.
#[derive(Clone, Copy, Debug)]
pub struct PairsWords {
    pub n: u32,
}

impl CountedText for PairsWords {
    ghost use Rattle.std.specs.Prelude.{◌≡◌, ◌⊎◌, ℕ, List, [], ◌∷◌, map, Ok, Err, IfOk, IfErr};
    ghost use Rattle.dimacs_text.specs.Counted.{AreAccepted};
    ghost use Rattle.dimacs_text.specs.PairsText.{pairs_wording, pair_numbers, pairs_of_lines};
    ghost use Rattle.dimacs_text.specs.declared.fault.PairsFault.TheVariants.{Text, NoMemory};

    type Item = (u32, u32);

    type Value = Pairs;

    type Fault = PairsFault;

    ghost wording = { pairs_wording };

    ghost written = { pair_numbers };

    ghost value_of = { pairs_of_lines };

    ghost in_text = { Text };

    ghost no_memory = { NoMemory };

    fn fixed(&self) -> &'static [u8] {
        b"aux sp p2p"
    }

    fn limits(&self) -> &'static [u64] {
        &LIMITS
    }

    fn letter(&self) -> u8 {
        b'q'
    }

    fn numbers(&self) -> usize {
        2
    }

    fn item(&self, _counts: &[u64], numbers: &[u128]) -> Result<(u32, u32), TextKind> {
        let s = numbers[0];
        let t = numbers[1];
        if is_outside_of(self.n, s) || is_outside_of(self.n, t) {
            return Err(TextKind::NodeRange);
        }
        Ok((s as u32, t as u32))
    }

    fn value(
        self,
        _alloc: Global,
        _counts: Vec<u64>,
        items: Vec<(u32, u32)>,
    ) -> Result<Pairs, PairsFault>
        requires { AreAccepted (pairs_wording self) _counts.items (map pair_numbers items.items) }
        ensures ok { IfOk result (λ pairs. pairs_of_lines self _counts.items (map pair_numbers items.items) ≡ Ok pairs) }
        ensures err { IfErr result (λ fault. (fault ≡ NoMemory)
            ⊎ (pairs_of_lines self _counts.items (map pair_numbers items.items) ≡ Err fault)) }
    {
        Ok(Pairs::new(items))
    }

    fn text_fault(fault: TextFault) -> PairsFault {
        PairsFault::Text(fault)
    }

    ghost want = { λ error fault is. is };
}
