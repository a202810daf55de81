ghost use Rattle.std.specs.Prelude.{◌≡◌, ℕ, List, IfOk};

use crate::counted_reader::CountedReader;
use crate::pairs_words::PairsWords;
use desk_io::Reader;
use std::alloc::{AllocError, Global};

/// Reads a pairs text: `p aux sp p2p K`, and then K lines `q S T`, each a pair of nodes of 1..n.
pub type PairsReader = CountedReader<PairsWords>;

impl CountedReader<PairsWords> {
    ghost use Rattle.dimacs_text.specs.PairsText.{pairs_of_text, pairs_fault_within};

    /// A reader of pairs of the nodes 1..n, before any text. Want of memory is the only error.
    pub fn new(alloc: Global, n: u32) -> Result<PairsReader, AllocError>
        ensures refused { IfOk result (λ r. (bytes : List ℕ) → ⟦<PairsReader as Reader>⟧.refused r bytes ≡ pairs_fault_within n bytes) }
        ensures comes_to { IfOk result (λ r. (bytes : List ℕ) → ⟦<PairsReader as Reader>⟧.comes_to r bytes ≡ pairs_of_text n bytes) }
    {
        CountedReader::of(alloc, PairsWords { n })
    }
}
