ghost use Rattle.std.specs.Prelude.{◌≡◌, ℕ, List, IfOk};

use crate::counted_reader::CountedReader;
use crate::edits_words::EditsWords;
use desk_io::Reader;
use std::alloc::{AllocError, Global};

/// Reads an edits text: `p open K`, and then K lines `a U V W`, each an edge between two nodes of 1..n of a weight of at least
/// 1.
pub type EditsReader = CountedReader<EditsWords>;

impl CountedReader<EditsWords> {
    ghost use Rattle.dimacs_text.specs.EditsText.{edits_of_text, edits_fault_within};

    /// A reader of edges between the nodes 1..n, before any text. Want of memory is the only error.
    pub fn new(alloc: Global, n: u32) -> Result<EditsReader, AllocError>
        ensures refused { IfOk result (λ r. (bytes : List ℕ) → ⟦<EditsReader as Reader>⟧.refused r bytes ≡ edits_fault_within n bytes) }
        ensures comes_to { IfOk result (λ r. (bytes : List ℕ) → ⟦<EditsReader as Reader>⟧.comes_to r bytes ≡ edits_of_text n bytes) }
    {
        CountedReader::of(alloc, EditsWords { n })
    }
}
