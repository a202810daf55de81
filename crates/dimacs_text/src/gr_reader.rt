ghost use Rattle.std.specs.Prelude.{◌≡◌, ℕ, List, IfOk};

use crate::counted_reader::CountedReader;
use crate::graph_words::GraphWords;
use desk_io::Reader;
use std::alloc::{AllocError, Global};

/// Reads a graph text: `p sp N M`, and then M lines `a U V W`, each an edge between two nodes of 1..N of a weight of at least
/// 1.
///
/// ```text
/// let mut reader = GrReader::new(alloc)?;
/// reader.feed(b"p sp 2 1\na 1 2 5\n")?;
/// let graph = reader.finish()?;
/// ```
pub type GrReader = CountedReader<GraphWords>;

impl CountedReader<GraphWords> {
    ghost use Rattle.dimacs_text.specs.GraphText.{graph_of_text, graph_fault_within};

    /// A reader of a graph, before any text. Want of memory is the only error.
    pub fn new(alloc: Global) -> Result<GrReader, AllocError>
        ensures refused { IfOk result (λ r. (bytes : List ℕ) → ⟦<GrReader as Reader>⟧.refused r bytes ≡ graph_fault_within bytes) }
        ensures comes_to { IfOk result (λ r. (bytes : List ℕ) → ⟦<GrReader as Reader>⟧.comes_to r bytes ≡ graph_of_text bytes) }
    {
        CountedReader::of(alloc, GraphWords)
    }
}
