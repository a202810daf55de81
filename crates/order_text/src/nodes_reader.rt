ghost use Rattle.std.specs.Prelude.{◌≡◌, ℕ, List, IfOk};

use crate::node_lines::NodeLines;
use crate::node_list::NodeList;
use crate::order_fault::OrderFault;
use desk_io::{Feed, Reader};
use std::alloc::{AllocError, Global};
use std::marker::Model;
use text_lines::TextReader;

/// Reads a nodes text: one node of 1..n to a line. Blank lines and comments are skipped.
#[derive(Drop)]
pub struct NodesReader {
    reader: TextReader<NodeLines>,
}

impl Model for NodesReader {
    ghost use Rattle.order_text.specs.declared.order_fault.OrderFault.{OrderFault};
    ghost use Rattle.order_text.specs.OrderText.{NodesSoFar};
    ghost use Rattle.text_lines.specs.TextReading.{Reading};

    ghost Value = { Reading NodesSoFar OrderFault };

    ghost view = { λ r. r.reader };
}

impl NodesReader {
    ghost use Rattle.order_text.specs.NodesText.{nodes_of_text, nodes_fault_within};

    /// A reader of nodes of 1..n, of which each may stand more than once where they may repeat, before any text. Want of
    /// memory is the only error.
    pub fn new(alloc: Global, n: u32, repeats: bool) -> Result<NodesReader, AllocError>
        ensures refused { IfOk result (λ r. (bytes : List ℕ) → ⟦<NodesReader as Reader>⟧.refused r bytes ≡ nodes_fault_within n repeats bytes) }
        ensures comes_to { IfOk result (λ r. (bytes : List ℕ) → ⟦<NodesReader as Reader>⟧.comes_to r bytes ≡ nodes_of_text n repeats bytes) }
    {
        Ok(NodesReader {
            reader: TextReader::new(alloc, NodeLines::new(alloc, n, repeats))?,
        })
    }
}

impl Feed for NodesReader {
    ghost use Rattle.order_text.specs.declared.order_fault.OrderFault.TheVariants.{NoMemory};
    ghost use Rattle.order_text.specs.NodesText.{nodes_ended};
    ghost use Rattle.order_text.specs.OrderText.{node_judged};
    ghost use Rattle.text_lines.specs.TextReading.{Reads};

    type Fault = OrderFault;

    ghost feed_gives = { Reads node_judged nodes_ended NoMemory };

    fn feed(&mut self, piece: &[u8]) -> Result<(), OrderFault> {
        self.reader.feed(piece)
    }
}

impl Reader for NodesReader {
    ghost use Rattle.order_text.specs.declared.order_fault.OrderFault.TheVariants.{NoMemory};
    ghost use Rattle.order_text.specs.NodesText.{nodes_ended};
    ghost use Rattle.order_text.specs.OrderText.{node_judged};
    ghost use Rattle.text_lines.specs.TextReading.{refused, comes_to};
    ghost use Rattle.text_lines.specs.ReadingLaws.{takes_piece, lasts};

    type Value = NodeList;

    ghost no_memory = { NoMemory };

    ghost refused = { refused node_judged nodes_ended };

    ghost comes_to = { comes_to node_judged nodes_ended };

    /// The nodes of the whole text.
    fn finish(self) -> Result<NodeList, OrderFault> {
        self.reader.finish()
    }

    ghost pieces = { takes_piece node_judged nodes_ended NoMemory };

    ghost lasts = { lasts node_judged nodes_ended };
}
