ghost use Rattle.std.specs.Prelude.{◌≡◌, ℕ, List, IfOk};

use crate::order_fault::OrderFault;
use crate::order_lines::OrderLines;
use desk_io::{Feed, Reader};
use rank_table::Ranking;
use std::alloc::{AllocError, Global};
use std::marker::Model;
use text_lines::TextReader;

/// Reads an order text: one node of 1..n to a line, highest rank first. Blank lines and comments are skipped.
#[derive(Drop)]
pub struct OrderReader {
    reader: TextReader<OrderLines>,
}

impl Model for OrderReader {
    ghost use Rattle.order_text.specs.declared.order_fault.OrderFault.{OrderFault};
    ghost use Rattle.order_text.specs.OrderText.{NodesSoFar};
    ghost use Rattle.text_lines.specs.TextReading.{Reading};

    ghost Value = { Reading NodesSoFar OrderFault };

    ghost view = { λ r. r.reader };
}

impl OrderReader {
    ghost use Rattle.order_text.specs.OrderText.{order_of_text, order_fault_within};

    /// A reader of a ranking of the nodes 1..n, before any text. Want of memory is the only error.
    pub fn new(alloc: Global, n: u32) -> Result<OrderReader, AllocError>
        ensures refused { IfOk result (λ r. (bytes : List ℕ) → ⟦<OrderReader as Reader>⟧.refused r bytes ≡ order_fault_within n bytes) }
        ensures comes_to { IfOk result (λ r. (bytes : List ℕ) → ⟦<OrderReader as Reader>⟧.comes_to r bytes ≡ order_of_text n bytes) }
    {
        Ok(OrderReader {
            reader: TextReader::new(alloc, OrderLines::new(alloc, n))?,
        })
    }
}

impl Feed for OrderReader {
    ghost use Rattle.order_text.specs.declared.order_fault.OrderFault.TheVariants.{NoMemory};
    ghost use Rattle.order_text.specs.OrderText.{node_judged, order_ended};
    ghost use Rattle.text_lines.specs.TextReading.{Reads};

    type Fault = OrderFault;

    ghost feed_gives = { Reads node_judged order_ended NoMemory };

    fn feed(&mut self, piece: &[u8]) -> Result<(), OrderFault> {
        self.reader.feed(piece)
    }
}

impl Reader for OrderReader {
    ghost use Rattle.order_text.specs.declared.order_fault.OrderFault.TheVariants.{NoMemory};
    ghost use Rattle.order_text.specs.OrderText.{node_judged, order_ended};
    ghost use Rattle.text_lines.specs.TextReading.{refused, comes_to};
    ghost use Rattle.text_lines.specs.ReadingLaws.{takes_piece, lasts};

    type Value = Ranking;

    ghost no_memory = { NoMemory };

    ghost refused = { refused node_judged order_ended };

    ghost comes_to = { comes_to node_judged order_ended };

    /// The ranking of the whole text.
    fn finish(self) -> Result<Ranking, OrderFault> {
        self.reader.finish()
    }

    ghost pieces = { takes_piece node_judged order_ended NoMemory };

    ghost lasts = { lasts node_judged order_ended };
}
