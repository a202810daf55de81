ghost use Rattle.std.specs.Prelude.{◌≡◌, false};
ghost use Rattle.order_text.specs.OrderText.{no_node};

use crate::node_lines::NodeLines;
use crate::order_fault::OrderFault;
use rank_table::Ranking;
use std::alloc::Global;
use std::marker::Model;
use text_lines::JudgesLines;

/// The lines of an order text so far: nodes that may not repeat, of which none may be missing in the end.
#[derive(Drop)]
pub struct OrderLines {
    alloc: Global,
    lines: NodeLines,
}

impl Model for OrderLines {
    ghost use Rattle.std.specs.Prelude.{◌≡◌, false};
    ghost use Rattle.order_text.specs.OrderText.{NodesSoFar};

    ghost Value = { NodesSoFar };

    ghost view = { λ l. l.lines };

    ghost invariant = { λ l. l.lines.repeats ≡ false };
}

impl OrderLines {
    /// No line yet.
    pub fn new(alloc: Global, n: u32) -> OrderLines
        ensures { result ≡ no_node n false }
    {
        OrderLines {
            alloc,
            lines: NodeLines::new(alloc, n, false),
        }
    }
}

impl JudgesLines for OrderLines {
    ghost use Rattle.order_text.specs.declared.order_fault.OrderFault.TheVariants.{NoMemory};
    ghost use Rattle.order_text.specs.OrderText.{node_judged, order_ended};

    type Value = Ranking;

    type Fault = OrderFault;

    ghost no_memory = { NoMemory };

    ghost judged = { node_judged };

    ghost ended = { order_ended };

    fn judge(&mut self, number: u64, line: &[u8]) -> Result<(), OrderFault> {
        self.lines.take(number, line)
    }

    fn end(self, _number: u64) -> Result<Ranking, OrderFault> {
        let OrderLines { alloc, lines } = self;
        let wanted = lines.n();
        let nodes = lines.into_nodes();
        let found = nodes.len();
        if found < wanted as usize {
            return Err(OrderFault::Count {
                wanted,
                found: found as u32,
            });
        }
        let ranking = Ranking::new(alloc, nodes)?;
        Ok(ranking)
    }

    ghost want = { λ error fault is. is };
}
