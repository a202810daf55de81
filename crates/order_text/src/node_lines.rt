ghost use Rattle.std.specs.Prelude.{◌≡◌, ◌≤◌, false, not, nat_eq, if◌then◌else◌, IfOk, OnErr};
ghost use Rattle.std.specs.List.{IsDistinct};
ghost use Rattle.text_lines.specs.Judgement.{TakesLine};
ghost use Rattle.text_lines.specs.Words.{words_of};
ghost use Rattle.order_text.specs.declared.order_fault.OrderFault.TheVariants.{NoMemory};
ghost use Rattle.order_text.specs.NodesText.{nodes_ended};
ghost use Rattle.order_text.specs.OrderText.{AreWithin, is_repeated, no_node, node_judged, node_of_words, with_node};

use crate::node_list::NodeList;
use crate::order_fault::OrderFault;
use std::alloc::{AllocError, Global};
use std::collections::HashSet;
use std::marker::Model;
use text_lines::{JudgesLines, first_number, first_word};

/// The lines of a text of nodes so far: nodes of 1..n, no two of them equal where they may not repeat. Contracts see n, whether
/// they may repeat, and the list of the nodes. It takes memory for the nodes that it has, whatever their numbers are.
#[derive(Drop)]
pub struct NodeLines {
    n: u32,
    repeats: bool,
    nodes: Vec<u32>,
    /// The nodes of the list, where they may not repeat.
    seen: HashSet<u32>,
}

impl Model for NodeLines {
    ghost use Rattle.std.specs.Prelude.{◌≡◌, ℕ, false, nat_eq};
    ghost use Rattle.std.specs.List.{list_any, IsDistinct};
    ghost use Rattle.std.specs.HashSet.{contains};
    ghost use Rattle.order_text.specs.OrderText.{AreWithin, NodesSoFar};

    ghost Value = { NodesSoFar };

    ghost view = { λ l. record { n = l.n; repeats = l.repeats; nodes = l.nodes.items } };

    // where nodes may not repeat, the set has those of the list, and no two of these are equal
    ghost invariant = { λ l.
        AreWithin l.n l.nodes.items
        × (l.repeats ≡ false → (v : ℕ) → contains nat_eq l.seen v ≡ list_any (nat_eq v) l.nodes.items)
        × (l.repeats ≡ false → IsDistinct nat_eq l.nodes.items) };
}

impl NodeLines {
    /// No line yet.
    pub fn new(alloc: Global, n: u32, repeats: bool) -> NodeLines
        ensures { result ≡ no_node n repeats }
    {
        NodeLines {
            n,
            repeats,
            nodes: Vec::new(alloc),
            seen: HashSet::new(alloc),
        }
    }

    /// Takes a line, which names one node more. After a fault the nodes are as they were.
    pub fn take(&mut self, number: u64, line: &[u8]) -> Result<(), OrderFault>
        ensures takes { TakesLine node_judged nodes_ended NoMemory self.old number (words_of line.now) result self.new }
        ensures repeats { self.new.repeats ≡ self.old.repeats }
    {
        let node = node_of_line(line, self.n, number)?;
        if self.add(node)? {
            Ok(())
        } else {
            Err(OrderFault::Repeated { line: number, node })
        }
    }

    /// Adds a node, unless it is there already and may not repeat, and tells whether it did. Want of memory, which leaves the
    /// nodes as they were, is the only error.
    fn add(&mut self, node: u32) -> Result<bool, AllocError>
        requires some { 1 ≤ node }
        requires within { node ≤ self.now.n }
        ensures added { IfOk result (λ added. added ≡ not (is_repeated self.old node)) }
        ensures ok { IfOk result (λ added. self.new ≡ (if added then with_node self.old node else self.old)) }
        ensures err { OnErr result (self.new ≡ self.old) }
    {
        if self.repeats {
            self.nodes.push(node)?;
            return Ok(true);
        }
        self.nodes.reserve(1)?;
        if !self.seen.insert(node)? {
            return Ok(false);
        }
        self.nodes.push(node)?;
        Ok(true)
    }

    /// The greatest node that a line may name.
    pub fn n(&self) -> u32
        ensures { result ≡ self.now.n }
    {
        self.n
    }

    /// The nodes, in the order of their lines.
    pub fn into_nodes(self) -> Vec<u32>
        ensures value { result.items ≡ self.nodes }
        ensures within { AreWithin self.n self.nodes }
        ensures distinct { self.repeats ≡ false → IsDistinct nat_eq self.nodes }
    {
        let NodeLines {
            n: _,
            repeats: _,
            nodes,
            seen: _,
        } = self;
        nodes
    }
}

impl JudgesLines for NodeLines {
    ghost use Rattle.order_text.specs.declared.order_fault.OrderFault.TheVariants.{NoMemory};
    ghost use Rattle.order_text.specs.NodesText.{nodes_ended};
    ghost use Rattle.order_text.specs.OrderText.{node_judged};

    type Value = NodeList;

    type Fault = OrderFault;

    ghost no_memory = { NoMemory };

    ghost judged = { node_judged };

    ghost ended = { nodes_ended };

    fn judge(&mut self, number: u64, line: &[u8]) -> Result<(), OrderFault> {
        self.take(number, line)
    }

    fn end(self, _number: u64) -> Result<NodeList, OrderFault> {
        Ok(NodeList::new(self.into_nodes()))
    }

    ghost want = { λ error fault is. is };
}

/// The node of 1..n that the line with this number names.
fn node_of_line(line: &[u8], n: u32, line_number: u64) -> Result<u32, OrderFault>
    ensures { result ≡ node_of_words n line_number (words_of line.now) }
{
    let Some((value, after)) = first_number(line) else {
        return Err(OrderFault::BadField { line: line_number });
    };
    if first_word(after).is_some() {
        return Err(OrderFault::BadField { line: line_number });
    }
    let Some(v) = value else {
        return Err(OrderFault::BadNumber { line: line_number });
    };
    if v == 0 || v > u128::from(n) {
        return Err(OrderFault::NodeRange { line: line_number });
    }
    Ok(v as u32)
}
