//! The laws of texts of nodes: each function does nothing, and its contract is the law.
ghost use Rattle.order_text.specs.OrderLaws.{OrdersAreRankings, TextsAreOfNodes};

/// What an order text of n nodes stands for is a ranking of the nodes 1..n.
pub fn an_order_text_is_a_ranking()
    ensures { OrdersAreRankings }
{}

/// What a nodes text stands for are nodes of 1..n, no two of them equal where they may not repeat; and a fault of one is a
/// fault of a line.
pub fn a_nodes_text_is_of_nodes()
    ensures { TextsAreOfNodes }
{}
