//! Texts of nodes, one to a line: an [`OrderReader`] reads the ranking of the nodes 1..n from one, and a [`NodesReader`] a list
//! of such nodes, or says what is wrong with it and in which line.
//! It stands on desk_io (readers), text_lines (texts judged line by line) and rank_table (`Ranking`); its laws speak of the
//! rankings of walk_laws. Its callers' clauses use `order_of_text` and `order_fault_within` (specs/OrderText), `nodes_of_text`
//! and `nodes_fault_within` (specs/NodesText).
#![tactic(auto)]

mod laws;
mod node_lines;
mod node_list;
mod nodes_reader;
mod order_fault;
mod order_lines;
mod order_reader;

pub use laws::{a_nodes_text_is_of_nodes, an_order_text_is_a_ranking};
pub use node_list::NodeList;
pub use nodes_reader::NodesReader;
pub use order_fault::OrderFault;
pub use order_reader::OrderReader;
