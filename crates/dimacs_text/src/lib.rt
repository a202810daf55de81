//! Graph and pairs texts, in the formats of the ninth DIMACS challenge, and edits texts in their manner: a [`GrReader`] reads a
//! graph, a [`PairsReader`] pairs of nodes, and an [`EditsReader`] edges that are to be added to a graph, from pieces of any
//! size, or says what is wrong and in which line. All three are counted texts (specs/Counted), which one [`CountedReader`]
//! judges and reads, over a description of their words. It stands on walk_laws (graphs), desk_io (readers) and text_lines
//! (texts judged line by line). Its callers' clauses use `graph_of_text`, `graph_fault_within` (specs/GraphText) and their like
//! (specs/PairsText, specs/EditsText).
#![tactic(auto)]

mod arcs;
mod counted_lines;
mod counted_reader;
mod counted_text;
mod edits;
mod edits_reader;
mod edits_words;
mod fault;
mod gr_reader;
mod graph_words;
mod laws;
mod numbers;
mod pairs;
mod pairs_reader;
mod pairs_words;
mod untaken;

pub use counted_reader::CountedReader;
pub use counted_text::CountedText;
pub use edits::Edits;
pub use edits_reader::EditsReader;
pub use edits_words::EditsWords;
pub use fault::{GrFault, PairsFault, TextFault, TextKind};
pub use gr_reader::GrReader;
pub use graph_words::GraphWords;
pub use laws::{
    a_graph_text_is_a_graph, a_pairs_text_is_pairs_of_nodes, a_printed_graph_is_read_back,
    an_edited_graph_is_a_graph, an_edits_text_is_edges_of_nodes, printed_edits_are_read_back,
};
pub use pairs::Pairs;
pub use pairs_reader::PairsReader;
pub use pairs_words::PairsWords;
