//! The laws of graph, pairs and edits texts: each function does nothing, and its contract is the law.
ghost use Rattle.dimacs_text.specs.TextLaws.{GraphTextsAreGraphs, PrintedGraphsAreRead, PairsTextsArePairs, EditsTextsAreEdges, EditedGraphsAreGraphs, PrintedEditsAreRead};

/// What a graph text stands for is a graph, of weights below 2^64.
pub fn a_graph_text_is_a_graph()
    ensures { GraphTextsAreGraphs }
{}

/// A graph of such weights that is printed as a graph text is read back as that graph.
pub fn a_printed_graph_is_read_back()
    ensures { PrintedGraphsAreRead }
{}

/// What a pairs text stands for are pairs of nodes.
pub fn a_pairs_text_is_pairs_of_nodes()
    ensures { PairsTextsArePairs }
{}

/// What an edits text stands for are edges between nodes, of weights below 2^64.
pub fn an_edits_text_is_edges_of_nodes()
    ensures { EditsTextsAreEdges }
{}

/// A graph with the edges of an edits text over its nodes is a graph.
pub fn an_edited_graph_is_a_graph()
    ensures { EditedGraphsAreGraphs }
{}

/// Edges of such weights that are printed as an edits text are read back as these.
pub fn printed_edits_are_read_back()
    ensures { PrintedEditsAreRead }
{}
