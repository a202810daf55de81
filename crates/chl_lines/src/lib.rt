//! The lines that the program prints: the rows of a labelling, the answers, walks and traces of pairs, the
//! nodes of a ranking, the hits of sources, and what the indexes of a grid come to.
//! It stands on rank_table, hub_index, hub_query, near_points, via_trace and grid_work. Callers use the words `lines_from`
//! (specs/PrintedRows), `answer_lines` (specs/PrintedAnswers), `walk_lines` and `trace_lines` (specs/PrintedWalks),
//! `order_lines` (specs/PrintedOrders), `near_lines` (specs/PrintedHits) and `grid_lines` (specs/PrintedGrids).
#![tactic(auto)]

mod grid;
mod near;
mod printed;

pub use grid::{GridReport, grid_lines};
pub use near::near_lines;
pub use printed::{answer_lines, order_lines, row_lines, trace_lines, walk_lines};
