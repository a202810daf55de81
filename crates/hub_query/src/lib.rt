//! Answers for pairs of nodes from the rows of an index, with no search of a graph: [`ask`] for one pair, and [`ask_all`]
//! for many, in order and on all cores. An answer is what the two rows say (`IsMeet` of walk_laws), for every index; where
//! the rows are the canonical hub labelling of a graph, it is the least length of the graph's walks between the nodes, with
//! the highest-ranked node on a shortest one (`the_rows_tell_the_answer` of walk_laws). It stands on hub_index (`Index`)
//! and dimacs_text (`Pairs`). Its callers' clauses use `meant` and `IsMeetOf` (specs/Meant).
#![tactic(auto)]

mod answer;
mod answers;
mod asking;
mod hub_table;
pub mod laws;
mod meeting;
mod nodes;
mod path_answer;
mod walking;

pub use answer::Answer;
pub use answers::Answers;
pub use asking::ask_all;
pub use meeting::ask;
pub use nodes::Nodes;
pub use path_answer::Path;
pub use walking::path;
