//! The commands of the program, over any desk: [`run`] reads the words, carries the command out, and says how it ended.
//! `commands` has a file for each command that builds an index, by the construction that the words name (`labelling`); those that
//! build none are chl_outputs'. It stands on all crates below. The clauses of [`run`] name no command; they use the words of
//! chl_answers: what the files decide (specs/Commands), what a run does to its desk (specs/Outcome), the lists of words that are
//! commands (specs/Words), and specs/Statuses.
#![tactic(auto)]

mod commands;
mod labelling;
mod running;

pub use chl_answers::Status;
pub use chl_inputs::{NotOf, Stop};
pub use chl_words::{AskFault, Asked, By, Construction, Grid, Name, Version, read_words};
pub use running::run;
