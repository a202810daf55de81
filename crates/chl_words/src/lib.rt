//! The words of a command line: [`read_words`] reads what they ask for, by the toolchain's `clap`.
//! `literal` has the one command with a subcommand for each command of the program and its options; `reading` reads the
//! matches of a command line, and `asked` has what they come to. It stands on `clap` alone.
//! Its callers' clauses use `asked_by` (specs/Asking), which says of each list of words what it asks for: what clap's own
//! stated meaning makes of it over `program` (specs/Literal). `laws` says in plain words which lists these are (specs/Laws).
#![tactic(auto)]

mod asked;
pub mod laws;
mod literal;
mod reading;

pub use asked::{AskFault, Asked, By, Construction, Grid, Name, Version};
pub use reading::read_words;
