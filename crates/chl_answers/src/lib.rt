//! What the files decide of a command. What each command reads and works out, and where its bytes go, is one case of
//! `command_of` (specs/Commands); what the files decide of it, its bytes or why there are none, is `Decides`, of which `laws` has
//! nine laws. A [`Status`] is how a run ends (specs/Statuses), which lists of words are a command says specs/Words, and what a run
//! does to its desk specs/Outcome. No command is carried out here: that is chl_outputs'. It stands on chl_words, chl_inputs and
//! chl_lines, and on the crates whose words the stages use.
#![tactic(auto)]

pub mod laws;
mod status;

pub use status::{Status, stopped};
