//! The outside of the program: reading a named input, writing a created file, and standard output.
//! A [`Desk`] is the outside as a trait, [`RealDesk`] the files and standard output; mem_desk has one in memory, for tests.
//! Every fault is counted: an answer `Failed` comes only where a count rose, or stands at its type's last value.
//! [`read_all_into`] reads an input to its end, [`read_at_most`] one of at most so many bytes, [`write_all`] writes a
//! whole piece, [`Lines`] gathers the lines of a text.
//! Callers use the words `Contents`, `Tells`, `opened`, `created`, `written`, `spoken` (specs/Contents), `Takes` (specs/Takes),
//! `Rises`, `CountsFailure` (specs/Counts), `TakesAll` (specs/Feed), `lines_of` (specs/Lines), and those of a whole reading
//! (specs/Reading) and of a reader (specs/Reader).
#![tactic(auto)]

mod desk;
mod feed;
mod gate;
mod lines;
mod read_all;
mod real_desk;
mod write_out;

pub use desk::{Desk, DeskFault};
pub use feed::{Feed, Reader};
pub use gate::{FreeGate, Gate};
pub use lines::{Lines, strip_cr};
pub use read_all::{INPUT_LIMIT, ReadEnd, read_all_into, read_at_most};
pub use real_desk::RealDesk;
pub use write_out::{Out, write_all};
