//! The inputs of a command: [`read_graph`], [`read_order`], [`read_pairs`], [`read_edits`], [`read_points`], [`read_sources`]
//! and [`read_index`] each open a named file, read it to its end, and give its value, or say why the command stops there. One
//! function reads any of them, and each has one clause: how a stage of a command may go (`Conforms`, specs/Stages). Commands
//! read their inputs one after another, and two stages in a row are a stage (proofs/StagesInTurn). It stands on desk_io and on
//! the crates of the readers. Callers use the words of specs/Stages, `graph_input` and its like (specs/Inputs), and
//! `HasMemoryOnce` (specs/Stops).
#![tactic(auto)]

mod inputs;
mod reading;
mod stop;
mod stops_at;

pub use inputs::{
    read_edits, read_graph, read_index, read_order, read_pairs, read_points, read_sources,
};
pub use stop::{NotOf, Stop};
