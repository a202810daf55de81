//! Texts of lines and words: a text is judged line by line, however it is cut into pieces. A [`JudgesLines`] says what the
//! words of a line make of the lines before it; a [`TextReader`] over one cuts the text into lines, counts them, skips blank
//! lines and comments, and keeps its first refusal. It stands on desk_io (`specs/Lines`, readers). Its callers' clauses use
//! `words_of`, `number_of` (specs/Words), `value_of_text`, `fault_within` (specs/Judgement) and a reading (specs/TextReading).
#![tactic(auto)]

mod judges_lines;
mod text_reader;
mod words;

pub use judges_lines::JudgesLines;
pub use text_reader::TextReader;
pub use words::{first_number, first_word};
