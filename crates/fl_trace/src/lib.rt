//! The text of a line, both ways, and laws of the text of a history.
//!
//! No text is that of two histories that can be read back. `fl_book_tests` has each word and answer there and back, and
//! `tests/commands/check.py` bad lines with their numbers.
#![tactic(auto)]

mod ask;
pub mod laws;
mod line;
mod read;
mod tell;

pub use line::{LINE_ROOM, push_line};
pub use read::first_line;
