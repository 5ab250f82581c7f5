//! The lines of a history: what a worker asked and what was told, in the order of time, kept in few bytes; and the
//! journal of a desk, which is where its lines go.
//!
//! What is kept of a line leads back to exactly that line, and lines that come later change nothing of it. A journal
//! that has the room which is asked for isn't refused it. Contracts let through a `Lines` that is refused memory that
//! is there; tests refuse it. `tests/commands/check.py` compares 120,000 lines with what was asked.
#![tactic(auto)]

mod chunks;
mod history;
mod journal;
mod lines;
mod no_journal;
mod past;
mod place;
mod recent;
mod records;

pub use history::{History, Line};
pub use journal::Journal;
pub use lines::Lines;
pub use no_journal::NoJournal;
pub use past::Past;
pub use place::Place;
pub use recent::{Recalled, Recent};
