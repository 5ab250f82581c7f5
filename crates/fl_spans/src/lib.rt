//! Rows of runs by key, on two arenas, and spans of bytes with marks in one row.
//!
//! A `Rows` has a number of chains, each a list of rows; a row is a key and at least one run. Keys, runs and marks
//! are the user's own types, and so is their order. A span is a run of bytes from a start to an end, both included,
//! that carry one mark. The spans of a row stand in order, apart, and each is as long as it can be. Memory is taken
//! once, by `Rows::new`. In both arenas no slot is linked twice (`Rows::keeps_links`).
//!
//! Left open: which slot has which run, which head has which chain, and how many spans a walk looks at. A `find` that
//! goes on after the range gives the same answer. `tests/locks/ranges.py` compares the locks of the built program with
//! a plain grid of bytes.
#![tactic(auto)]

mod change;
mod changes;
mod rows;
mod search;
mod span;

pub use change::stroke;
pub use fl_arena::{Cursor, Full, Place};
pub use rows::{Head, Pieces, Rows};
pub use search::find;
pub use span::{LAST_BYTE, Span};
