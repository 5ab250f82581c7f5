//! A table of locks, which keeps a marking as runs of bytes; and `laws`, which say in words what `fl_marks` defines.
//!
//! Each key that has marks has one row of runs, on its node's chain. The runs of a row are in order, apart, and as
//! long as they can be. A run's slot takes 48 bytes, and a key's 56. A change is refused for the runs that it would
//! leave, and never for slots that it needs on the way.
//!
//! Left open: which slot has which run, and how many runs a walk looks at. `tests/locks/ranges.py` compares what the
//! built program sets, refuses, names and lists with a plain grid of bytes, with 1 to 300 owners of a file, and fills
//! tables of up to 65,536 runs. `fl_ranges_tests` has where slots are.
#![tactic(auto)]

mod asked;
mod blocker;
mod chain;
mod conflict;
mod contenders;
mod find_row;
mod held_runs;
mod holding;
pub mod laws;
mod owners;
mod row_change;
mod table;

pub use fl_arena::Place;
pub use fl_spans::{Rows, Span};
pub use table::{NoRoom, Table};
