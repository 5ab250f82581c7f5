//! Traces that are read piece by piece, in memory that doesn't grow: an audit, which says what is found of one.
//! `hear_first` reads one so, and gives a judge of its first lines, `hear_whole` one of all lines. `hear_cut` reads a
//! trace that is cut off, and gives a judge of its whole lines, how many bytes these have, and the last of them.
//! `audit_row` reads the pieces of a history, one after another. `read_opening` reads ahead which rules a trace names.
//!
//! No contract says:
//! - how much memory is taken: that an audit takes no more than it says is seen in the code;
//! - that `audit`, `hear_first` and `hear_cut` read on after a bad line, or the last that is wanted
//!   (`tests/commands/check.py`), nor what they say of a reader whose bytes aren't known;
//! - the text of the bad line in `Details`, nor what these hold after a fault (`tests/commands/words.py`);
//! - that they tell a failed read or `NoMemory` only if there was one: `tests/commands/pieces.py` and
//!   `tests/commands/allocations.py` see that.
#![tactic(auto)]

mod beside;
mod details;
mod finding;
mod hearer;
pub mod laws;
mod lines;
mod listener;
mod opening;
mod reading;
mod row;
mod seam;

pub use details::{BadLine, Details};
pub use finding::{AuditFault, Audited, Finding, Heard};
pub use opening::{Opening, read_opening};
pub use reading::{audit, hear_cut, hear_first, hear_whole};
pub use row::{PieceLine, PieceReader, RowFault, RowFinding, audit_row};
