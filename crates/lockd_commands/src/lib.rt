//! The commands of `lockd` but `serve` and `drive`, as functions: `script`, `check`, `locks`, `state` and `bytes` over a
//! reader and two writers; and what `--verbose` says of what they and `drive` read.
//!
//! Contracts see no failure of a reader or a writer. They let through:
//! - a command that prints its fault in part, or not at all;
//! - one that tells `no memory`, or a read or a write that failed, though none did;
//! - one that ends well though its output couldn't be flushed;
//! - a `locks_on` that tells `differs N` in part, or not at all;
//! - a `check_on`, a `locks_on` or a `state_on` that gives other details of its lines, or none (`tests/commands/words.py`);
//! - an `explain_trace`, `explain_script`, `explain_hex` or `explain_streams` that says anything else
//!   (`tests/commands/words.py`, `tests/commands/texts.py`).
//!
//! `fl_stream_tests`, and the scripts of `tests/commands`, `tests/locks` and `tests/serve` refuse these.
//!
//! After `write failed` the output holds a beginning of what was to be printed. No contract says how long it is. If
//! only the flush failed, it is all: `an_output_that_fails_when_it_is_flushed` in `fl_stream_tests` sees that of
//! `script`, `check` and `bytes`.
#![tactic(auto)]

mod bytes;
mod check;
mod locks;
mod row;
mod script;
mod state;
mod verbose;

pub use bytes::bytes_on;
pub use check::{CheckOptions, check_on};
pub use fl_audit::{Details, Opening, PieceReader, read_opening};
pub use fl_core::Rules;
pub use fl_trace::LINE_ROOM;
pub use lockd_faults::{CommandFault, Noting, Status, end};
pub use locks::{LocksOptions, locks_on};
pub use row::check_row_on;
pub use script::script_on;
pub use state::state_on;
pub use verbose::{explain_hex, explain_script, explain_streams, explain_trace};
