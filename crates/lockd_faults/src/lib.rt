//! How a command or a server ends, and what it tells; what a server tells of itself; whole inputs and outputs; a trace
//! that is printed; lines of a text and lines of hex; why a line is bad; streams that keep what went wrong.
//!
//! `print_fault` and `end` wrote the fault's line or a beginning of it, the empty one too, and their signatures give
//! them no memory. Contracts see no failure of a reader or a writer. They let through:
//! - a `read_all`, a `write_all`, a `print` or a `read_line` that is always refused;
//! - a `write_all` or a `print` that doesn't flush its output, or takes a flush that failed for a good one;
//! - a `print_fault` that prints nothing;
//! - a `Noting` that keeps another reason;
//! - a `why_bad`, a `why_bad_order` or a `why_bad_hex` that says another reason.
//! `fl_stream_tests` and the scripts of `tests/commands` refuse these.
#![tactic(auto)]

mod bad_line;
mod ending;
mod fault;
mod hex_lines;
mod line_buffer;
mod noting;
mod observer;
mod printing;
mod status;
mod streams;

pub use bad_line::{Why, why_bad, why_bad_hex, why_bad_order};
pub use ending::{end_at, end_resumed, end_session, end_unheard, end_unopened, end_untraced};
pub use fault::{CommandFault, print_fault};
pub use hex_lines::{push_line, read_line, split_line};
pub use noting::Noting;
pub use observer::{Misfit, Observer, Parting, Untraced};
pub use printing::print;
pub use status::{Status, end, end_without_file};
pub use streams::{read_all, write_all};
