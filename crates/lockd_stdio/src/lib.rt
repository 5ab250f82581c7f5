//! The commands of `lockd` that read standard input, over the process's own streams, and `check PIECE..`, which reads
//! files; what `--verbose` adds, of a server too; and what holds the place of a standard stream that is closed.
//!
//! Each command is a function of `lockd_commands` or `lockd_drive`, and has its contract there. Contracts let through:
//! - a function of a command (`script` .. `drive`) that gives it other rules or flags, or another path, or has another
//!   status;
//! - any line of `--verbose`, and one without that option; a `Kept` that keeps another text;
//! - a `hold_closed_streams` that holds none.
//!
//! The scripts of `tests/commands` and `tests/serve` meet these.
#![tactic(auto)]

mod descriptors;
mod host;
mod kept;
mod pieces;
mod reading;
mod words;

pub use descriptors::hold_closed_streams;
pub use host::Host;
pub use pieces::check_pieces;
pub use reading::{bytes, check, drive, locks, script, state};
pub use words::ServerWords;
