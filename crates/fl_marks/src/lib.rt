//! What is locked: the keys, bytes and marks of locks.
//!
//! The definitions say what a marking is and how an order changes it, which locks conflict, which lock is named, and
//! what the runs of a marking are. `fl_ranges` has the laws of these definitions, beside the table that keeps a
//! marking. What keeps a marking implements `Conflicts`, which says whose locks conflict.
#![tactic(auto)]

mod conflicts;
mod held;
mod lock;
mod run;

pub use conflicts::Conflicts;
pub use held::Held;
pub use lock::{Class, Key, Kind, LAST_BYTE, Mark, Range};
pub use run::Run;
