//! What workers need: a counter at which they hand orders in and look, a gate that is called for each, and room for the
//! replies to an order and to a batch of orders. `LockDirectory` says what replicas need of a lock directory.
//!
//! A board of `fl_board` is a `Counter`, and a core of `fl_core` a `LockDirectory`. What an order does is defined above.
//! Contracts let through a `pause` that does nothing, a `try_clone` that is always refused, and a `Tolds::new` that is
//! always refused, or has more room than its rules want; tests refuse these.
#![tactic(auto)]

mod counter;
mod fault;
mod lock_directory;
mod told_lists;
mod tolds;

pub use counter::{Counter, Gate, NothingOutgoing, OpenGate, Outgoing};
pub use fault::{HandFault, NoView};
pub use lock_directory::LockDirectory;
pub use told_lists::{MOST_IN_BATCH, ToldLists};
pub use tolds::Tolds;
