//! What the tests of several crates need: writers over memory that fail when they are told to, stored texts, messages
//! that are laid out, replies that are read, and some sessions as text.
//!
//! A `Sink` fails at exactly the writes that its `Trouble` names, and counts all. Contracts let through a call that
//! asks for memory and is always refused.
#![tactic(auto)]

mod messages;
mod replies;
mod sessions;
mod stored;
mod trouble;
mod workers;
mod writers;

pub use messages::Messages;
pub use replies::{Reply, first_reply};
pub use sessions::{fair_sessions, init, init_reply};
pub use stored::bytes_after;
pub use trouble::Trouble;
pub use workers::of_workers;
pub use writers::Sink;
