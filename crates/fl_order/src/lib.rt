//! What is said to the lock directory and what it answers, as types: orders with their kinds and bodies, replies,
//! error numbers and names, and the lines of a state. How they are spelled in bytes is another crate's.
//!
//! No two kinds share an opcode or a word. An op is its kind and its body, and nothing else; one that asks for a lock
//! is its kind and its lock request. `tests/serve/messages.py` tries what messages ask.
#![tactic(auto)]

mod body;
mod errno;
mod kind;
mod name;
mod no_memory;
mod order;
mod refusal;
mod state_part;
mod told;

pub use body::{Body, Shape};
pub use errno::Errno;
pub use kind::OpKind;
pub use name::Name;
pub use no_memory::NoMemory;
pub use order::{LockAsk, Op, Order};
pub use refusal::Refusal;
pub use state_part::{Head, StateLine, StatePart};
pub use told::{Answer, Attr, Told};
