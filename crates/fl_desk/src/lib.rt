//! The desk, which takes orders one after another and keeps their history; and which histories are legal.
//!
//! All that a desk promises holds for every journal of its lines, by one proof. Contracts let through a `take` that is
//! refused when its journal has no room yet, though memory is there; and a `new` or `over` that is always
//! refused. Tests refuse these. `tests/commands/changes.py` has 300 random traces, and 28 kinds of change of each,
//! judged by `lockd check`.
#![tactic(auto)]

mod desk;
mod drafting;
mod head;
pub mod laws;

pub use desk::Desk;
pub use fl_counter::{
    Counter, Gate, HandFault, MOST_IN_BATCH, NoView, NothingOutgoing, OpenGate, Outgoing, ToldLists,
};
pub use head::{ToldHead, head_of};
