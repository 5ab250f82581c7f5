//! What is said of a history: a judge that is told its lines one after another, in memory that doesn't grow, and has
//! what is there after them. `Judge::into_resumed` gives what a server goes on from behind its lines. In a quiet history
//! no owner asks for a record lock while it waits for one, and so owners never wait in a circle, if no head tells that
//! they do, or that one waits for two record locks.
//!
//! `Judge::quiet` says no of lines that begin no legal history. No contract says how much memory is taken: that
//! `Judge::hear` and `into_resumed` take none is seen in the code.
#![tactic(auto)]

mod asking;
mod difference;
mod judge;
pub mod laws;
mod replay;
mod resumed;
mod verdict;

pub use asking::asks_while_waiting;
pub use difference::Difference;
pub use judge::Judge;
pub use resumed::{Missing, Resumed};
pub use verdict::Verdict;
