//! Requests that wait for locks: by which rules they wait, which are parked, and what blocks them.
//!
//! The definitions also say what a circle of waiting owners is; `fl_circle` searches for one. `laws` says in words what
//! the definitions say. Only `Parked::new` and `Parked::claims` can be refused for memory. `tests/locks/rows.py` and
//! `tests/locks/random.py` try them by the program.
#![tactic(auto)]

mod claim;
pub mod laws;
pub mod lock_request;
mod parked;
mod rules;
mod wanted;

pub use claim::Claim;
pub use fl_arena::Arena;
pub use parked::{MOST_PARKED, Parked, Request};
pub use rules::{MOST_FILES, MOST_OPEN, MOST_RUNS, Rules};
pub use wanted::{Wanted, older_blocks};
