//! The intake of a session with workers: orders on their way from the one who reads them to those who answer them. It
//! is a queue without a lock, whose rule says that no order is lost and none comes twice. An order lies in it without
//! its name, which is in a box outside.
//!
//! Contracts don't speak of waking. They let through:
//! - a `take` or `take_many` that gives none while jobs are inside, or gives them in another order;
//! - a `take_many` that takes one alone, or more than its share;
//! - a `finish` that gives what is left in another order, a `new` that is always refused, and a call that waits for
//!   ever, as a `put` would if boxes weren't set free;
//! - one that wakes nobody or all, a `spin`, `rest` or `call_one_more` that does nothing, an `is_at_rest` that never is
//!   true, or always, a `close` that only marks its end.
//! Tests refuse these, but for an `is_at_rest` that is always true. Only `fl_serve_tests` sees that nobody wakes a second
//! worker.
#![tactic(auto)]

mod ends;
mod entry;
mod intake;
pub mod laws;
mod rule;
mod waking;

pub use ends::{Closed, Job, PutEnd, TakeEnd};
pub use intake::{Intake, MOST_JOBS, NotAll};
