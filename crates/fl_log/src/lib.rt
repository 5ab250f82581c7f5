//! Logs that several authors append to.
//!
//! A log is there for proofs alone: what an entry holds takes no memory, and at run time one word has a log's length.
//! `Beginning` is a prefix of a log that was seen. `SharedLog` lies under a lock, and each of several authors has an
//! `Appender`: from all appenders together follows which entries the log has, and in which order each author's stand.
//! An `Ask` is what the log of a board has: an order, and the worker who handed it in.
//!
//! Contracts let through an `append` and an `is_by` that always say no, and a `Beginning::add` that adds more than it
//! says, so that every later one says no. Users of a log tell such an answer as a fault of their own, and their tests
//! see that it never comes.
#![tactic(auto)]

mod appender;
mod ask;
mod beginning;
mod log;
mod shared_log;

pub use appender::Appender;
pub use ask::{AsAsk, Ask, Asking};
pub use beginning::{Beginning, MOST_ENTRIES};
pub use log::{Entry, FreshLog, Log, LogName};
pub use shared_log::SharedLog;
