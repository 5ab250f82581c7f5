//! Workers of a session, whose orders are answered in memory.

mod batches;
mod came;
mod handling;
mod orders;
mod refusals;
mod sending;
mod tally;
mod waiting;
mod watch;
