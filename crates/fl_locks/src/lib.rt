//! The list of locks: who holds what, who waits for what, and for whom (lslocks(8)); and how it is written, as a table
//! in the form of lslocks(8), or as a line of JSON (RFC 8259).
//!
//! The rows are exactly those of the core's state. Each run of bytes that an owner holds has one row, and so has each
//! parked request (`laws`). A request's blockers are the owners who keep it waiting by the rules in force. Both texts
//! are exactly those that the definitions give for the rows.
//!
//! Left open: how long a row takes. For each request, the runs of its node and the older requests are looked at once.
#![tactic(auto)]

mod blockers;
mod cell;
mod json;
pub mod laws;
mod listing;
mod lock;
mod name;
mod row;
mod table;
mod words;

pub use json::lock_json;
pub use listing::lock_rows;
pub use row::{Blocker, Blockers, LockRow};
pub use table::lock_table;
