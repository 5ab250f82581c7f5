//! The read replicas of a directory: two copies that follow the log of its orders. Workers read them without the lock.
//! A directory is any type with the trait `fl_counter::LockDirectory`, as `Core` of `fl_core`.
//!
//! A `ReplicaWriter` publishes orders to both. A replica stands for a beginning of the log, whose entries are `Ask`s. It
//! takes an update only if it stands for the asks before that update, so folding never fails.
//!
//! Contracts let through:
//! - a `look_at` that always gives none, or answers from an earlier copy;
//! - a `ReplicaWriter` whose `new`, `warm` or `reader` is always refused, whose `add` ends as if memory had run out, or
//!   who makes room for fewer updates.
//! Tests of boards refuse these.
#![tactic(auto)]

mod board_name;
mod replica;
mod replica_writer;

pub use board_name::BoardName;
pub use replica::{Replica, ReplicaReader, Update, look_at};
pub use replica_writer::ReplicaWriter;
