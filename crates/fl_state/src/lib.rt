//! A state as parts that are told one after another, and the state that such parts give.
//!
//! `tell_state` walks along a core and tells its nodes, its open files, its locks and its waiting requests, in this
//! order. `restore` puts one part back, if it fits what is there so far. `restore_all` puts back all that was told, into
//! a core that `Core::begun_at` made for the same rules and numbers. If no two owners hold conflicting locks, that is
//! the same core then (`some`, `all`, and `fit` and `tell` of `Tells`). `have_same` says whether the same is there in two
//! cores. No call takes memory.
#![tactic(auto)]

pub mod laws;
mod restoring;
mod rows;
mod same;
mod saying;
mod seeking;
mod sink;
mod telling;
mod walk;

pub use restoring::{restore, restore_all};
pub use same::have_same;
pub use sink::StateSink;
pub use telling::tell_state;
