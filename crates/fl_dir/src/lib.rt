//! The lock directory: names, nodes and open files.
//!
//! Each call answers by the first of its tests that fails, and a refusal changes nothing. A node is gone in the
//! change that takes its last name, lookup or open file away. No call but `Dir::new` and `Dir::try_clone` can be refused
//! for memory. `fl_ranges_tests` tries the ends of counts and numbers, which no caller reaches soon, and
//! `tests/locks/directory.py` all else.
#![tactic(auto)]

mod arenas;
mod chain;
mod dir;
mod files;
mod listing;
mod names;
mod node;
mod nodes;
mod numbered;
mod restoring;

pub use arenas::DirArenas;
pub use dir::{Closed, Dir, MOST_FILES, MOST_OPEN, ROOT, Reply};
pub use node::Node;
pub use nodes::Slot;
