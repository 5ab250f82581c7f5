//! One order: what it is answered, and what it changes in the directory and in the table of locks.
//!
//! What the definitions of its replies say, in short:
//! - An order's own reply comes first, if it has one, then those to requests that it ends, then those of settling. A
//!   FORGET has none of its own, nor has a SETLKW that is parked, nor an INTERRUPT that finds its request.
//! - An order with the unique of a parked request is EINVAL and changes nothing. Such a FORGET does nothing.
//! - A RELEASE ends the requests that came through its fh with EBADF, an INTERRUPT the one that it names with EINTR.
//! - A SETLKW is EDEADLK exactly if it is blocked and would close a circle of owners. It is ENOLCK if it would close
//!   none and as many are parked as the rules allow.
//! - A FLUSH takes away all record locks of its owner on the node, and no whole-file lock. A RELEASE takes away its
//!   owner's whole-file lock if it says so, and all locks of the node if no fh is open there any more.
//!
//! All that is there stands in five arenas, and a sixth finds names faster. No slot is linked twice (`Core::arenas`).
//!
//! `Core::replay` is for a second core that follows a first: a lock request is carried out by its reply, and no test is
//! made again. Contracts let through a `replay` that makes all tests.
#![tactic(auto)]

mod arenas;
mod ending;
pub mod laws;
mod lock_directory;
mod locking;
mod parts;
mod replay;
mod restoring;
mod settling;
mod state;

pub use arenas::Arenas;
pub use fl_counter::Tolds;
pub use fl_waiting::{Request, Rules};
pub use state::Core;
