//! A session of the FUSE protocol with one worker: each message is answered at a desk, over any reader and any
//! writer.
//!
//! `run_one`, `run_session`, `record_session` and `resume_session` are one proof. A batch is its FORGETs one after
//! another, each a line of its own, or lost if memory for it was refused. Replies go out once their journal has stored
//! the lines of all orders (`IsServedAhead`): whatever the client's writer holds, at whichever write either writer
//! failed, are replies to the first of the very messages that gave the history, and their lines are stored. A resumed
//! session knows messages that are sent again, by bit 63 of their unique: the last lines say whether their orders came,
//! and are answered. If its lines begin with a head, those that it heard before say so, too. `laws` says what a killed
//! server leaves, and what this means for its client. Contracts let through a session that
//! - says `NoMemory` having read nothing, refuses every order for memory, or loses all of a batch after a refused one;
//! - tells `Read` or `Write` early, or `Unstored` unless lines stay in memory or nowhere, since contracts see no
//!   failure of a reader, a writer or a journal, or goes on reading once lines couldn't be stored;
//! - sends its replies only at its end, or stores no lines before a read where no reply waits.
//! `tests/serve/sessions.py` and `tests/serve/failing.py` refuse these.
#![tactic(auto)]

mod again;
mod answering;
mod done;
pub mod laws;
mod recorded;
mod replying;
mod room;
mod server;
mod session;
mod whole;

pub use done::Done;
pub use fl_transport::{Broken, Fault, Outbox};
pub use recorded::Recorded;
pub use room::SessionRoom;
pub use session::{Ended, record_session, resume_session, run_one, run_session};
