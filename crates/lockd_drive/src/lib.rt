//! `lockd drive`, a client of a server, as a function over a reader and two writers.
//!
//! Contracts see no failure of a reader or a writer, and nothing of a socket. They let through a `drive_on`
//! - that prints its fault in part, or not at all;
//! - that tells `no memory`, or a read or a write that failed, though none did;
//! - that ends well though its output couldn't be flushed;
//! - that sends nothing, connects elsewhere, waits before it sends, doesn't close, or says `no memory` at an empty
//!   path;
//! - that prints replies which didn't come from the socket (`try_stored_replies` in `tests/serve/sockets.py`);
//! - that says another reason why it isn't connected, or none (`tests/commands/words.py`).
//!
//! `tests/serve/sockets.py` and `tests/commands/words.py` refuse these. After `write failed` the output holds a
//! beginning of what was to be printed. No contract says how long it is.
#![tactic(auto)]

mod actions;
mod drive;
mod exchange;
mod reply;

pub use drive::drive_on;
