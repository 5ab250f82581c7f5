//! The transport of a session: how its stream is cut into messages, what each message is to it, and how its replies
//! go out. No lock is known here.
//!
//! Contracts see the bytes that a reader has left and those that a writer holds, and no failure of either. Only tests
//! show that a read or a write failed, or was interrupted, if that is reported. Contracts let through:
//! - an `Outbox::send` that is broken at once, and an `Inbox::fill` that tells a failed or interrupted read though there
//!   was none;
//! - a `ReplyBuffer` with room for one reply alone, so that replies go out one by one.
//! `tests/serve/sessions.py`, `tests/serve/failing.py` and `fl_stream_tests` (an outbox alone) refuse these.
#![tactic(auto)]

mod fault;
mod handshake;
mod inbox;
pub mod laws;
mod outbox;
mod reply_batch;
mod reply_buffer;
mod response;

pub use fault::Fault;
pub use handshake::{Handshake, Incoming};
pub use inbox::{Filled, Inbox};
pub use outbox::{Broken, Outbox};
pub use reply_batch::ReplyBatch;
pub use reply_buffer::ReplyBuffer;
pub use response::{Response, unserved};
