//! What the threads of a session do: one receives, some work, and they share one writer.
//!
//! What workers do is proved for every `Counter`. No worker can put an order back: it has no end that puts. Contracts
//! say which replies are given to be sent, and not when they leave. They let through:
//! - a worker or a `handle_all` that refuses orders, or never looks or calls `warm`; and one, or a `receive_all`, that
//!   tells that replies were lost, and leaves some out or none;
//! - a dispatcher that always or never gives orders to the inline worker, an inline worker whose end doesn't rest, and a
//!   receiver that reads while orders wait for it;
//! - a worker that ends at once, takes or hands in orders one by one, keeps replies until the end, calls no gate,
//!   pauses never or always, or waits for ever; and one that gives the counter nothing to send before it waits;
//! - a `new` of room that is always refused;
//! - a `SharedSender` that is broken at once, collects nothing, or says that what it was given isn't by those who gave
//!   it, and a `receive_all` that sends late or never what it collected.
//! `fl_workers_tests`, `fl_serve_tests` and `tests/serve/workers.py` refuse these, but for a dispatcher that always gives
//! orders to the inline worker. What the counter sends is seen by `tests/serve/traces.py` alone.
#![tactic(auto)]

mod dispatcher;
mod entry;
mod inline;
pub mod laws;
mod readable;
mod receiver;
mod room;
mod sender;
mod worker;

pub use dispatcher::Dispatcher;
pub use entry::{Reply, ReplyEntry};
pub use fl_counter::{Counter, Gate, OpenGate};
pub use inline::InlineWorker;
pub use receiver::{Received, receive_all};
pub use room::{BatchRoom, ReplyRoom};
pub use sender::{SharedSender, WriterName};
pub use worker::{Failures, Post, handle_all, worker_loop};
