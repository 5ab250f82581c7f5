//! A session of the FUSE protocol with workers, over any reader and any writer.
//!
//! `serve` is `record_with_workers` with lines in memory, and both are one proof. Each order is answered by its own
//! replies. At `NoReader` nothing is said of orders and replies. No clause says that it comes only if a board can't be
//! opened or closed, or if what was given to be sent can't be told; nor in which order the replies of different
//! workers leave. Contracts let through a `serve`
//! - that refuses every order for memory;
//! - that tells `Read` or `Write` early, `NoMemory` having read nothing, or `NoReader` with an empty history;
//! - of which one worker does all, or a worker handles its orders in another order than it took them.
//! `fl_serve_tests`, `tests/serve/workers.py` and `tests/serve/failing.py` refuse these; another order is refused by
//! `worker_loop`.
#![tactic(auto)]

mod serving;

pub use fl_intake::{Closed, Intake, Job, MOST_JOBS, NotAll, PutEnd, TakeEnd};
pub use fl_session::{
    Broken, Done, Ended, Fault, Outbox, Recorded, record_session, run_one, run_session,
};
pub use fl_staff::Staff;
pub use fl_workers::{Counter, Gate, OpenGate, SharedSender, WriterName, worker_loop};
pub use serving::{record_with_workers, serve};
