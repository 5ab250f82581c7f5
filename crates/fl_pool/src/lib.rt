//! The workers of a session in threads of their own, from start to join. It is proved for every `Counter`: no board is
//! named here.
//!
//! `WorkerPool::run` begins the session once all its workers are started, and before it reads: what is given to the
//! sender earlier is lost. If a worker can't be started, nothing is read. Contracts let through a `run` that begins
//! earlier, later or never, that starts no worker and leaves all orders in the intake, or that says at once that it
//! can't start. `fl_serve_tests` and `tests/serve/failing.py` refuse these.
#![tactic(auto)]

mod crew;
mod pool;

pub use crew::{Back, Crew, Worker};
pub use pool::{AtSeat, Ran, Thread, Worked, WorkerPool};
