//! A session with workers to its end, but for its history: it is proved for every `Counter`, and no board is named here.
//!
//! `serve_at` makes what a session needs beside its counter, runs its workers, hands in what none of them took, and
//! says goodbye. Its caller knows what the counter's history is. Contracts let through a `serve_at`
//! - that says at once, having read nothing, `NoMemory` or `NoReader`;
//! - that tells `Read` or `Write` early;
//! - that never knows whether all replies were given to be sent (`known`);
//! - whose workers do what the contracts of `fl_workers` let through.
//!
//! `fl_serve_tests`, `tests/serve/workers.py` and `tests/serve/failing.py` refuse these.
#![tactic(auto)]

mod crew;
mod finishing;
mod serving;
mod staff;
mod stock;

pub use serving::serve_at;
pub use staff::{Served, Staff};
