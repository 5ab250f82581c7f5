//! A board without its lock: one record of orders, and a seat at it for each of several workers.
//!
//! A `Record` takes orders of a seat's worker, counts them in a ledger, and publishes them. A `Seat` knows what was
//! handed in through it and shown at it, and needs nothing else for a look. Who has the record alone, and when, is said
//! by `fl_board`. `over`, `take`, `take_all`, `cool`, `warm`, `publish`, `into_journal` and the drop of a `Record` may
//! wait for readers, `Seat::look` for nobody.
//!
//! Contracts let through:
//! - an `over`, `seats` or `warm` that is always refused, and a `warm` that gives the seat no reader;
//! - a `take`, `take_all` or `look` that always says `NoView`, and a `take_all` that ends behind its first order;
//! - a `take` that lets the copies go as if memory had run out;
//! - a `store_if_due` or a `store_all` that stores nothing.
//!
//! `fl_book_tests` and `tests/serve/traces.py` refuse these.
#![tactic(auto)]

pub mod laws;
mod record;
mod seat;
mod seats;

pub use record::Record;
pub use seat::Seat;
pub use seats::{OpenFault, are_apart};
