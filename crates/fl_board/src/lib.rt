//! A board at which workers hand orders in under one lock, and look without it.
//!
//! `hand_in`, `hand_in_one`, `hand_in_all`, `meet`, `warm` and `pause` wait for the lock. The first three also wait,
//! without the lock, until what they took is stored, if its journal has it that replies wait for their lines. A
//! publication, and letting the writer go, wait for readers of a replica: so `new`, `over`, `close`, `into_journal` and
//! these three may wait too. In all but these three nobody reads then, as their code shows. `Board::look` counts as a
//! call that may wait, since it is given a board. `Seat::look` has no right to wait.
//!
//! No contract says what `pause` does, nor that a call which waits for the lock or for lines returns. Callers don't see
//! what lies under the lock, so no contract limits when those three say `NoView`. `meet` and `close` don't say it while
//! no seat has handed in or was shown anything, and the seats are apart. Contracts let through:
//! - a `look`, `hand_in`, `hand_in_one` or `hand_in_all` that always says `NoView`, a `new` that is always refused, and
//!   a `meet` or `close` that says `NoView` once something was handed in or shown;
//! - a `hand_in_all` that always ends behind its first order, is refused where it may end, or takes the lock or
//!   publishes for each order;
//! - one of the three that waits for its lines, or sends what is outgoing, under the lock, or waits while something is
//!   outgoing;
//! - one that counts its lines as stored before they are: then `into_journal` says `NoView`, if they aren't by then;
//! - one that ends publication as if memory had run out: then looks are `NoView` until `warm`;
//! - a `hand_in_one` or `hand_in_all` that lets the copies that looks read go too soon or never, and a `warm` that makes
//!   none.
//! `fl_book_tests` refuses these, the last two by `a_seat_without_the_right_to_wait_is_shown_each_order` and
//! `looks_find_nothing_after_many_orders_until_copies_are_made_anew`; that one waits for its lines, and how, is seen by
//! `tests/serve/traces.py` alone. Nothing sees a call that stores its lines only once it has let the lock go, so that
//! others may take orders in between.
#![tactic(auto)]

mod board;
mod counter;
mod idle;
mod shared;

pub use board::{Board, CloseFault};
pub use fl_desk::{HandFault, NoView};
pub use fl_log::{Ask, FreshLog, LogName};
pub use fl_record::{OpenFault, Seat};
pub use fl_replica::BoardName;
