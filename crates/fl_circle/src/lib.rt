//! The search for a circle of owners who wait: who blocks whom is asked of the locks that are held, by `Conflicts` of
//! `fl_marks`, and of the parked requests.
//!
//! `laws` says in words what a circle is. A lock has to wait exactly if an owner blocks it. A request closes a circle
//! exactly if there is a path of owners, at least one: the first blocks the request, each waits for the next, and the
//! last waits for the owner who asks. `tests/locks/rows.py` and `tests/locks/random.py` try it by the program.
#![tactic(auto)]

mod circle;
pub mod laws;

pub use circle::close_circle;
