//! The public face for library users: what takes orders, the history that it records, and what is said of a whole
//! history, by `check` and `quiet`, which stand here. Nothing of the program uses this crate. Contracts let through a
//! `check` and a `quiet` that are always refused; tests refuse these.
//!
//! One imports from it:
//! - what takes orders: `Desk`, for one caller at a time; `Board` with its `Seat`s, for several threads; `Rules`, by
//!   which requests wait;
//! - for boards, what names one (`BoardName`, `LogName`, `FreshLog`, `Ask`), what it says in place of an answer
//!   (`OpenFault`, `HandFault`, `NoView`, `CloseFault`), and what a batch of orders needs (`MOST_IN_BATCH`,
//!   `ToldLists`, `Outgoing`, `NothingOutgoing`);
//! - where lines go, a `Journal`: `Lines`, `NoJournal`, or `Streamed` with `WhenWriterFails`;
//! - `History` and its `Line`s; its text by `read_trace`, `print_trace`, `write_trace`, `first_line` and `has_text`,
//!   with `TraceRoom`, `TraceFault` and `Unwritten`;
//! - what is said of a history: `check` with its `Verdict`, `quiet`, and the laws in `laws`.
//!
//! An `Order` is imported from `fl_order`, and `Tolds`, the room for replies, from `fl_core`.
//!
//! For example, `Desk::new(alloc, Rules::standard())` makes a desk, whose `take` answers an order, and of what its
//! `into_history` gives `check` says `Verdict::Legal`.
#![tactic(auto)]

mod checking;

pub use checking::{check, quiet};
pub use fl_board::{
    Board, BoardName, CloseFault, FreshLog, HandFault, LogName, NoView, OpenFault, Seat,
};
pub use fl_core::Rules;
pub use fl_desk::{Desk, MOST_IN_BATCH, NothingOutgoing, Outgoing, ToldLists, laws};
pub use fl_history::{History, Journal, Line, Lines, NoJournal};
pub use fl_judge::Verdict;
pub use fl_log::Ask;
pub use fl_stream::{
    Streamed, TraceFault, TraceRoom, Unwritten, WhenWriterFails, has_text, print_trace, read_trace,
    write_trace,
};
pub use fl_trace::first_line;
