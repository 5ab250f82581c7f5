//! `lockd serve --resume`, as functions over a reader and writers: a session that goes on behind the lines of a trace,
//! whose file gets the lines of an order before any of its replies leaves.
//!
//! `resumed_from` reads a trace by any reader, and gives the lines behind which a server goes on. `resume_stream`
//! serves a session behind them, over any reader and two writers, the client's and the trace's file. Its clauses speak
//! of one and the same session: what was read and written, what the file has of its lines, the lines on `faults` and
//! the status. A kill is a reader and writers that fail from some call on, so what they say of the end is said of each
//! moment of a server; `lockd_serve::laws` says what the next one reads of its file. `resume_on` does both with a file
//! and a socket: it locks the file and cuts it off. Of the bytes of these contracts see nothing, nor a failure of a
//! reader or a writer. They let through:
//! - a `resumed_from` that is always refused, and what `fl_judge` lets through;
//! - a `resume_stream` that says that the file isn't whole though it is, or writes nothing to it before a reply waits;
//! - one that hangs up before the session, or not at all;
//! - one that prints a fault in part or not at all; what `fl_session`, `fl_stream` and `lockd_streams` let through;
//! - a `resume_on` that serves nobody, or a client all the same, and prints any of its faults or none, hands on no
//!   lines, or others than the file's, or writes the new ones elsewhere;
//! - one that cuts nothing off or too much, or a file at `no memory`, or one whose lines differ or that may be no
//!   trace; that doesn't lock its file, or only once it was read, or doesn't ask at the end whether it is there;
//! - a `PieceLines` that is due too early, or never; a `resume_on` that gives its pieces another rotation;
//! - a `head_rules` that names others, or none; a piece that is found illegal, or not to fit, though it is and does;
//! - a change of rules that loses the replies that the last piece lacks; one that is refused, or isn't;
//! - a server that reads no piece before, since it may go on behind a gap, or says wrongly whether it does;
//! - a server that tells its observer something else than what it does, or nothing, or another reason.
//!
//! These tests refuse most of them:
//! - `resume_on`, its file and old sockets: `tests/serve/sessions.py`, `tests/resume/kills.py`,
//!   `tests/resume/files.py`;
//! - pieces, other rules: `tests/resume/pieces.py`; files that go or can't be written: `tests/serve/traces.py`;
//! - `no memory`, and what the trace's file has then: `tests/serve/allocations.py`;
//! - what an observer is told: `tests/commands/words.py`, `tests/commands/texts.py`.
#![tactic(auto)]

mod before;
mod behind;
mod hang_up;
mod observer;
mod other_rules;
mod point;
mod reading;
mod resume_file;
mod resuming;

pub use before::PiecesBefore;
pub use behind::ResumedRun;
pub use hang_up::{HangUp, hang_up_if};
pub use observer::ResumeObserver;
pub use other_rules::head_rules;
pub use point::ResumePoint;
pub use reading::resumed_from;
pub use resume_file::{Resuming, resume_on};
pub use resuming::resume_stream;
