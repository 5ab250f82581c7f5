//! `lockd serve`, as functions over a reader and writers.
//!
//! `serve_stream` serves a session over any reader and any writer. Its clauses speak of one and the same session: what
//! was read and written, the trace, the lines on `faults` and the status. `serve_on` serves so the first connection to
//! a socket. `laws` says what a server that goes on reads of a killed server's file, `session_laws` more of sessions.
//! Of the bytes of a socket contracts see nothing, nor a failure of a reader or a writer. They let through:
//! - a `serve_stream` that says `no memory` and serves nobody, or says wrongly that the output failed, or that the
//!   trace's writer did, then perhaps in place of its own fault;
//! - one that does with lines what another `when_full` says, but at `Refuse` and `End` not what `GoOn` says;
//! - one that hangs up before the session, only once the trace is printed, or not at all;
//! - one that prints a fault in part, or not at all, and what `fl_session`, `fl_serve`, `fl_stream`, `lockd_streams`
//!   and `lockd_resume` let through;
//! - a `serve_on` that always says `cannot listen`, or serves something else than the connection;
//! - a server that tells its observer something else than what it does, or nothing, or another reason.
//!
//! These tests refuse most of them:
//! - sessions of each kind, over a socket: `tests/serve/sockets.py`, `tests/serve/sessions.py`,
//!   `tests/serve/workers.py`;
//! - traces, files that go or can't be written, and `when_full`: `tests/serve/traces.py`;
//! - `no memory`, and what the trace's file has then: `tests/serve/allocations.py`;
//! - what an observer is told: `tests/commands/words.py`, `tests/commands/texts.py`.
#![tactic(auto)]

mod ending;
pub mod laws;
mod options;
mod serve;
mod serving;
pub mod session_laws;
mod trace_file;
mod unused;

pub use fl_stream::WhenWriterFails;
pub use lockd_faults::{Observer, Parting, Untraced, end_unopened};
pub use lockd_resume::{HangUp, Resuming, head_rules, resume_on};
pub use lockd_streams::{
    Rotation, TracePath, TraceWriter, WhenUnwritten, file_to_go_on_in, is_at, new_first_piece,
    next_name, remove_if_at,
};
pub use options::{ServeOptions, TraceTo};
pub use serve::serve_on;
pub use serving::serve_stream;
pub use trace_file::{end_traced_to, new_file};
pub use unused::is_unused;
