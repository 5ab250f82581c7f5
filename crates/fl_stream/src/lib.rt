//! The text of histories: of lines that go to a writer, and of a history in memory, both ways.
//!
//! What was written, what waits and what is lost are together the text of all lines. Something is lost only if the
//! stream is broken, and then nothing more is written. Only a stream that goes on without its writer breaks. A stream
//! can begin behind lines that its writer has, and `PieceLines` goes on behind a head at another writer. At `Refuse` and
//! `End`, a `store_all` or `store_if_due` that says yes has written all lines. At `Refuse` a stream that couldn't write
//! takes no order before it has written what waits.
//!
//! Contracts see no failure of a writer, and not whether it was flushed. They let through:
//! - a `Streamed` that breaks though no write failed, or is refused memory that is there;
//! - one that writes nothing before it is finished or, at `Refuse` and `End`, told to store lines, or doesn't flush its
//!   writer;
//! - a `finish`, or at `Refuse` and `End` a `store_all` or a `store_if_due`, that says no though no write failed;
//! - at `GoOn`, a `store_if_due` that writes;
//! - a `PieceLines` that begins a piece too early, or never, or keeps no room for the next head;
//! - a `write_trace` that is always refused, tells a failed write though none failed, or takes more memory.
//!
//! `fl_stream_tests`, `tests/serve/traces.py` and `tests/resume/pieces.py` refuse these. Only tests show that `NoMemory` comes only if an allocation
//! was refused, and that `read_trace` and `print_trace` do their work when they are called again:
//! `a_trace_is_read_and_printed_by_the_second_try` of `fl_stream_tests`, with each allocation refused in turn.
#![tactic(auto)]

mod ahead;
mod manner;
mod piece_lines;
mod pieces;
mod printing;
mod streamed;
mod text;
mod writing;

pub use ahead::AheadLines;
pub use manner::WhenWriterFails;
pub use piece_lines::PieceLines;
pub use pieces::Pieces;
pub use printing::{TraceRoom, Unwritten, write_trace};
pub use streamed::{StreamRoom, Streamed};
pub use text::{TraceFault, has_text, print_trace, read_trace};
