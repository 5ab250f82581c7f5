//! What a server reads and writes, beside its sessions: the socket that it listens at, a reader that spins, writers
//! that try again, a trace's file, and its pieces.
//!
//! Contracts see no failure of a reader or a writer, and no file system. They let through:
//! - a `connection` that first removes what stands at the path, leaves the socket's file there, or removes it too soon;
//! - a `file_at` that gives other numbers than the file's device and inode, or those of a file at another path;
//! - a `remove_socket` that asks `is_same_socket` about another path, or removes the file whatever the answer is;
//! - a `remove_stale` that removes a socket at which somebody listens, or none;
//! - a `Retrying` that gives up at `Wait`, tries again at `End`, or doesn't pause; an `Announcing` that tells always or
//!   never, or that all is written before it is;
//! - an `is_at` that always gives the same answer; a `PlacedFile` that never looks, or always, says what isn't so, puts
//!   nothing back, or another text, or over a file with something in it, or tells nothing;
//! - a `new_first_piece` or a `file_to_go_on_in` that is always refused, or whose file is at another path, doesn't append,
//!   or can't be read; the first if it writes over a file that is there, the other if it empties the file, or makes none;
//! - a `FilePieces` that is never due, or too early; that gives a piece another number, name, mode or owner, or none; that
//!   does its calls in another order, forces nothing to the disk, or removes a file that is no piece, or none;
//! - a `last_piece`, an `OlderPieces` or a `remove_if_at` that takes another file, or none;
//! - a `Spinning` that never or always spins, reads on after a read that failed, or leaves its socket so that it
//!   doesn't wait, and then is told as interrupted again and again; or that never ticks;
//! - a `Patient` that tries once, tries again after any failure, tells an error always or another, or leaves its socket
//!   so that it doesn't wait.
//!
//! These tests refuse most of them:
//! - the file at the path, before a server listens: `try_paths_that_cannot_be_bound` of `tests/serve/sockets.py`;
//! - the file at the path, once a client connects: `try_a_file_of_somebody_else` of `tests/serve/sockets.py`, and
//!   `try_ends` of `tests/serve/sessions.py`;
//! - files that are there, go, or can't be written, and old sockets: `tests/serve/traces.py`, `tests/resume/files.py`;
//! - pieces, and servers that are killed in a turn: `tests/resume/pieces.py`;
//! - when all is written again: `tests/commands/words.py`, `tests/commands/texts.py`.
//!
//! None sees another device in a `file_at`, or a `Spinning` that reads on after a failed read.
#![tactic(auto)]

mod pieces;
mod placed_file;
mod retrying;
mod socket;
mod spinning;
mod trace_file;

pub use pieces::{FilePieces, OlderPieces, Rotation, is_link, last_piece};
pub use placed_file::{PlacedFile, TracePath, next_name};
pub use retrying::{Announcing, PieceWriter, Retrying, TraceWriter, WhenUnwritten};
pub use socket::{OldSocket, connection};
pub use spinning::{Patient, Spinning};
pub use trace_file::{file_to_go_on_in, is_at, new_first_piece, remove_if_at};
