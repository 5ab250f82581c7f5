//! Bytes that go to a writer, and what is left of them if it fails.

ghost use Rattle.std.specs.Prelude.{◌≡◌, ◌≤◌, [], length, take, drop, IsTrue, vec_len, vec_capacity};
ghost use Rattle.std.specs.Io.KnownBytes.{Appends};
ghost use Rattle.fl_stream.specs.Inside.Moves.{Moves};

use std::io::{ErrorKind, Write};

/// Writes the bytes, and keeps those that a write which failed has left. It says whether none is left.
#[tactic(auto, using(crate::proofs::Streaming::front_moves))]
pub(crate) fn send<W: Write>(writer: &mut W, unsent: &mut Vec<u8>) -> bool
    ensures moved { Moves (W.contents writer.old) (W.contents writer.new) unsent.old.items unsent.new.items }
    ensures all { IsTrue result → unsent.new.items ≡ [] }
    ensures capacity { vec_capacity unsent.new ≡ vec_capacity unsent.old }
    ensures fewer { vec_len unsent.new ≤ vec_len unsent.old }
{
    let sent = write_front(writer, unsent);
    remove_front(unsent, sent);
    unsent.is_empty()
}

// Writes until all is written or a write fails, and says how many bytes were.
fn write_front<W: Write>(writer: &mut W, bytes: &[u8]) -> usize
    ensures bound { result ≤ length bytes.now }
    ensures bytes { Appends (W.contents writer.old) (W.contents writer.new) (take result bytes.now) }
{
    let mut at = 0;
    for _ in 0..u64::MAX {
        let (n, more) = write_some(writer, &bytes[at..]);
        at += n;
        if !more {
            break;
        }
    }
    at
}

// One write, if there is something. It says how many bytes went, and whether the next write may take more: not if
// this one failed or took nothing, unless it was interrupted.
fn write_some<W: Write>(writer: &mut W, bytes: &[u8]) -> (usize, bool)
    ensures bound { result.0 ≤ length bytes.now }
    ensures bytes { Appends (W.contents writer.old) (W.contents writer.new) (take result.0 bytes.now) }
{
    if bytes.is_empty() {
        return (0, false);
    }
    match writer.write(bytes) {
        Ok(n) => (n, n > 0),
        Err(error) => (0, error.kind() == ErrorKind::Interrupted),
    }
}

// Nothing is moved where a write took nothing: a megabyte may wait.
fn remove_front(bytes: &mut Vec<u8>, n: usize)
    requires { n ≤ vec_len bytes.old }
    ensures items { bytes.new.items ≡ drop n bytes.old.items }
    ensures capacity { vec_capacity bytes.new ≡ vec_capacity bytes.old }
{
    if n == 0 {
        return;
    }
    let len = bytes.len();
    bytes.as_mut_slice().copy_within(n..len, 0);
    bytes.truncate(len - n);
}
