//! The text of a history, written in pieces.

ghost use Rattle.std.specs.Prelude.{◌≡◌, ◌+◌, ◌≤◌, [], length, IsTrue, OnOk, vec_capacity};
ghost use Rattle.std.specs.Io.KnownBytes.{Appends};
ghost use Rattle.fl_stream.specs.Inside.Moves.{Moves};
ghost use Rattle.fl_stream.specs.Streams.{WroteSome};
ghost use Rattle.fl_trace.specs.Text.{text_of};

use crate::writing::send;
use fl_history::History;
use fl_order::NoMemory;
use fl_trace::{LINE_ROOM, push_line};
use std::alloc::Global;
use std::io::Write;

/// So many bytes of text wait at the most before they are written.
const ROOM: usize = 65_536;

/// The room through which the text of a history goes to a writer: 65,536 bytes, made once.
#[derive(Drop)]
pub struct TraceRoom {
    waiting: Vec<u8>,
    ghost room: { 700 ≤ vec_capacity waiting },
}

impl TraceRoom {
    /// Room with nothing in it.
    pub fn new(alloc: Global) -> Result<TraceRoom, NoMemory> {
        Ok(TraceRoom {
            waiting: Vec::with_capacity(alloc, ROOM)?,
        })
    }
}

/// A write failed or took nothing, or the writer couldn't hand on what it took: the text of a history isn't all
/// written.
#[derive(Clone, Copy, Debug, PartialEq, Eq)]
pub struct Unwritten;

/// Writes the text of a history, as `print_trace` spells it, and hands it on. It takes no memory, however long the
/// history is.
pub fn write_trace<W: Write>(
    room: &mut TraceRoom,
    history: &History,
    writer: &mut W,
) -> Result<(), Unwritten>
    ensures written { OnOk result (Appends (W.contents writer.old) (W.contents writer.new) (text_of history.now)) }
    ensures begun { WroteSome (text_of history.now) (W.contents writer.old) (W.contents writer.new) }
{
    room.waiting.clear();
    if write_lines(history, &mut room.waiting, writer) {
        Ok(())
    } else {
        Err(Unwritten)
    }
}

// Writes the text of a history through this room, and says whether all of it is written and handed on.
#[tactic(auto, using(crate::proofs::TextPieces::printed_none))]
fn write_lines<W: Write>(history: &History, waiting: &mut Vec<u8>, writer: &mut W) -> bool
    requires none { waiting.old.items ≡ [] }
    requires room { 700 ≤ vec_capacity waiting.old }
    ensures room { 700 ≤ vec_capacity waiting.new }
    ensures written { IsTrue result → Appends (W.contents writer.old) (W.contents writer.new) (text_of history.now) }
    ensures begun { WroteSome (text_of history.now) (W.contents writer.old) (W.contents writer.new) }
{
    for at in 0..history.len() {
        if !make_room(waiting, writer) {
            return false;
        }
        push_line(waiting, &history.line(at));
    }
    finish(waiting, writer)
}

// Writes what waits if there is no room for a line behind it, and says whether there is now.
#[tactic(auto, using(crate::proofs::TextPieces::moved_none))]
fn make_room<W: Write>(waiting: &mut Vec<u8>, writer: &mut W) -> bool
    requires room { 700 ≤ vec_capacity waiting.old }
    ensures moved { Moves (W.contents writer.old) (W.contents writer.new) waiting.old.items waiting.new.items }
    ensures room { IsTrue result → length waiting.new.items + 700 ≤ vec_capacity waiting.new }
    ensures capacity { vec_capacity waiting.new ≡ vec_capacity waiting.old }
{
    waiting.capacity() - waiting.len() >= LINE_ROOM || send(writer, waiting)
}

// Writes what waits and hands it on, and says whether that is done.
#[tactic(auto, using(crate::proofs::TextPieces::moved_kept))]
fn finish<W: Write>(waiting: &mut Vec<u8>, writer: &mut W) -> bool
    ensures moved { Moves (W.contents writer.old) (W.contents writer.new) waiting.old.items waiting.new.items }
    ensures all { IsTrue result → waiting.new.items ≡ [] }
    ensures capacity { vec_capacity waiting.new ≡ vec_capacity waiting.old }
{
    send(writer, waiting) && writer.flush().is_ok()
}
