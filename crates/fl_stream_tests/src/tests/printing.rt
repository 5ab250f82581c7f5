//! Histories whose text is written in pieces.

use super::refusing::writer_that_fails;
use super::{TRACE, count_is, first_line, history_of, holds};
use fl_history::{History, Line};
use fl_stream::{TraceRoom, Unwritten, write_trace};
use fl_testing::{Sink, Trouble};
use std::alloc::Global;
use std::io::ErrorKind;
use std::process::Abort;

fn came(rt: &impl Abort, found: Result<(), Unwritten>, wanted: Result<(), Unwritten>) {
    assert!(rt; found == wanted);
}

// A history is written through the room, or it is told that it isn't. Then the writer holds these bytes.
fn written(
    rt: &impl Abort,
    room: &mut TraceRoom,
    history: &History,
    sink: Sink,
    wanted: Result<(), Unwritten>,
    held: &[u8],
) {
    let mut sink = sink;
    let found = write_trace(room, history, &mut sink);
    came(rt, found, wanted);
    holds(rt, &sink.held, held);
}

// A history of one line, so many times: 43 bytes of text each.
fn long_history(rt: &impl Abort, alloc: Global, line: &Line, times: usize) -> History {
    let mut history = History::new(alloc);
    for _ in 0..times {
        let pushed = history.push(line).is_ok();
        assert!(rt; pushed);
    }
    history
}

// What a write that failed has left in the room isn't written with the next history. A writer that takes seven bytes
// with a write, and then none, holds those that it took.
#[test]
fn a_room_is_used_again(rt: HostRuntime) {
    let alloc = rt.alloc();
    let history = history_of(&rt, alloc, TRACE);
    let mut room = TraceRoom::new(alloc).expect(&rt, "memory");
    let full = Sink::new(alloc, 7, Trouble::behind(5, None));
    written(
        &rt,
        &mut room,
        &history,
        full,
        Err(Unwritten),
        &TRACE.as_bytes()[..35],
    );
    let a_byte = Sink::new(alloc, 1, Trouble::none());
    written(&rt, &mut room, &history, a_byte, Ok(()), TRACE.as_bytes());
    let sink = Sink::new(alloc, 1, Trouble::none());
    written(&rt, &mut room, &History::new(alloc), sink, Ok(()), b"");
}

// A long history is written, or not, to a writer of this trouble. It says how many writes there were.
fn goes_out(
    rt: &impl Abort,
    room: &mut TraceRoom,
    history: &History,
    sink: Sink,
    wanted: Result<(), Unwritten>,
) -> usize {
    let mut sink = sink;
    let found = write_trace(room, history, &mut sink);
    came(rt, found, wanted);
    let whole = sink.held.len() == history.len().saturating_mul(43);
    assert!(rt; whole == wanted.is_ok());
    sink.writes
}

// Text that is longer than the room goes out in several writes. One that is interrupted is tried again, and none comes
// behind one that fails.
#[test]
fn each_write_of_a_long_history_fails(rt: HostRuntime) {
    let alloc = rt.alloc();
    let line = first_line(&rt, alloc);
    let history = long_history(&rt, alloc, &line, 10_000);
    let mut room = TraceRoom::new(alloc).expect(&rt, "memory");
    for fails_at in 0..6usize {
        let sink = Sink::failing_once(alloc, fails_at, ErrorKind::Other);
        let writes = goes_out(&rt, &mut room, &history, sink, Err(Unwritten));
        count_is(&rt, writes, fails_at.saturating_add(1));
    }
    let sink = Sink::failing_once(alloc, 2, ErrorKind::Interrupted);
    let writes = goes_out(&rt, &mut room, &history, sink, Ok(()));
    assert!(&rt; writes > 6 && writes < 10);
}

// All is written, and the writer can't hand it on.
#[test]
fn a_history_whose_writer_cannot_be_flushed(rt: HostRuntime) {
    let alloc = rt.alloc();
    let history = history_of(&rt, alloc, TRACE);
    let mut room = TraceRoom::new(alloc).expect(&rt, "memory");
    let mut writer = writer_that_fails(alloc, 0, 0);
    let found = write_trace(&mut room, &history, &mut writer);
    came(&rt, found, Err(Unwritten));
    holds(&rt, &writer.held, TRACE.as_bytes());
}
