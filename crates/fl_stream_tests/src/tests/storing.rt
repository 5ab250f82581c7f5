//! Streams that store all lines behind each line, over writers that fail.

ghost use Rattle.std.specs.Prelude.{◌≡◌, []};
ghost use Rattle.fl_stream.specs.Streams.{IsBlank};

use super::{Course, LINES, TRACE, count_is, course_is, finished, hand, history_of, holds};
use fl_history::{History, Journal};
use fl_stream::{Streamed, WhenWriterFails};
use fl_testing::{Sink, Trouble};
use std::alloc::Global;
use std::io::{ErrorKind, Write};
use std::process::Abort;

// Has a journal store all lines, and once more if that says no. It says how many times that said no.
fn refusals<J: Journal>(journal: &mut J) -> usize {
    if journal.store_all() {
        0
    } else if journal.store_all() {
        1
    } else {
        2
    }
}

// Hands all lines of a history to a journal, and has it store them behind each. It says how many times that said no.
fn store_each<J: Journal>(rt: &impl Abort, journal: &mut J, history: &History) -> usize {
    let mut failed = 0usize;
    for at in 0..history.len() {
        let taken = hand(journal, &history.line(at));
        assert!(rt; taken);
        failed = failed.saturating_add(refusals(journal));
    }
    failed
}

// Stores the lines of a history by a stream over this writer, counts how many times that said no, and gives it back.
pub(super) fn stored<W: Write + Drop>(
    rt: &impl Abort,
    writer: W,
    manner: WhenWriterFails,
    history: &History,
    alloc: Global,
) -> (Course, W)
    requires { IsBlank (W.contents writer) }
{
    let made = Streamed::new(alloc, writer, manner);
    let mut stream = made.expect(rt, "no memory");
    let failed = store_each(rt, &mut stream, history);
    finished(stream, failed)
}

// Storing says no so many times over this writer, and all is written at the end.
fn is_caught_up(
    rt: &impl Abort,
    alloc: Global,
    history: &History,
    manner: WhenWriterFails,
    sink: Sink,
    failed: usize,
)
    requires { sink.held.items ≡ [] }
{
    let (course, sink) = stored(rt, sink, manner, history, alloc);
    let wanted = Course {
        count: failed,
        written: true,
        broken: false,
    };
    course_is(rt, &course, &wanted);
    holds(rt, &sink.held, TRACE.as_bytes());
}

#[test]
fn all_is_written_if_no_write_fails(rt: HostRuntime) {
    let alloc = rt.alloc();
    let history = history_of(&rt, alloc, TRACE);
    for manner in [
        WhenWriterFails::GoOn,
        WhenWriterFails::Refuse,
        WhenWriterFails::End,
    ] {
        let a_byte = Sink::new(alloc, 1, Trouble::none());
        is_caught_up(&rt, alloc, &history, manner, a_byte, 0);
        let interrupted = Sink::failing_once(alloc, 3, ErrorKind::Interrupted);
        is_caught_up(&rt, alloc, &history, manner, interrupted, 0);
    }
}

#[test]
fn what_was_left_is_stored_the_next_time(rt: HostRuntime) {
    let history = history_of(&rt, rt.alloc(), TRACE);
    for fails_at in 0..LINES {
        for manner in [WhenWriterFails::Refuse, WhenWriterFails::End] {
            let sink = Sink::failing_once(rt.alloc(), fails_at, ErrorKind::Other);
            is_caught_up(&rt, rt.alloc(), &history, manner, sink, 1);
        }
    }
}

#[test]
fn each_write_of_seven_bytes_fails_once(rt: HostRuntime) {
    let history = history_of(&rt, rt.alloc(), TRACE);
    for fails_at in 0..100 {
        let sink = Sink::new(rt.alloc(), 7, Trouble::once(fails_at, None));
        is_caught_up(&rt, rt.alloc(), &history, WhenWriterFails::End, sink, 1);
    }
}

// The writer fails behind so many writes, and then nothing more is written. The lines were taken, and storing them
// says yes each time. What the writer holds is a beginning of the trace, of a byte at least for each write.
fn goes_on(rt: &impl Abort, alloc: Global, history: &History, sink: Sink, writes: usize)
    requires { sink.held.items ≡ [] }
{
    let (course, sink) = stored(rt, sink, WhenWriterFails::GoOn, history, alloc);
    let wanted = Course {
        count: 0,
        written: false,
        broken: true,
    };
    course_is(rt, &course, &wanted);
    assert!(rt; sink.held.len() >= writes && TRACE.as_bytes().starts_with(&sink.held));
    count_is(rt, sink.writes, writes.saturating_add(1));
}

#[test]
fn orders_go_on_without_the_writer(rt: HostRuntime) {
    let history = history_of(&rt, rt.alloc(), TRACE);
    for writes in 0..100 {
        let sink = Sink::new(rt.alloc(), 7, Trouble::behind(writes, None));
        goes_on(&rt, rt.alloc(), &history, sink, writes);
    }
    for writes in 0..LINES {
        let sink = Sink::failing_once(rt.alloc(), writes, ErrorKind::Other);
        goes_on(&rt, rt.alloc(), &history, sink, writes);
    }
}

#[test]
fn lines_wait_for_a_writer_that_always_fails(rt: HostRuntime) {
    let alloc = rt.alloc();
    let history = history_of(&rt, alloc, TRACE);
    let sink = Sink::new(alloc, 7, Trouble::behind(0, None));
    let (course, sink) = stored(&rt, sink, WhenWriterFails::End, &history, alloc);
    let wanted = Course {
        count: 2 * LINES,
        written: false,
        broken: false,
    };
    course_is(&rt, &course, &wanted);
    count_is(&rt, sink.held.len(), 0);
}
