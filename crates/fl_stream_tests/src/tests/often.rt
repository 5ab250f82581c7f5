//! Streams that take one line again and again, and store them at the end.

ghost use Rattle.std.specs.Prelude.{◌≡◌, []};

use super::{Course, count_is, course_is, finished, first_line, hand};
use fl_history::{Journal, Line};
use fl_stream::{Streamed, WhenWriterFails};
use fl_testing::{Sink, Trouble};
use std::alloc::Global;
use std::io::ErrorKind;
use std::process::Abort;

// Hands one line to a journal so many times, stores none, and says how often it took it.
fn hand_often<J: Journal>(journal: &mut J, line: &Line, times: usize) -> usize {
    let mut taken = 0usize;
    for _ in 0..times {
        if hand(journal, line) {
            taken = taken.saturating_add(1);
        }
    }
    taken
}

// Hands the first line so many times to a stream over this writer, and gives the writer back.
fn streamed(
    rt: &impl Abort,
    alloc: Global,
    manner: WhenWriterFails,
    sink: Sink,
    times: usize,
) -> (Course, Sink)
    requires { sink.held.items ≡ [] }
{
    let line = first_line(rt, alloc);
    let made = Streamed::new(alloc, sink, manner);
    let mut stream = made.expect(rt, "no memory");
    let taken = hand_often(&mut stream, &line, times);
    finished(stream, taken)
}

// It takes as many as are wanted of so many lines, and all of those are written, or none. It says how many writes there
// were.
fn goes(
    rt: &impl Abort,
    alloc: Global,
    manner: WhenWriterFails,
    sink: Sink,
    times: usize,
    wanted: Course,
) -> usize
    requires { sink.held.items ≡ [] }
{
    let (course, sink) = streamed(rt, alloc, manner, sink, times);
    course_is(rt, &course, &wanted);
    let lines = if wanted.written { wanted.count } else { 0 };
    count_is(rt, sink.held.len(), lines.saturating_mul(43));
    sink.writes
}

// Nothing is written before it is stored, if there is room. There is for 2,048 lines.
#[test]
fn lines_are_written_when_the_room_is_full(rt: HostRuntime) {
    for (times, wanted) in [(2_048, 1), (60_000, 30)] {
        let sink = Sink::new(rt.alloc(), usize::MAX, Trouble::none());
        let course = Course {
            count: times,
            written: true,
            broken: false,
        };
        let writes = goes(
            &rt,
            rt.alloc(),
            WhenWriterFails::Refuse,
            sink,
            times,
            course,
        );
        count_is(&rt, writes, wanted);
    }
}

// Whether the first write alone fails of a stream of this manner, or all, and how many of 40,000 lines it takes then.
// - `Refuse` takes no line while a write failed. `GoOn` takes all, and writes none.
// - Lines are taken before the first write, which is needed behind 2,048 of them. At `End` lines of 43 bytes are taken
//   while 700 more have room behind them, in 2,048 times 700 bytes.
const FAILING: [(bool, WhenWriterFails, usize); 5] = [
    (true, WhenWriterFails::Refuse, 39_999),
    (true, WhenWriterFails::End, 40_000),
    (true, WhenWriterFails::GoOn, 40_000),
    (false, WhenWriterFails::Refuse, 2_048),
    (false, WhenWriterFails::End, 33_324),
];

#[test]
fn a_room_is_full_while_writes_fail(rt: HostRuntime) {
    for (once, manner, taken) in FAILING.iter() {
        let trouble = Trouble {
            once: *once,
            ..Trouble::behind(0, Some(ErrorKind::Other))
        };
        let broken = *manner == WhenWriterFails::GoOn;
        let course = Course {
            count: *taken,
            written: *once && !broken,
            broken,
        };
        let sink = Sink::new(rt.alloc(), usize::MAX, trouble);
        let _writes = goes(&rt, rt.alloc(), *manner, sink, 40_000, course);
    }
}
