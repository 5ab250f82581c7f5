//! What is written by a journal, an outbox or a command, and what its writer holds then.

mod commands;
mod often;
mod printing;
mod refused;
mod refusing;
mod replies;
mod storing;

use fl_history::{History, Journal, Line};
use fl_stream::{Streamed, read_trace};
use std::alloc::Global;
use std::io::Write;
use std::process::Abort;

// A line for each kind of order and of answer, which need not be legal together.
const TRACE: &str = "\
ask 0 1 1 1000 100 7 create 1 420 6c6f636b
tell 1 made 2 33188 1 1000 100 1
ask 15 18446744073709551615 2 0 0 4294967295 setlkw 1 7 0 9223372036854775807 1 11 0
tell 18446744073709551615 ok
ask 1 3 1 0 0 0 lookup 6c6f636b
tell 3 entry 2 33188 1 1000 100
ask 1 4 2 0 0 0 getattr
tell 4 attr 2 33188 1 1000 100
ask 1 5 2 0 0 0 open
tell 5 open 2
ask 1 6 2 0 0 0 getlk 2 8 0 9 0 11 0
tell 6 lock 0 9223372036854775807 1 4294967295
ask 1 7 2 0 0 0 setlk 2 8 0 9 1 11 1
tell 7 err 11
ask 1 8 2 0 0 0 flush 2 8
tell 8 ok
ask 1 9 2 0 0 0 release 2 1 8
tell 9 ok
ask 1 10 1 0 0 0 unlink -
tell 10 err 2
ask 1 11 2 0 0 0 forget 3
ask 1 12 0 0 0 0 interrupt 5
tell 12 err 11
ask 1 13 1 0 0 0 mknod 33188 70
tell 13 entry 3 33188 1 0 0
ask 1 14 1 0 0 0 mkdir 511 64
tell 14 entry 4 16895 2 0 0
ask 1 15 1 0 0 0 rmdir 64
tell 15 ok
";

const LINES: usize = 29;

fn history_of(rt: &impl Abort, alloc: Global, text: &str) -> History {
    read_trace(alloc, text.as_bytes()).expect(rt, "no trace")
}

// The first line of the trace, whose text has 43 bytes with its newline.
fn first_line(rt: &impl Abort, alloc: Global) -> Line {
    let history = history_of(rt, alloc, TRACE);
    assert!(rt; !history.is_empty());
    history.line(0)
}

fn count_is(rt: &impl Abort, found: usize, wanted: usize) {
    assert_eq!(rt; found, wanted);
}

fn holds(rt: &impl Abort, held: &[u8], wanted: &[u8]) {
    assert_eq!(rt; *held, *wanted);
}

// What became of a stream: a count of its lines, or of the times that it stored none, whether it said at the end that
// all is written, and whether it broke.
#[derive(Clone, Copy, Debug, PartialEq, Eq)]
struct Course {
    count: usize,
    written: bool,
    broken: bool,
}

fn course_is(rt: &impl Abort, found: &Course, wanted: &Course) {
    assert_eq!(rt; *found, *wanted);
}

fn finished<W: Write>(stream: Streamed<W>, count: usize) -> (Course, W) {
    let mut stream = stream;
    let written = stream.finish() && stream.is_whole();
    let broken = stream.is_broken();
    let course = Course {
        count,
        written,
        broken,
    };
    (course, stream.into_writer())
}

// Hands a line to a journal, and says whether it took it. A journal takes no line of a head.
fn hand<J: Journal>(journal: &mut J, line: &Line) -> bool {
    if journal.reserve(1).is_err() {
        return false;
    }
    match line {
        Line::Asked { worker, order } => journal.push_asked(*worker, order),
        Line::Told(told) => journal.push_told(told),
        Line::State(_) => return false,
    }
    true
}
