//! Streams over writers whose first writes fail, or that can't hand on what was written.

ghost use Rattle.std.specs.Prelude.{◌≡◌, [], Some};
ghost use Rattle.fl_stream.specs.Streams.{IsBlank};

use super::storing::stored;
use super::{Course, LINES, TRACE, count_is, course_is, first_line, hand, history_of, holds};
use fl_history::{Journal, Line};
use fl_stream::{Streamed, WhenWriterFails};
use std::alloc::Global;
use std::io;
use std::io::{ErrorKind, Write};
use std::process::Abort;

// Fails at its first writes, so many, and keeps what is written later. It fails at one flush behind so many.
#[derive(Drop)]
pub(super) struct Late {
    pub(super) held: Vec<u8>,
    failures: usize,
    flushes: usize,
    fails_at: usize,
}

impl Write for Late {
    ghost contents = { λ late. Some late.held.items };

    fn write(&mut self, buf: &[u8]) -> io::Result<usize> {
        if self.failures > 0 {
            self.failures -= 1;
            return Err(io::Error::from(ErrorKind::Other));
        }
        self.held.write(buf)
    }

    fn flush(&mut self) -> io::Result<()> {
        let flushes = self.flushes;
        self.flushes = flushes.saturating_add(1);
        if flushes == self.fails_at {
            return Err(io::Error::from(ErrorKind::Other));
        }
        Ok(())
    }
}

pub(super) fn writer_that_fails(alloc: Global, failures: usize, fails_at: usize) -> Late
    ensures { result.held.items ≡ [] }
{
    Late {
        held: Vec::new(alloc),
        failures,
        flushes: 0,
        fails_at,
    }
}

// Hands a line to a journal and stores it, three times. It says each time whether the line was taken, and whether all
// is stored.
fn rounds<J: Journal>(journal: &mut J, line: &Line) -> [bool; 6] {
    [
        hand(journal, line),
        journal.store_if_due(),
        hand(journal, line),
        journal.store_if_due(),
        hand(journal, line),
        journal.store_if_due(),
    ]
}

// Three rounds of a stream over this writer, and the writer.
fn went<W: Write + Drop>(
    rt: &impl Abort,
    writer: W,
    manner: WhenWriterFails,
    alloc: Global,
) -> ([bool; 6], W)
    requires { IsBlank (W.contents writer) }
{
    let made = Streamed::new(alloc, writer, manner);
    let mut stream = made.expect(rt, "no memory");
    let line = first_line(rt, alloc);
    let rounds = rounds(&mut stream, &line);
    (rounds, stream.into_writer())
}

// The rounds over a writer that fails so often go like this, and then it holds so many lines.
fn goes(
    rt: &impl Abort,
    alloc: Global,
    manner: WhenWriterFails,
    failures: usize,
    wanted: [bool; 6],
    lines: usize,
) {
    let writer = writer_that_fails(alloc, failures, usize::MAX);
    let (rounds, writer) = went(rt, writer, manner, alloc);
    assert_eq!(rt; rounds, wanted);
    count_is(rt, writer.held.len(), lines.saturating_mul(43));
}

const YES: bool = true;

const NO: bool = false;

// What comes of three rounds over writers that fail so often, and how many lines are written then. A line that couldn't
// be stored is stored by the write before the next line is taken; other streams take all lines.
const ROUNDS: [(WhenWriterFails, usize, [bool; 6], usize); 9] = [
    (
        WhenWriterFails::Refuse,
        0,
        [YES, YES, YES, YES, YES, YES],
        3,
    ),
    (WhenWriterFails::Refuse, 1, [YES, NO, YES, YES, YES, YES], 3),
    (WhenWriterFails::Refuse, 2, [YES, NO, NO, YES, YES, YES], 2),
    (WhenWriterFails::Refuse, 3, [YES, NO, NO, NO, YES, YES], 2),
    (WhenWriterFails::Refuse, 4, [YES, NO, NO, NO, NO, YES], 1),
    (WhenWriterFails::Refuse, 9, [YES, NO, NO, NO, NO, NO], 0),
    (WhenWriterFails::End, 2, [YES, NO, YES, NO, YES, YES], 3),
    (WhenWriterFails::GoOn, 0, [YES, YES, YES, YES, YES, YES], 0),
    (WhenWriterFails::GoOn, 9, [YES, YES, YES, YES, YES, YES], 0),
];

#[test]
fn no_line_is_taken_between_a_write_that_failed_and_one_that_succeeds(rt: HostRuntime) {
    for (manner, failures, wanted, lines) in ROUNDS.iter() {
        goes(&rt, rt.alloc(), *manner, *failures, *wanted, *lines);
    }
}

// What was written isn't stored if the writer couldn't hand it on.
#[test]
fn a_writer_is_flushed_behind_each_write(rt: HostRuntime) {
    let alloc = rt.alloc();
    let history = history_of(&rt, alloc, TRACE);
    let (course, writer) = stored(
        &rt,
        writer_that_fails(alloc, 0, 5),
        WhenWriterFails::End,
        &history,
        alloc,
    );
    let wanted = Course {
        count: 1,
        written: true,
        broken: false,
    };
    course_is(&rt, &course, &wanted);
    holds(&rt, &writer.held, TRACE.as_bytes());
    count_is(&rt, writer.flushes, LINES + 2);
}
