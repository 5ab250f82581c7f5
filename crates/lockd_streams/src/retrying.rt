//! Writers of a trace's file: one that tells when it can't be written, and one that waits until it can.

ghost use Rattle.std.specs.Prelude.{◌≡◌};

use crate::placed_file::{PlacedFile, TracePath};
use std::fs::File;
use std::io;
use std::io::{ErrorKind, Write};
use std::marker::Model;
use std::thread::sleep;
use std::time::{Clock, Duration};

// How many milliseconds it is until a write is tried again.
const PAUSE: u64 = 100;

/// Writes to a file, and tells the first of writes that fail, and the first behind it that takes all bytes that wait.
/// Of a draft, the head of a next piece, it tells the first alone. Contracts see the file.
#[derive(Drop)]
pub struct Announcing<'a, T, N> {
    file: T,
    name: &'a str,
    notices: N,
    // A write failed, and none took all bytes after it.
    failed: bool,
    is_draft: bool,
}

impl<'a, T, N> Model for Announcing<'a, T, N> {
    ghost Value = { T };

    ghost view = { λ t. t.file };
}

impl<'a, T: Write, N: Write> Announcing<'a, T, N> {
    /// To a file of this name. Each line that it tells goes to `notices`.
    pub fn new(file: T, name: &'a str, notices: N) -> Announcing<'a, T, N>
        ensures { result ≡ file }
    {
        Announcing {
            file,
            name,
            notices,
            failed: false,
            is_draft: false,
        }
    }

    /// To the file of the next piece of one of this name, while its head is written. If a failure was told before, none
    /// is told again.
    pub fn draft(file: T, name: &'a str, notices: N, told: bool) -> Announcing<'a, T, N>
        ensures { result ≡ file }
    {
        Announcing {
            failed: told,
            is_draft: true,
            ..Announcing::new(file, name, notices)
        }
    }

    /// The file.
    pub fn file(&self) -> &T
        ensures { result.now ≡ self.now }
    {
        &self.file
    }

    // Tells that a write failed, if that isn't told yet.
    fn announce_failure(&mut self, error: &io::Error)
        ensures { self.new ≡ self.old }
    {
        if !self.failed {
            self.failed = true;
            let what = if self.is_draft {
                "no new piece of"
            } else {
                "cannot write"
            };
            let _ = writeln!(self.notices, "{what} {}: {error}", self.name);
        }
    }

    // Tells that all is written, if one failed before.
    fn announce_recovery(&mut self)
        ensures { self.new ≡ self.old }
    {
        if self.failed && !self.is_draft {
            self.failed = false;
            let _ = writeln!(self.notices, "{} is written again", self.name);
        }
    }
}

impl<T: Write, N: Write> Write for Announcing<'_, T, N> {
    ghost contents = { T.contents };

    fn write(&mut self, buf: &[u8]) -> io::Result<usize> {
        let written = self.file.write(buf);
        match &written {
            Ok(count) if *count > 0 && *count == buf.len() => self.announce_recovery(),
            Ok(_) => {}
            Err(error) if error.kind() == ErrorKind::Interrupted => {}
            Err(error) => self.announce_failure(error),
        }
        written
    }

    fn flush(&mut self) -> io::Result<()> {
        self.file.flush()
    }
}

/// What writes a trace's file, which keeps its place.
pub type TraceWriter<'a, N> = Announcing<'a, PlacedFile<'a, N>, N>;

impl<'a, N: Write + Copy> TraceWriter<'a, N> {
    /// Looks for the file, and says whether it is at its path, with all that it had.
    pub fn is_kept(&mut self) -> bool {
        self.file.is_kept()
    }

    // The head of a next piece counts from now on.
    fn settle(&mut self) {
        self.failed = false;
        self.is_draft = false;
        self.file.settle();
    }
}

/// What a server does that goes on behind a trace, while the trace's file can't be written.
#[derive(Clone, Copy, Debug, PartialEq, Eq)]
pub enum WhenUnwritten {
    /// It tries again, ten times a second. Until then it reads nothing, and no reply leaves.
    Wait,
    /// It ends.
    End,
}

/// A writer at which a write that fails is tried again, if that is wanted. Contracts see that writer.
#[derive(Drop)]
pub struct Retrying<'a, W, C> {
    writer: W,
    clock: &'a C,
    when: WhenUnwritten,
}

impl<'a, W, C> Model for Retrying<'a, W, C> {
    ghost Value = { W };

    ghost view = { λ r. r.writer };
}

impl<'a, W: Write, C: Clock> Retrying<'a, W, C> {
    /// The writer.
    pub fn writer(&self) -> &W
        ensures { result.now ≡ self.now }
    {
        &self.writer
    }

    /// Before this writer.
    pub fn new(writer: W, clock: &'a C, when: WhenUnwritten) -> Retrying<'a, W, C>
        ensures { result ≡ writer }
    {
        Retrying {
            writer,
            clock,
            when,
        }
    }
}

/// What writes a piece of a trace.
pub type PieceWriter<'a, N> = Retrying<'a, TraceWriter<'a, N>, HostRuntime>;

impl<'a, N: Write + Copy> PieceWriter<'a, N> {
    /// To the file at this path, which has so many bytes.
    pub fn behind(
        at: TracePath<'a>,
        file: File,
        bytes: u64,
        when: WhenUnwritten,
        notices: N,
    ) -> PieceWriter<'a, N> {
        let placed = PlacedFile::new(at, file, bytes, notices);
        Retrying::new(Announcing::new(placed, at.name, notices), at.rt, when)
    }

    /// Looks for the file, and says whether it is at its path, with all that it had.
    pub fn is_kept(&mut self) -> bool {
        self.writer.is_kept()
    }

    // The draft of a piece counts from now on, and while it can't be written, this happens.
    pub(crate) fn settle(&mut self, when: WhenUnwritten) {
        self.when = when;
        self.writer.settle();
    }
}

impl<W: Write, C: Clock> Write for Retrying<'_, W, C> {
    ghost contents = { W.contents };

    fn write(&mut self, buf: &[u8]) -> io::Result<usize> {
        if self.when == WhenUnwritten::Wait {
            for _ in 0..u64::MAX {
                let written = self.writer.write(buf);
                if written.is_ok() {
                    return written;
                }
                sleep(self.clock, Duration::from_millis(PAUSE));
            }
        }
        self.writer.write(buf)
    }

    fn flush(&mut self) -> io::Result<()> {
        self.writer.flush()
    }
}
