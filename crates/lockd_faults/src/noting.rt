//! A stream that keeps why a read or a write failed.

ghost use Rattle.std.specs.Prelude.{◌≡◌};

use std::io;
use std::io::{ErrorKind, Read, Write};

/// Reads from or writes to another stream, and keeps why the last read or write that failed did so.
#[derive(Drop)]
pub struct Noting<S> {
    stream: S,
    failed: Option<ErrorKind>,
}

impl<S> Noting<S> {
    /// Nothing was read or written yet.
    pub fn new(stream: S) -> Noting<S>
        ensures { result.stream ≡ stream }
    {
        Noting {
            stream,
            failed: None,
        }
    }

    /// Why the last read or write that failed did so; none if none failed.
    pub fn failed(&self) -> Option<ErrorKind> {
        self.failed
    }
}

impl<S: Read> Read for Noting<S> {
    ghost remaining = { λ n. S.remaining n.stream };

    fn read(&mut self, buf: &mut [u8]) -> io::Result<usize> {
        let read = self.stream.read(buf);
        if let Err(error) = &read {
            self.failed = Some(error.kind());
        }
        read
    }
}

impl<S: Write> Write for Noting<S> {
    ghost contents = { λ n. S.contents n.stream };

    fn write(&mut self, buf: &[u8]) -> io::Result<usize> {
        let written = self.stream.write(buf);
        if let Err(error) = &written {
            self.failed = Some(error.kind());
        }
        written
    }

    fn flush(&mut self) -> io::Result<()> {
        let flushed = self.stream.flush();
        if let Err(error) = &flushed {
            self.failed = Some(error.kind());
        }
        flushed
    }
}
