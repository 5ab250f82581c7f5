//! Writers over memory, which take a few bytes at a time and fail when they are told to.

ghost use Rattle.std.specs.Prelude.{◌≡◌, ◌+◌, ◌-◌, ◌^◌, [], true, length, min, IfOk, IfSome, IsErrAnd, IsNone, Ok};
ghost use Rattle.std.specs.Prelude.{Some};
ghost use Rattle.std.specs.Io.{WritesAtMost};
ghost use Rattle.std.specs.Io.KnownBytes.{WriteAppends};
ghost use Rattle.std.specs.IoError.{error_kind};
ghost use Rattle.fl_testing.specs.Trouble.{Meets};

use crate::trouble::Trouble;
use std::alloc::Global;
use std::io;
use std::io::{ErrorKind, Write};

/// Keeps what is written, at most `most` bytes with a write, but for the writes that fail or take nothing.
#[derive(Drop)]
pub struct Sink {
    /// All bytes that were written.
    pub held: Vec<u8>,
    /// The most bytes that a write takes.
    pub most: usize,
    /// How many writes there were, those that failed too.
    pub writes: usize,
    /// Which writes fail.
    pub trouble: Trouble,
}

impl Sink {
    /// A writer that holds nothing yet.
    pub fn new(alloc: Global, most: usize, trouble: Trouble) -> Sink
        ensures empty { result.held.items ≡ [] }
        ensures fields { (result.most ≡ most) × (result.writes ≡ 0) × (result.trouble ≡ trouble) }
    {
        Sink {
            held: Vec::new(alloc),
            most,
            writes: 0,
            trouble,
        }
    }

    /// A writer that holds nothing yet. It fails at one write, behind so many, and takes all bytes of the others.
    pub fn failing_once(alloc: Global, after: usize, kind: ErrorKind) -> Sink
        ensures empty { result.held.items ≡ [] }
        ensures fields { (result.most ≡ 2 ^ 64 - 1) × (result.writes ≡ 0) × (result.trouble.after ≡ after)
            × (result.trouble.once ≡ true) × (result.trouble.kind ≡ Some kind) }
    {
        Sink::new(alloc, usize::MAX, Trouble::once(after, Some(kind)))
    }
}

impl Write for Sink {
    ghost contents = { λ s. Some s.held.items };

    fn write(&mut self, buf: &[u8]) -> io::Result<usize>
        ensures bound { WritesAtMost result buf.now }
        ensures bytes { WriteAppends (Some self.old.held.items) (Some self.new.held.items) result buf.now }
        ensures fails { Meets self.old.trouble self.old.writes →
            IfSome self.old.trouble.kind (λ kind. IsErrAnd result (λ e. error_kind e ≡ kind)) }
        ensures takes_nothing { Meets self.old.trouble self.old.writes → IsNone self.old.trouble.kind → result ≡ Ok 0 }
        ensures takes { (Meets self.old.trouble self.old.writes → ⊥) →
            IfOk result (λ n. n ≡ min self.old.most (length buf.now)) }
        ensures counted { self.new.writes ≡ min (self.old.writes + 1) (2 ^ 64 - 1) }
        ensures same { (self.new.most ≡ self.old.most) × (self.new.trouble ≡ self.old.trouble) }
    {
        let calls = self.writes;
        self.writes = calls.saturating_add(1);
        if self.trouble.meets(calls) {
            return match self.trouble.kind {
                Some(kind) => Err(io::Error::from(kind)),
                None => Ok(0),
            };
        }
        let n = self.most.min(buf.len());
        self.held.extend_from_slice(&buf[..n])?;
        Ok(n)
    }

    fn flush(&mut self) -> io::Result<()> {
        Ok(())
    }
}
