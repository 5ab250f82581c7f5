//! A reader that keeps what it reads.

ghost use Rattle.std.specs.Prelude.{◌≡◌};

use std::alloc::Global;
use std::io;
use std::io::Read;

/// Reads what another reader has, and keeps it, if it is given memory; nothing, once that runs out.
#[derive(Drop)]
pub struct Kept<R> {
    input: R,
    text: Option<Vec<u8>>,
}

impl<R: Read> Kept<R> {
    /// Nothing was read yet.
    pub fn new(input: R, memory: Option<Global>) -> Kept<R>
        ensures { result.input ≡ input }
    {
        Kept {
            input,
            text: memory.map(Vec::new),
        }
    }

    /// The other reader.
    pub fn input(&self) -> &R {
        &self.input
    }

    /// All that was read; none if it wasn't kept.
    pub fn text(&self) -> Option<&[u8]> {
        let text = self.text.as_ref()?;
        Some(text.as_slice())
    }

    // Keeps what was read.
    fn keep(&mut self, piece: &[u8])
        ensures { self.new.input ≡ self.old.input }
    {
        let kept = match &mut self.text {
            Some(text) => text.extend_from_slice(piece).is_ok(),
            None => false,
        };
        if !kept {
            self.text = None;
        }
    }
}

impl<R: Read> Read for Kept<R> {
    ghost remaining = { λ k. R.remaining k.input };

    fn read(&mut self, buf: &mut [u8]) -> io::Result<usize> {
        let read = self.input.read(buf);
        if let Ok(count) = &read {
            self.keep(&buf[..*count]);
        }
        read
    }
}
