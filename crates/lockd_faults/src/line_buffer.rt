//! A line of text in a room of its own.
ghost use Rattle.std.specs.Prelude.{◌≡◌, []};

use std::io;
use std::io::Write;
use std::marker::Model;

// The longest line of a fault has 30 bytes.
const ROOM: usize = 32;

/// A text of at most 32 bytes, which takes no memory.
#[derive(Drop)]
pub(crate) struct LineBuffer {
    room: [u8; ROOM],
    len: usize,
}

impl Model for LineBuffer {
    ghost use Rattle.std.specs.Prelude.{List, ℕ, take, ◌≤◌};

    ghost Value = { List ℕ };

    ghost view = { λ line. take line.len line.room };

    ghost invariant = { λ line. line.len ≤ 32 };
}

impl LineBuffer {
    /// Nothing yet.
    pub(crate) fn new() -> LineBuffer
        ensures { result ≡ [] }
    {
        LineBuffer {
            room: [0; ROOM],
            len: 0,
        }
    }

    /// The text so far.
    pub(crate) fn as_bytes(&self) -> &[u8]
        ensures { result.now ≡ self.now }
    {
        &self.room[..self.len]
    }
}

impl Write for LineBuffer {
    ghost use Rattle.std.specs.Prelude.{Some};

    ghost contents = { λ line. Some line };

    fn write(&mut self, buf: &[u8]) -> io::Result<usize> {
        let count = buf.len().min(ROOM - self.len);
        self.room[self.len..self.len + count].copy_from_slice(&buf[..count]);
        self.len += count;
        Ok(count)
    }

    fn flush(&mut self) -> io::Result<()> {
        Ok(())
    }
}
