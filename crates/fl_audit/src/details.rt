//! What is told of a trace to whoever wants to know more of it than what is found.

ghost use Rattle.std.specs.Prelude.{◌≤◌, length};

use fl_judge::Difference;
use fl_trace::LINE_ROOM;

/// What a judge says of the lines that it heard, and the line behind them, if that is bad.
#[derive(Clone, Copy)]
pub struct Details {
    /// How many lines it heard.
    pub lines: usize,
    /// How many of them are orders.
    pub orders: usize,
    /// Where they break the rules; none if they are a legal history.
    pub difference: Option<Difference>,
    /// The bad line, if one is.
    pub bad: BadLine,
}

impl Details {
    /// Of no lines.
    pub fn new() -> Details {
        Details {
            lines: 0,
            orders: 0,
            difference: None,
            bad: BadLine::new(),
        }
    }

    // Forgets a difference that isn't at this line.
    pub(crate) fn keep_difference_at(&mut self, line: usize) {
        if matches!(&self.difference, Some(found) if found.number != line) {
            self.difference = None;
        }
    }
}

/// A line that is none of a trace.
#[derive(Clone, Copy)]
pub struct BadLine {
    /// Its first bytes, without its newline: more than any line of a trace has, or all if they are fewer.
    pub room: [u8; LINE_ROOM],
    /// How many these are.
    pub len: usize,
    /// Whether a newline ends it.
    pub is_ended: bool,
}

impl BadLine {
    /// An empty line that no newline ends.
    pub(crate) fn new() -> BadLine {
        BadLine {
            room: [0; LINE_ROOM],
            len: 0,
            is_ended: false,
        }
    }

    /// The first line of a text.
    pub(crate) fn first_of(text: &[u8]) -> BadLine {
        let len = end_of(text).min(LINE_ROOM);
        let mut room = [0; LINE_ROOM];
        room[..len].copy_from_slice(&text[..len]);
        BadLine {
            room,
            len,
            is_ended: text.contains(&b'\n'),
        }
    }

    /// Its first bytes.
    pub fn text(&self) -> &[u8] {
        self.room.get(..self.len).unwrap_or(&[])
    }
}

// How many bytes stand before the first newline of a text, or in all of it.
fn end_of(text: &[u8]) -> usize
    ensures { result ≤ length text.now }
{
    text.iter()
        .position(|byte| *byte == b'\n')
        .unwrap_or(text.len())
}
