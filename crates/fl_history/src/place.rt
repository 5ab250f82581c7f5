//! Where lines end in the whole of a history that stands in pieces.

ghost use Rattle.std.specs.Prelude.{◌≡◌};
ghost use Rattle.fl_history.specs.Place.{lines_before, nowhere, with_place};

use crate::history::Line;
use fl_order::StateLine;

/// Where lines end that may begin with a head.
#[derive(Clone, Copy, Debug, PartialEq, Eq)]
pub struct Place {
    /// Whether they begin with a line of a head.
    pub headed: bool,
    /// How many orders and replies there are up to there, with those that stand before the head by its first line:
    /// 2^64 - 1, if there are more.
    pub lines: u64,
}

impl Place {
    /// Of no lines.
    pub fn nowhere() -> Place
        ensures { result ≡ nowhere }
    {
        Place {
            headed: false,
            lines: 0,
        }
    }

    /// One line more.
    pub fn and(self, line: &Line) -> Place
        ensures { result ≡ with_place self line.now }
    {
        match line {
            Line::State(state) if self.headed || self.lines == 0 => Place {
                headed: true,
                lines: lines_before(self.lines, state),
            },
            Line::State(_) => self,
            _ => Place {
                headed: self.headed,
                lines: self.lines.saturating_add(1),
            },
        }
    }
}

// How many orders and replies there are up to a line of a head.
fn lines_before(lines: u64, state: &StateLine) -> u64
    ensures { result ≡ lines_before lines state.now }
{
    match state {
        StateLine::Head(head) => head.lines,
        _ => lines,
    }
}
