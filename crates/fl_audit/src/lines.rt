//! The whole lines at the front of a text, heard by a judge.

ghost use Rattle.std.specs.Prelude.{◌≡◌, ◌↔◌, ◌+◌, ◌<◌, ◌≤◌, ◌^◌, true, Some, IfSome, IsNone, length};
ghost use Rattle.fl_audit.specs.Audit.{has_newline};
ghost use Rattle.fl_audit.specs.First.{IsWithin};
ghost use Rattle.fl_audit.specs.Inside.Hearing.{IsHeard};

use crate::hearer::Hearer;
use fl_trace::first_line;

/// Why no more lines of a text are heard.
#[derive(Clone, Copy, Debug, PartialEq, Eq)]
pub(crate) enum Stopped {
    /// As many were heard as are wanted, and there are more.
    Enough,
    /// The line of this number, from 1, ends with a newline and is no spelling of a line.
    BadLine(usize),
}

impl Stopped {
    /// The number of the bad line, if there was one.
    pub(crate) fn number(self) -> Option<usize>
        ensures some { IfSome result (λ n. self ≡ Stopped.BadLine n) }
        ensures none { IsNone result → self ≡ Stopped.Enough }
    {
        match self {
            Stopped::BadLine(n) => Some(n),
            Stopped::Enough => None,
        }
    }
}

/// Has a judge hear the lines at the front of a text, until it has heard as many as are wanted in all, or up to one
/// that is bad, or up to the last newline. How many bytes are left behind that, or why it stopped before.
pub(crate) fn hear_lines(
    judge: &mut Hearer,
    most: Option<usize>,
    text: &[u8],
) -> Result<usize, Stopped>
    requires few { length judge.old.lines + length text.now < 2 ^ 63 }
    requires within { IsWithin most (length judge.old.lines) }
    ensures heard { IsHeard most judge.old.lines judge.new.lines text.now result }
    ensures few { length judge.new.lines ≤ length judge.old.lines + length text.now }
    ensures within { IsWithin most (length judge.new.lines) }
    ensures rules { judge.new.rules ≡ judge.old.rules }
    ensures along { judge.new.along ≡ judge.old.along }
{
    let mut rest = text;
    while has_newline(rest) {
        if has_enough(judge, most) {
            return Err(Stopped::Enough);
        }
        let Some((line, after)) = first_line(rest) else {
            judge.meet_bad(rest);
            return Err(Stopped::BadLine(judge.heard() + 1));
        };
        judge.hear(&line);
        rest = after;
    }
    Ok(rest.len())
}

// Whether a judge heard as many lines as are wanted.
fn has_enough(judge: &Hearer, most: Option<usize>) -> bool
    ensures { (result ≡ true) ↔ (most ≡ Some (length judge.now.lines)) }
{
    most == Some(judge.heard())
}

// Whether there is a newline in a text.
fn has_newline(text: &[u8]) -> bool
    ensures { result ≡ has_newline text.now }
{
    text.contains(&b'\n')
}
