//! What an audit finds, and why one gives up.

ghost use Rattle.fl_audit.specs.Audit.{IsFinding};

use fl_history::Recent;
use fl_judge::{Judge, Verdict};
use fl_order::NoMemory;

/// What an audit says of a trace.
#[derive(Clone, Copy, Debug, PartialEq, Eq)]
pub enum Finding {
    /// A single thread could have produced it, under the rules that it is judged by.
    Legal,
    /// It isn't, but some legal trace begins with it: replies are missing at its end, or the end of a head. This is
    /// said of a trace that may be cut off, and of no other.
    Begins,
    /// It isn't. This line, counted from 1, is the first that breaks the rules. If only replies are missing at its
    /// end, or the end of a head, this is the line after its last.
    Differs(usize),
}

/// What an audit says of a trace, and whether it begins a legal one and is quiet, as `Judge::quiet` says.
#[derive(Clone, Copy, Debug, PartialEq, Eq)]
pub struct Audited {
    /// Whether it is legal.
    pub finding: Finding,
    /// Whether it begins a legal one, and no owner asks for a record lock while it waits for one.
    pub quiet: bool,
}

/// A judge that heard the whole lines of a trace that may be cut off, how many bytes these have, and the last of them.
#[derive(Drop)]
pub struct Heard {
    /// The judge.
    pub judge: Judge,
    /// The bytes of the lines, each with its newline.
    pub bytes: u64,
    /// The last lines.
    pub recent: Recent,
}

/// Why an audit gave up.
#[derive(Clone, Copy, Debug, PartialEq, Eq)]
pub enum AuditFault {
    /// This line of the trace, from 1, is the first that is no spelling of a line.
    BadLine(usize),
    /// Out of memory.
    NoMemory,
    /// The trace can't be read to its end.
    Read,
}

impl From<NoMemory> for AuditFault {
    ghost use Rattle.std.specs.Prelude.{◌≡◌};
    ghost use Rattle.fl_audit.specs.declared.finding.AuditFault.TheVariants.{NoMemory};

    ghost from_gives = { λ _ fault. fault ≡ NoMemory };

    fn from(_e: NoMemory) -> AuditFault {
        AuditFault::NoMemory
    }
}

/// What is found of the lines that a judge heard.
pub(crate) fn finding_of(judge: &Judge, cut: bool) -> Finding
    ensures { IsFinding judge.now.rules cut judge.now.lines result }
{
    match judge.verdict() {
        Verdict::Legal => Finding::Legal,
        Verdict::Differs(_) if cut && judge.begins() => Finding::Begins,
        Verdict::Differs(n) => Finding::Differs(n),
    }
}
