//! Reads a trace to its end, and says what is found.

ghost use Rattle.std.specs.Prelude.{◌≡◌, ◌<◌, ◌^◌, ℕ, true, [], length, IfOk, IfSome, Err};
ghost use Rattle.fl_trace.specs.Text.{text_of, BreaksAt, Fits, LineFits};
ghost use Rattle.fl_audit.specs.Audit.{judged_part, whole_lines, IsAudited};
ghost use Rattle.fl_audit.specs.Details.{AreDetailsOf, AreDetailsIn};
ghost use Rattle.fl_audit.specs.First.{AreFirstLines, AreWholeLines, IsSoOfAll, IsWithin};
ghost use Rattle.fl_audit.specs.Inside.Hearing.{AreJudged, IsBad};
ghost use Rattle.fl_audit.specs.Inside.Keeping.{along};
ghost use Rattle.fl_audit.specs.Inside.Seams.{IsBeside};

use crate::beside::Beside;
use crate::details::Details;
use crate::finding::{AuditFault, Audited, Heard, finding_of};
use crate::listener::{Listened, Listener};
use fl_core::Rules;
use fl_history::Recent;
use fl_judge::Judge;
use std::alloc::Global;
use std::io::Read;

// How many reads may come. They give fewer than 2^63 lines, and nobody lives to see the last of them.
const MOST_READS: u64 = 140_737_488_355_327;

/// Reads a trace to its end, and says whether it is legal under these rules, and whether it is quiet. With `cut` the
/// trace may be that of a server that was killed: what follows the last newline is dropped, and replies may be
/// missing at the end. It takes memory for one directory, one list of replies and 64 KiB, however long the trace is.
///
/// A bad line is reported once all of the trace is read, and before any difference. After 2^47 - 1 reads the fault is
/// that reading failed. A read that was interrupted is tried again. What is told of the lines before the first bad one
/// goes to `details`, once all is read.
pub fn audit<R: Read>(
    alloc: Global,
    rules: Rules,
    cut: bool,
    input: &mut R,
    details: &mut Details,
) -> Result<Audited, AuditFault>
    ensures audited { IfOk result (IsAudited rules cut (R.remaining input.old)) }
    ensures bad { (n : ℕ) → result ≡ Err (AuditFault.BadLine n) →
        IfSome (R.remaining input.old) (λ bytes. BreaksAt LineFits (judged_part cut bytes) n) }
    ensures details { IfOk result (λ _.
        IsSoOfAll (R.remaining input.old) (λ text. AreDetailsIn rules (judged_part cut text) details.new)) }
{
    match hear_all(alloc, rules, None, cut, Beside::nothing(), input, details) {
        Ok(heard) => {
            let (judge, _) = heard.judge.into_parts();
            Ok(Audited {
                finding: finding_of(&judge, cut),
                quiet: judge.quiet(),
            })
        }
        Err(fault) => Err(fault),
    }
}

/// Reads a trace to its end, and gives a judge that heard its first lines: at most so many, or all. What follows the
/// last newline, and all lines behind those, are read and dropped. It takes memory as `audit` does.
///
/// A bad line among those is reported once all of the trace is read. Reading fails as that of `audit` does, and
/// `details` gets what it gets there.
pub fn hear_first<R: Read>(
    alloc: Global,
    rules: Rules,
    most: Option<usize>,
    input: &mut R,
    details: &mut Details,
) -> Result<Judge, AuditFault>
    ensures rules { IfOk result (λ judge. judge.rules ≡ rules) }
    ensures heard { IfOk result (λ judge.
        IsSoOfAll (R.remaining input.old) (λ text. AreFirstLines most text judge.lines)) }
    ensures few { IfOk result (λ judge. length judge.lines < 2 ^ 63) }
    ensures bad { (n : ℕ) → result ≡ Err (AuditFault.BadLine n) → IsSoOfAll (R.remaining input.old) (λ text.
        BreaksAt LineFits (whole_lines text) n × IsWithin most n) }
    ensures details { IfOk result (λ judge. AreDetailsOf judge.rules judge.lines details.new) }
{
    match hear_all(alloc, rules, most, true, Beside::nothing(), input, details) {
        Ok(heard) => {
            let (judge, _) = heard.judge.into_parts();
            Ok(judge)
        }
        Err(fault) => Err(fault),
    }
}

/// Reads a whole trace to its end, and gives a judge that heard all its lines. It takes memory as `audit` does.
///
/// A bad line is reported once all of the trace is read. Reading fails as that of `audit` does, and `details` gets what
/// it gets there.
pub fn hear_whole<R: Read>(
    alloc: Global,
    rules: Rules,
    input: &mut R,
    details: &mut Details,
) -> Result<Judge, AuditFault>
    ensures rules { IfOk result (λ judge. judge.rules ≡ rules) }
    ensures heard { IfOk result (λ judge.
        IsSoOfAll (R.remaining input.old) (λ text. (text ≡ text_of judge.lines) × Fits judge.lines)) }
    ensures bad { (n : ℕ) → result ≡ Err (AuditFault.BadLine n) → IsSoOfAll (R.remaining input.old) (λ text.
        BreaksAt LineFits text n) }
    ensures details { IfOk result (λ judge. AreDetailsOf judge.rules judge.lines details.new) }
{
    match hear_all(alloc, rules, None, false, Beside::nothing(), input, details) {
        Ok(heard) => {
            let (judge, _) = heard.judge.into_parts();
            Ok(judge)
        }
        Err(fault) => Err(fault),
    }
}

/// Reads a trace that may be cut off to its end, and gives a judge that heard its whole lines, how many bytes these
/// have, and the last of them. What follows the last newline is read and dropped. It takes memory as `audit` does, and
/// that of the last lines.
///
/// A bad line is reported once all of the trace is read. Reading fails as that of `audit` does, and `details` gets what
/// it gets there.
pub fn hear_cut<R: Read>(
    alloc: Global,
    rules: Rules,
    input: &mut R,
    details: &mut Details,
) -> Result<Heard, AuditFault>
    ensures rules { IfOk result (λ heard. heard.judge.rules ≡ rules) }
    ensures heard { IfOk result (λ heard.
        IsSoOfAll (R.remaining input.old) (λ text. AreWholeLines text heard.judge.lines heard.bytes)) }
    ensures few { IfOk result (λ heard. length heard.judge.lines < 2 ^ 63) }
    ensures recent { IfOk result (λ heard. heard.recent ≡ heard.judge.lines) }
    ensures bad { (n : ℕ) → result ≡ Err (AuditFault.BadLine n) → IsSoOfAll (R.remaining input.old) (λ text.
        BreaksAt LineFits (whole_lines text) n) }
    ensures details { IfOk result (λ heard. AreDetailsOf heard.judge.rules heard.judge.lines details.new) }
{
    let beside = Beside::keeping(Recent::new(alloc)?);
    match hear_all(alloc, rules, None, true, beside, input, details) {
        Ok(heard) => Ok(all_heard(heard)),
        Err(fault) => Err(fault),
    }
}

// A judge that heard all lines, and kept the last of them.
fn all_heard(heard: Listened) -> Heard
    requires { heard.judge.along.keeps ≡ true }
    ensures rules { result.judge.rules ≡ heard.judge.rules }
    ensures lines { result.judge.lines ≡ heard.judge.lines }
    ensures bytes { result.bytes ≡ heard.bytes }
    ensures recent { result.recent ≡ heard.judge.lines }
{
    let Listened { judge, bytes } = heard;
    let (judge, beside) = judge.into_parts();
    let Beside { recent, .. } = beside;
    let Some(recent) = recent else { unreachable!() };
    Heard {
        judge,
        bytes,
        recent,
    }
}

// Reads a trace to its end, and gives a judge that heard its first lines: at most so many, or all. With `cut` what
// follows the last newline is dropped, and else it is a bad line. If all are wanted, their bytes are counted. What is
// beside the judge hears the same. `details` gets what is told of the lines.
pub(crate) fn hear_all<R: Read>(
    alloc: Global,
    rules: Rules,
    most: Option<usize>,
    cut: bool,
    beside: Beside,
    input: &mut R,
    details: &mut Details,
) -> Result<Listened, AuditFault>
    requires beside { IsBeside rules [] beside }
    ensures along { IfOk result (λ heard. heard.judge.along ≡ along beside) }
    ensures rules { IfOk result (λ heard. heard.judge.rules ≡ rules) }
    ensures heard { IfOk result (λ heard.
        IsSoOfAll (R.remaining input.old) (λ text. AreJudged most cut text heard.judge.lines heard.bytes)) }
    ensures few { IfOk result (λ heard. length heard.judge.lines < 2 ^ 63) }
    ensures bad { (n : ℕ) → result ≡ Err (AuditFault.BadLine n) →
        IsSoOfAll (R.remaining input.old) (λ text. IsBad most cut text n) }
    ensures details { IfOk result (λ heard. AreDetailsOf heard.judge.rules heard.judge.lines details.new) }
{
    let mut listener = Listener::new(alloc, rules, most, beside)?;
    for reads in 0..MOST_READS {
        let more = listener.read(input)?;
        if !more {
            return listener.end(cut, details);
        }
    }
    Err(AuditFault::Read)
}
