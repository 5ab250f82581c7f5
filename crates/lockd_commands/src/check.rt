//! `lockd check`: judges a trace.

ghost use Rattle.std.specs.Prelude.{◌≡◌, ◌≢◌, ◌⊎◌, ℕ, false, string_bytes, Err, IfSome, IfOk, OnOk, IfErr};
ghost use Rattle.std.specs.Io.KnownBytes.{Keeps};
ghost use Rattle.fl_audit.specs.Audit.{judged_part};
ghost use Rattle.fl_audit.specs.declared.finding.Finding.TheVariants as said;
ghost use Rattle.fl_trace.specs.Text.{BreaksAt, LineFits};
ghost use Rattle.lockd_commands.specs.Check.{answer_text, IsJudged, IsJudgedInPart};
ghost use Rattle.lockd_commands.specs.Check.Inside.{quiet_told, audit_fault};
ghost use Rattle.lockd_commands.specs.Faults.{IsOfText};
ghost use Rattle.lockd_faults.specs.Faults.{IsTold};
ghost use Rattle.lockd_faults.specs.declared.fault.CommandFault.{CommandFault};

use fl_audit::{AuditFault, Audited, Details, Finding, audit};
use fl_core::Rules;
use lockd_faults::{CommandFault, Status, end, write_all};
use std::alloc::Global;
use std::io::{Read, Write};

/// The options of `lockd check`.
#[derive(Clone, Copy, Debug, PartialEq, Eq)]
pub struct CheckOptions {
    /// `--quiet`: a line `quiet` or `not quiet` stands behind `legal`.
    pub tells_quiet: bool,
    /// `--cut`: the trace may be that of a server that was killed.
    pub cut: bool,
}

/// `lockd check`: reads a trace, and writes `legal`, or `differs N` if it isn't: line N is the first that breaks these
/// rules. With the option `--quiet` a line `quiet` or `not quiet` follows `legal`: whether no owner asked for a record
/// lock while it waited for one. With the option `--cut` the text after the last newline isn't judged, and `begins`
/// says that the trace isn't legal, but that a legal one begins with it. All input is read and checked before any
/// output, in memory that doesn't grow. A fault is one line on `faults`. What is told of the lines goes to `details`.
pub fn check_on<R: Read, W: Write, F: Write>(
    alloc: Global,
    rules: Rules,
    options: CheckOptions,
    input: &mut R,
    output: &mut W,
    faults: &mut F,
    details: &mut Details,
) -> Status
    ensures legal { result ≡ Status.Good → options.cut ≡ false →
        IsJudged rules options (R.remaining input.old) (W.contents output.old) (W.contents output.new) said.Legal }
    ensures cut { result ≡ Status.Good →
        IsJudged rules options (R.remaining input.old) (W.contents output.old) (W.contents output.new) said.Legal ⊎
        IsJudged rules options (R.remaining input.old) (W.contents output.old) (W.contents output.new) said.Begins }
    ensures differs { result ≡ Status.Different →
        (n : ℕ) ×
        IsJudged rules options (R.remaining input.old) (W.contents output.old) (W.contents output.new)
        (said.Differs n) }

    // The first n - 1 lines of what is judged of the input are lines of a trace, and the next is none.
    ensures bad { (n : ℕ) → result ≡ Status.Faulted (CommandFault.BadLine n) →
        IfSome (R.remaining input.old) (λ bytes. BreaksAt LineFits (judged_part options.cut bytes) n) }

    // Only a write that fails leaves anything on the output: a beginning of the answer.
    ensures begun { result ≡ Status.Faulted CommandFault.Write →
        IsJudgedInPart rules options (R.remaining input.old) (W.contents output.old) (W.contents output.new) }
    ensures kept { (fault : CommandFault) → result ≡ Status.Faulted fault → fault ≢ CommandFault.Write →
        Keeps (W.contents output.old) (W.contents output.new) }
    ensures faulted { (fault : CommandFault) → result ≡ Status.Faulted fault →
        IsOfText fault × IsTold fault (F.contents faults.old) (F.contents faults.new) }
    ensures quiet { (result ≡ Status.Good) ⊎ (result ≡ Status.Different) →
        Keeps (F.contents faults.old) (F.contents faults.new) }
{
    match judge(alloc, rules, options, input, output, details) {
        Ok(Finding::Legal) => Status::Good,
        Ok(Finding::Begins) => Status::Good,
        Ok(Finding::Differs(_)) => Status::Different,
        Err(fault) => end(faults, Err(fault)),
    }
}

fn judge<R: Read, W: Write>(
    alloc: Global,
    rules: Rules,
    options: CheckOptions,
    input: &mut R,
    output: &mut W,
    details: &mut Details,
) -> Result<Finding, CommandFault>
    ensures judged { IfOk result
        (IsJudged rules options (R.remaining input.old) (W.contents output.old) (W.contents output.new)) }
    ensures bad { IfErr result (λ fault. (n : ℕ) → fault ≡ CommandFault.BadLine n →
        IfSome (R.remaining input.old) (λ bytes. BreaksAt LineFits (judged_part options.cut bytes) n)) }
    ensures begun { result ≡ Err CommandFault.Write →
        IsJudgedInPart rules options (R.remaining input.old) (W.contents output.old) (W.contents output.new) }
    ensures kept { IfErr result (λ fault. fault ≢ CommandFault.Write
        → Keeps (W.contents output.old) (W.contents output.new)) }
    ensures fault { IfErr result IsOfText }
{
    let audited = match audit(alloc, rules, options.cut, input, details) {
        Ok(audited) => audited,
        Err(fault) => return Err(fault_of(fault)),
    };
    let told = quiet_told(options.tells_quiet, audited);
    let lines = answer_text(alloc, audited.finding, told)?;
    write_all(output, lines.as_bytes())?;
    Ok(audited.finding)
}

// A fault of an audit, as a command tells it.
pub(crate) fn fault_of(fault: AuditFault) -> CommandFault
    ensures { result ≡ audit_fault fault }
{
    match fault {
        AuditFault::BadLine(n) => CommandFault::BadLine(n),
        AuditFault::NoMemory => CommandFault::NoMemory,
        AuditFault::Read => CommandFault::Read,
    }
}

// Whether the trace is quiet, if that is asked and the trace is legal.
fn quiet_told(asked: bool, audited: Audited) -> Option<bool>
    ensures { result ≡ quiet_told asked audited.finding audited.quiet }
{
    match audited.finding {
        Finding::Legal if asked => Some(audited.quiet),
        _ => None,
    }
}

fn answer_text(alloc: Global, finding: Finding, told: Option<bool>) -> Result<String, CommandFault>
    ensures text { IfOk result (λ text. string_bytes text ≡ answer_text finding told) }
    ensures error { IfErr result (λ fault. fault ≡ CommandFault.NoMemory) }
{
    let mut text = String::new(alloc);
    match (finding, told) {
        (Finding::Legal, None) => writeln!(text, "legal")?,
        (Finding::Legal, Some(true)) => writeln!(text, "legal\nquiet")?,
        (Finding::Legal, Some(false)) => writeln!(text, "legal\nnot quiet")?,
        (Finding::Begins, _) => writeln!(text, "begins")?,
        (Finding::Differs(n), _) => writeln!(text, "differs {n}")?,
    }
    Ok(text)
}
