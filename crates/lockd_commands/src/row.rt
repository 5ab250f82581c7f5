//! `lockd check PIECE..`: judges a history that stands in pieces.

ghost use Rattle.std.specs.Prelude.{◌≡◌, ◌≢◌, ◌⊎◌, ◌++◌, ℕ, codes, string_bytes, IfOk, IfErr};
ghost use Rattle.std.specs.Io.KnownBytes.{Keeps};
ghost use Rattle.fl_audit.specs.Rows.{left_of, rules_of};
ghost use Rattle.fl_audit.specs.declared.row.PieceLine.{PieceLine as Place};
ghost use Rattle.fl_audit.specs.declared.row.RowFinding.TheVariants as said;
ghost use Rattle.lockd_commands.specs.Faults.{IsOfText};
ghost use Rattle.lockd_commands.specs.Row.{place_text, row_text, IsBadRowTold, IsRowJudged, IsRowJudgedInPart};
ghost use Rattle.lockd_commands.specs.Row.Inside.{IsBadOr, IsFailure, IsFailureOf};
ghost use Rattle.lockd_faults.specs.Faults.{IsBegun, IsTold};
ghost use Rattle.lockd_faults.specs.declared.fault.CommandFault.{CommandFault};

use fl_audit::{AuditFault, Details, PieceLine, PieceReader, RowFault, RowFinding, audit_row};
use lockd_faults::{CommandFault, Status, end, write_all};
use std::alloc::{AllocError, Global};
use std::io::{Read, Write};

// A bad line of a piece, and the line that says so.
#[derive(Drop)]
struct BadLine {
    line: usize,
    text: String,
}

// Why pieces aren't judged: a bad line, or any other fault.
#[derive(Drop)]
enum Failed {
    BadLine(BadLine),
    Other(CommandFault),
}

/// `lockd check PIECE..`: reads the pieces of a history to their ends, one after another, and writes `legal`, or
/// `differs N of P`: line N of piece P, both counted from 1, is the first that breaks its piece's rules, or doesn't go on
/// from the piece before, as `audit_row` says. A fault is one line on `faults`: `bad line N of P`, or any other as
/// `check` tells it. It takes memory for two directories. `details` gets what is told of the lines of the last piece
/// that was read.
pub fn check_row_on<R: Read, W: Write, F: Write>(
    alloc: Global,
    pieces: &mut [PieceReader<R>],
    output: &mut W,
    faults: &mut F,
    details: &mut Details,
) -> Status
    ensures legal { result ≡ Status.Good →
        IsRowJudged (rules_of pieces.old) (left_of R.remaining pieces.old) (W.contents output.old)
        (W.contents output.new) said.Legal }
    ensures differs { result ≡ Status.Different → (at : Place) ×
        IsRowJudged (rules_of pieces.old) (left_of R.remaining pieces.old) (W.contents output.old)
        (W.contents output.new) (said.Differs at) }

    // The pieces before that one are in a row, its first n - 1 lines are lines of a trace, and the next is none.
    ensures bad { (n : ℕ) → result ≡ Status.Faulted (CommandFault.BadLine n) →
        IsBadRowTold (rules_of pieces.old) (left_of R.remaining pieces.old) n (F.contents faults.old)
        (F.contents faults.new) }

    // Only a write that fails leaves anything on the output: a beginning of the answer.
    ensures begun { result ≡ Status.Faulted CommandFault.Write →
        IsRowJudgedInPart (rules_of pieces.old) (left_of R.remaining pieces.old) (W.contents output.old)
        (W.contents output.new) }
    ensures kept { (fault : CommandFault) → result ≡ Status.Faulted fault → fault ≢ CommandFault.Write →
        Keeps (W.contents output.old) (W.contents output.new) }
    ensures faulted { (fault : CommandFault) → result ≡ Status.Faulted fault →
        ((n : ℕ) → fault ≢ CommandFault.BadLine n) →
        IsOfText fault × IsTold fault (F.contents faults.old) (F.contents faults.new) }
    ensures quiet { (result ≡ Status.Good) ⊎ (result ≡ Status.Different) →
        Keeps (F.contents faults.old) (F.contents faults.new) }
    ensures rules { rules_of pieces.new ≡ rules_of pieces.old }
{
    match judge_row(alloc, pieces, output, details) {
        Ok(RowFinding::Legal) => Status::Good,
        Ok(RowFinding::Differs(_)) => Status::Different,
        Err(Failed::BadLine(bad)) => tell_bad(&bad, faults),
        Err(Failed::Other(fault)) => end(faults, Err(fault)),
    }
}

// What is found of pieces, once it is written.
fn judge_row<R: Read, W: Write>(
    alloc: Global,
    pieces: &mut [PieceReader<R>],
    output: &mut W,
    details: &mut Details,
) -> Result<RowFinding, Failed>
    ensures judged { IfOk result (IsRowJudged (rules_of pieces.old) (left_of R.remaining pieces.old)
        (W.contents output.old) (W.contents output.new)) }
    ensures failed { IfErr result (IsFailure (rules_of pieces.old) (left_of R.remaining pieces.old)
        (W.contents output.old) (W.contents output.new)) }
    ensures rules { rules_of pieces.new ≡ rules_of pieces.old }
{
    let finding = match audit_row(alloc, pieces, details) {
        Ok(finding) => finding,
        Err(fault) => return Err(failure_of(alloc, fault)),
    };
    let Ok(text) = row_text(alloc, finding) else {
        return Err(Failed::Other(CommandFault::NoMemory));
    };
    match write_all(output, text.as_bytes()) {
        Ok(()) => Ok(finding),
        Err(fault) => Err(Failed::Other(fault)),
    }
}

// Why an audit of pieces gave up, as the command tells it.
fn failure_of(alloc: Global, fault: RowFault) -> Failed
    ensures { IsFailureOf fault result }
{
    let piece = fault.piece;
    match fault.fault {
        AuditFault::BadLine(line) => bad_line(alloc, PieceLine { piece, line }),
        AuditFault::NoMemory => Failed::Other(CommandFault::NoMemory),
        AuditFault::Read => Failed::Other(CommandFault::Read),
    }
}

// A bad line of a piece. Memory may run out for the line that says so.
fn bad_line(alloc: Global, at: PieceLine) -> Failed
    ensures { IsBadOr at.piece at.line result }
{
    match bad_text(alloc, at) {
        Ok(text) => Failed::BadLine(BadLine {
            line: at.line,
            text,
        }),
        Err(_) => Failed::Other(CommandFault::NoMemory),
    }
}

// The line that says which line of a piece is bad.
fn bad_text(alloc: Global, at: PieceLine) -> Result<String, AllocError>
    ensures { IfOk result (λ text. string_bytes text ≡ codes "bad line " ++ place_text at) }
{
    let PieceLine { piece, line } = at;
    let mut text = String::new(alloc);
    writeln!(text, "bad line {line} of {piece}")?;
    Ok(text)
}

// The line that says what is found.
fn row_text(alloc: Global, finding: RowFinding) -> Result<String, AllocError>
    ensures { IfOk result (λ text. string_bytes text ≡ row_text finding) }
{
    let mut text = String::new(alloc);
    match finding {
        RowFinding::Legal => writeln!(text, "legal")?,
        RowFinding::Differs(PieceLine { piece, line }) => writeln!(
            text,
            "differs {line} of {piece}"
        )?,
    }
    Ok(text)
}

// Tells a bad line of a piece.
fn tell_bad<F: Write>(bad: &BadLine, faults: &mut F) -> Status
    ensures status { result ≡ Status.Faulted (CommandFault.BadLine bad.now.line) }
    ensures told { IsBegun (string_bytes bad.now.text) (F.contents faults.old) (F.contents faults.new) }
{
    let _ = write_all(faults, bad.text.as_bytes());
    Status::Faulted(CommandFault::BadLine(bad.line))
}
