//! `lockd locks`: lists who holds what, and who waits, after the lines of a trace.

ghost use Rattle.std.specs.Prelude.{◌≡◌, ◌≢◌, ◌++◌, ◌∷◌, [], ℕ, codes, option_copied, string_bytes, IfOk, IfErr};
ghost use Rattle.std.specs.Fmt.{decimal};
ghost use Rattle.std.specs.List.{filter};
ghost use Rattle.fl_judge.specs.Present.{HasPresent};
ghost use Rattle.fl_judge.specs.Verdicts.{DiffersAt};
ghost use Rattle.std.specs.Io.KnownBytes.{Keeps};
ghost use Rattle.fl_audit.specs.First.{IsSoOfAll, IsWithin};
ghost use Rattle.fl_audit.specs.Audit.{whole_lines};
ghost use Rattle.fl_locks.specs.LockRows.{linked_name, rows_of};
ghost use Rattle.fl_trace.specs.Text.{BreaksAt, LineFits};
ghost use Rattle.lockd_commands.specs.Faults.{IsOfText};
ghost use Rattle.lockd_commands.specs.Locks.{is_called, of_file, rows_text, IsListed, IsListedInPart, IsToldDifferent};
ghost use Rattle.lockd_commands.specs.Locks.Inside.{IsAnswer};
ghost use Rattle.lockd_faults.specs.Faults.{IsTold};
ghost use Rattle.lockd_faults.specs.declared.fault.CommandFault.{CommandFault};

use crate::check::fault_of;
use crate::state::differs;
use fl_audit::{Details, hear_first};
use fl_core::{Core, Rules};
use fl_judge::laws::a_legal_history_has_a_present;
use fl_judge::{Judge, Verdict};
use fl_locks::{LockRow, lock_json, lock_rows, lock_table};
use fl_order::{Name, NoMemory};
use lockd_faults::{CommandFault, Status, end, write_all};
use std::alloc::{AllocError, Global};
use std::io::{Read, Write};

/// The options of `lockd locks`.
#[derive(Clone, Copy)]
pub struct LocksOptions<'a> {
    /// `--at`: how many lines of the trace are heard at most; all, if that isn't said.
    pub at: Option<usize>,
    /// `--file`: only the locks of the file that has this name are listed; those of all files, if that isn't said.
    pub file: Option<&'a [u8]>,
    /// `--json`: whether they are a line of JSON, and not a table.
    pub json: bool,
}

// What is said of a trace.
#[derive(Drop)]
enum Answer {
    // The list.
    Listed(String),
    // Which line is the first that breaks the rules.
    Differs(String),
}

/// `lockd locks`: reads a trace, and writes which locks are held and which requests wait once the replies are told too
/// that it lacks at its end. The text after the last newline is dropped, so the trace may be cut off, or still be
/// written, but not within a head. A trace that isn't legal under these rules gets a line `differs N` on `faults`, and
/// nothing on the output.
/// All input is read before any output, in memory that doesn't grow with it. A fault is one line on `faults`. What is
/// told of the lines goes to `details`.
pub fn locks_on<R: Read, W: Write, F: Write>(
    alloc: Global,
    rules: Rules,
    options: LocksOptions<'_>,
    input: &mut R,
    output: &mut W,
    faults: &mut F,
    details: &mut Details,
) -> Status
    ensures listed { result ≡ Status.Good →
        IsListed rules options.entry (R.remaining input.old) (W.contents output.old) (W.contents output.new) }
    ensures differs { result ≡ Status.Different →
        IsToldDifferent rules options.entry (R.remaining input.old) (F.contents faults.old) (F.contents faults.new) }

    // The first n - 1 lines are lines of a trace, and the next is none.
    ensures bad { (n : ℕ) → result ≡ Status.Faulted (CommandFault.BadLine n) → IsSoOfAll (R.remaining input.old)
        (λ text. BreaksAt LineFits (whole_lines text) n × IsWithin options.entry.at n) }

    // Only a write that fails leaves anything on the output: a beginning of the list.
    ensures begun { result ≡ Status.Faulted CommandFault.Write →
        IsListedInPart rules options.entry (R.remaining input.old) (W.contents output.old) (W.contents output.new) }
    ensures kept { (fault : CommandFault) → result ≡ Status.Faulted fault → fault ≢ CommandFault.Write →
        Keeps (W.contents output.old) (W.contents output.new) }
    ensures none { result ≡ Status.Different → Keeps (W.contents output.old) (W.contents output.new) }
    ensures faulted { (fault : CommandFault) → result ≡ Status.Faulted fault →
        IsOfText fault × IsTold fault (F.contents faults.old) (F.contents faults.new) }
    ensures quiet { result ≡ Status.Good → Keeps (F.contents faults.old) (F.contents faults.new) }
{
    match answer_to(alloc, rules, options, input, details) {
        Ok(Answer::Listed(text)) => end(faults, write_all(output, text.as_bytes())),
        Ok(Answer::Differs(text)) => {
            let _ = write_all(faults, text.as_bytes());
            Status::Different
        }
        Err(fault) => end(faults, Err(fault)),
    }
}

// What is said of a trace, which is read to its end.
fn answer_to<R: Read>(
    alloc: Global,
    rules: Rules,
    options: LocksOptions<'_>,
    input: &mut R,
    details: &mut Details,
) -> Result<Answer, CommandFault>
    ensures answers { IfOk result (IsAnswer rules options.entry (R.remaining input.old)) }
    ensures bad { IfErr result (λ fault. (n : ℕ) → fault ≡ CommandFault.BadLine n → IsSoOfAll (R.remaining input.old)
        (λ text. BreaksAt LineFits (whole_lines text) n × IsWithin options.entry.at n)) }
    ensures fault { IfErr result (λ fault. IsOfText fault × (fault ≢ CommandFault.Write)) }
{
    let judge = match hear_first(alloc, rules, options.at, input, details) {
        Ok(judge) => judge,
        Err(fault) => return Err(fault_of(fault)),
    };
    match judge.present() {
        Some(core) => Ok(Answer::Listed(list_of(alloc, core, options)?)),
        None => Ok(Answer::Differs(difference(alloc, &judge)?)),
    }
}

// The list of the locks that a core has.
fn list_of(alloc: Global, core: &Core, options: LocksOptions<'_>) -> Result<String, CommandFault>
    ensures text { IfOk result (λ text.
        string_bytes text ≡ rows_text options.entry.json (of_file options.entry.file (rows_of core.now))) }
    ensures error { IfErr result (λ fault. fault ≡ CommandFault.NoMemory) }
{
    let rows = file_rows(alloc, core, options.file)?;
    Ok(rows_text(alloc, &rows, options.json)?)
}

// The rows of the file that has this name, or all if none is said.
fn file_rows(alloc: Global, core: &Core, file: Option<&[u8]>) -> Result<Vec<LockRow>, NoMemory>
    ensures { IfOk result (λ rows. rows.items ≡ of_file file.entry (rows_of core.now)) }
{
    let mut rows = lock_rows(alloc, core)?;
    match file {
        None => Ok(rows),
        Some(name) => {
            keep_file(&mut rows, name);
            Ok(rows)
        }
    }
}

// Rows as a line of JSON, or as a table.
fn rows_text(alloc: Global, rows: &[LockRow], json: bool) -> Result<String, AllocError>
    ensures { IfOk result (λ text. string_bytes text ≡ rows_text json rows.now) }
{
    if json {
        lock_json(alloc, rows)
    } else {
        lock_table(alloc, rows)
    }
}

// Leaves the rows of the file that has this name.
fn keep_file(rows: &mut Vec<LockRow>, name: &[u8])
    ensures { rows.new.items ≡ filter (λ row. is_called name.now (linked_name row)) rows.old.items }
{
    rows.retain(|row| is_called(name, row.linked_name()));
}

// Whether a file that may have a name has this one.
fn is_called(name: &[u8], own: Option<&Name>) -> bool
    ensures { result ≡ is_called name.now (option_copied own.entry) }
{
    match own {
        None => false,
        Some(own) => own.as_bytes() == name,
    }
}

// The line that says where the lines lead to nothing.
fn difference(alloc: Global, judge: &Judge) -> Result<String, CommandFault>
    requires none { HasPresent judge.now.rules judge.now.lines → ⊥ }
    ensures said { IfOk result (λ text. (line : ℕ) × DiffersAt judge.now.rules judge.now.lines line
        × (string_bytes text ≡ codes "differs " ++ (decimal line ++ 10 ∷ []))) }
    ensures error { IfErr result (λ fault. fault ≡ CommandFault.NoMemory) }
{
    a_legal_history_has_a_present();
    match judge.verdict() {
        Verdict::Legal => unreachable!(),
        Verdict::Differs(n) => Ok(differs(alloc, n)?),
    }
}
