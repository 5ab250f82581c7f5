//! `lockd state`: prints the head of a history that goes on from what is there after a trace.

ghost use Rattle.std.specs.Prelude.{◌≡◌, ◌≢◌, ◌++◌, ◌∷◌, [], ℕ, codes, string_bytes, IfOk, IfErr, OnOk};
ghost use Rattle.std.specs.Fmt.{decimal};
ghost use Rattle.std.specs.Io.KnownBytes.{Keeps};
ghost use Rattle.fl_desk.specs.Legal.{IsLegal};
ghost use Rattle.fl_audit.specs.First.{IsSoOfAll};
ghost use Rattle.fl_desk.specs.Heads.{head_lines};
ghost use Rattle.fl_history.specs.declared.history.Line.TheVariants as line;
ghost use Rattle.fl_trace.specs.Text.{line_text, text_of, BreaksAt, LineFits};
ghost use Rattle.lockd_commands.specs.Faults.{IsOfText};
ghost use Rattle.lockd_commands.specs.State.{IsHeadBehind, IsTold, IsToldIllegal, IsToldInPart};
ghost use Rattle.lockd_commands.specs.State.Inside.{IsAnswer};
ghost use Rattle.lockd_faults.specs.Faults.{IsTold as IsFaultTold};
ghost use Rattle.lockd_faults.specs.declared.fault.CommandFault.{CommandFault};

use crate::check::fault_of;
use fl_audit::{Details, hear_whole};
use fl_core::Rules;
use fl_desk::laws::a_legal_history_goes_on_by_orders;
use fl_desk::{ToldHead, head_of};
use fl_history::Line;
use fl_judge::laws::a_legal_history_has_a_present;
use fl_judge::{Judge, Verdict};
use fl_order::StateLine;
use fl_trace::{LINE_ROOM, push_line};
use lockd_faults::{CommandFault, Status, end, write_all};
use std::alloc::{AllocError, Global};
use std::io::{Read, Write};

// What is said of a trace.
#[derive(Drop)]
enum Answer {
    // The text of the head that goes on from what is there after it.
    Head(Vec<u8>),
    // Which line is the first that breaks the rules.
    Differs(String),
}

/// `lockd state`: reads a whole trace, and writes a head that tells what is there after it: a history can go on behind
/// that head as it can behind the trace. A trace that isn't legal under these rules, or lacks replies at its end, gets a
/// line `differs N` on `faults`, and nothing on the output. All input is read before any output. It takes memory for one
/// directory, and for what it writes. A fault is one line on `faults`. What is told of the
/// lines goes to `details`.
pub fn state_on<R: Read, W: Write, F: Write>(
    alloc: Global,
    rules: Rules,
    input: &mut R,
    output: &mut W,
    faults: &mut F,
    details: &mut Details,
) -> Status
    ensures told { result ≡ Status.Good →
        IsTold rules (R.remaining input.old) (W.contents output.old) (W.contents output.new) }
    ensures differs { result ≡ Status.Different →
        IsToldIllegal rules (R.remaining input.old) (F.contents faults.old) (F.contents faults.new) }

    // The first n - 1 lines are lines of a trace, and the next is none.
    ensures bad { (n : ℕ) → result ≡ Status.Faulted (CommandFault.BadLine n) →
        IsSoOfAll (R.remaining input.old) (λ text. BreaksAt LineFits text n) }

    // Only a write that fails leaves anything on the output: a beginning of the head.
    ensures begun { result ≡ Status.Faulted CommandFault.Write →
        IsToldInPart rules (R.remaining input.old) (W.contents output.old) (W.contents output.new) }
    ensures kept { (fault : CommandFault) → result ≡ Status.Faulted fault → fault ≢ CommandFault.Write →
        Keeps (W.contents output.old) (W.contents output.new) }
    ensures none { result ≡ Status.Different → Keeps (W.contents output.old) (W.contents output.new) }
    ensures faulted { (fault : CommandFault) → result ≡ Status.Faulted fault →
        IsOfText fault × IsFaultTold fault (F.contents faults.old) (F.contents faults.new) }
    ensures quiet { result ≡ Status.Good → Keeps (F.contents faults.old) (F.contents faults.new) }
{
    match answer_to(alloc, rules, input, details) {
        Ok(Answer::Head(text)) => end(faults, write_all(output, text.as_slice())),
        Ok(Answer::Differs(text)) => {
            let _ = write_all(faults, text.as_bytes());
            Status::Different
        }
        Err(fault) => end(faults, Err(fault)),
    }
}

// What is said of a trace, which is read to its end.
fn answer_to<R: Read>(
    alloc: Global,
    rules: Rules,
    input: &mut R,
    details: &mut Details,
) -> Result<Answer, CommandFault>
    ensures answers { IfOk result (IsAnswer rules (R.remaining input.old)) }
    ensures bad { IfErr result (λ fault. (n : ℕ) → fault ≡ CommandFault.BadLine n →
        IsSoOfAll (R.remaining input.old) (λ text. BreaksAt LineFits text n)) }
    ensures fault { IfErr result (λ fault. IsOfText fault × (fault ≢ CommandFault.Write)) }
{
    let judge = match hear_whole(alloc, rules, input, details) {
        Ok(judge) => judge,
        Err(fault) => return Err(fault_of(fault)),
    };
    match judge.verdict() {
        Verdict::Legal => Ok(Answer::Head(head_behind(alloc, &judge)?)),
        Verdict::Differs(n) => Ok(Answer::Differs(differs(alloc, n)?)),
    }
}

// The head behind the lines of a legal history, as its text.
fn head_behind(alloc: Global, judge: &Judge) -> Result<Vec<u8>, CommandFault>
    requires { IsLegal judge.now.rules judge.now.lines }
    ensures text { IfOk result (λ text. IsHeadBehind judge.now.rules judge.now.lines text.items) }
    ensures error { IfErr result (λ fault. fault ≡ CommandFault.NoMemory) }
{
    a_legal_history_goes_on_by_orders();
    a_legal_history_has_a_present();
    let Some(core) = judge.present() else {
        unreachable!()
    };
    let told = head_of(alloc, core, judge.place().lines)?;
    Ok(text_of_head(alloc, &told)?)
}

// The text of a head.
fn text_of_head(alloc: Global, told: &ToldHead) -> Result<Vec<u8>, AllocError>
    ensures { IfOk result (λ text. text.items ≡ text_of (head_lines told.now.head told.now.parts.items)) }
{
    let parts = told.parts.as_slice();
    let mut text = Vec::new(alloc);
    push_state(&mut text, StateLine::Head(told.head))?;
    for at in 0..parts.len() {
        push_state(&mut text, StateLine::Part(parts[at]))?;
    }
    push_state(&mut text, StateLine::Go)?;
    Ok(text)
}

// One line of a head more.
fn push_state(text: &mut Vec<u8>, state: StateLine) -> Result<(), AllocError>
    ensures { OnOk result (text.new.items ≡ text.old.items ++ (line_text (line.State state) ++ 10 ∷ [])) }
{
    text.reserve(LINE_ROOM)?;
    push_line(text, &Line::State(state));
    Ok(())
}

// The line that says which line is the first that breaks the rules.
pub(crate) fn differs(alloc: Global, line: usize) -> Result<String, CommandFault>
    ensures said { IfOk result (λ text. string_bytes text ≡ codes "differs " ++ (decimal line ++ 10 ∷ [])) }
    ensures error { IfErr result (λ fault. fault ≡ CommandFault.NoMemory) }
{
    let mut text = String::new(alloc);
    writeln!(text, "differs {line}")?;
    Ok(text)
}
