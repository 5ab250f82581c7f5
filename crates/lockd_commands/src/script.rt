//! `lockd script`: takes orders from text, one after another.

ghost use Rattle.std.specs.Prelude.{◌≡◌, ◌≢◌, ℕ, ◌++◌, ◌∷◌, [], List, map, filter, Err, All, IfSome, IsNone, IfOk};
ghost use Rattle.std.specs.Prelude.{OnOk, IfErr};
ghost use Rattle.std.specs.Io.KnownBytes.{Keeps, Appends};
ghost use Rattle.fl_desk.specs.Legal.{IsLegal, is_asked};
ghost use Rattle.fl_trace.specs.Text.{line_text, text_of, BreaksAt};
ghost use Rattle.lockd_commands.specs.Faults.{IsOfText};
ghost use Rattle.lockd_commands.specs.Script.{line_of, IsAskLine, IsTraceOf, FaultSays, IsAnswered, IsAnsweredInPart};
ghost use Rattle.fl_history.specs.declared.history.Line.{Line};
ghost use Rattle.lockd_faults.specs.Faults.{IsTold};
ghost use Rattle.lockd_faults.specs.declared.fault.CommandFault.{CommandFault};

use fl_core::{Rules, Tolds};
use fl_desk::Desk;
use fl_history::{History, Line};
use fl_order::{NoMemory, Order};
use fl_stream::TraceRoom;
use fl_trace::first_line;
use lockd_faults::{CommandFault, Status, end, print, read_all};
use std::alloc::Global;
use std::io::{Read, Write};

/// An order, and the worker who hands it in.
#[derive(Clone, Copy)]
struct AskLine {
    worker: u32,
    order: Order,
}

/// `lockd script`: reads `ask` lines of workers 0 to 15, takes each order in turn at a desk under these rules, and
/// writes the trace of the desk's history. All input is read and checked before any output. A fault is one line
/// on `faults`.
pub fn script_on<R: Read, W: Write, F: Write>(
    alloc: Global,
    rules: Rules,
    input: &mut R,
    output: &mut W,
    faults: &mut F,
) -> Status
    ensures good { result ≡ Status.Good →
        IsAnswered rules (R.remaining input.old) (W.contents output.old) (W.contents output.new) }

    // The first n - 1 lines of the input are ask lines, and the next is none.
    ensures bad { (n : ℕ) → result ≡ Status.Faulted (CommandFault.BadLine n) →
        IfSome (R.remaining input.old) (λ script. BreaksAt IsAskLine script n) }

    // Only a write that fails leaves anything on the output: a beginning of the trace.
    ensures begun { result ≡ Status.Faulted CommandFault.Write →
        IsAnsweredInPart rules (R.remaining input.old) (W.contents output.old) (W.contents output.new) }
    ensures kept { (fault : CommandFault) → result ≡ Status.Faulted fault → fault ≢ CommandFault.Write →
        Keeps (W.contents output.old) (W.contents output.new) }
    ensures faulted { (fault : CommandFault) → result ≡ Status.Faulted fault →
        IsOfText fault × IsTold fault (F.contents faults.old) (F.contents faults.new) }
    ensures quiet { result ≡ Status.Good → Keeps (F.contents faults.old) (F.contents faults.new) }
    ensures ended { result ≢ Status.Different }
{
    end(faults, script(alloc, rules, input, output))
}

fn script<R: Read, W: Write>(
    alloc: Global,
    rules: Rules,
    input: &mut R,
    output: &mut W,
) -> Result<(), CommandFault>
    ensures good { OnOk result
        (IsAnswered rules (R.remaining input.old) (W.contents output.old) (W.contents output.new)) }
    ensures bad { IfErr result (λ fault. (n : ℕ) → fault ≡ CommandFault.BadLine n →
        IfSome (R.remaining input.old) (λ script. BreaksAt IsAskLine script n)) }
    ensures begun { result ≡ Err CommandFault.Write →
        IsAnsweredInPart rules (R.remaining input.old) (W.contents output.old) (W.contents output.new) }
    ensures kept { IfErr result (λ fault. fault ≢ CommandFault.Write
        → Keeps (W.contents output.old) (W.contents output.new)) }
    ensures fault { IfErr result IsOfText }
{
    let text = read_all(alloc, input)?;
    let history = history_of(alloc, rules, &text)?;
    let mut room = TraceRoom::new(alloc)?;
    print(&mut room, &history, output)
}

// The history of a script under these rules.
#[tactic(auto, using(crate::proofs::ScriptLemmas::fits_of_asks))]
fn history_of(alloc: Global, rules: Rules, script: &[u8]) -> Result<History, CommandFault>
    ensures trace { IfOk result (λ history. IsTraceOf rules script.now (text_of history)) }
    ensures error { IfErr result (FaultSays script.now) }
{
    let asks = read_asks(alloc, script)?;
    take_all(alloc, rules, &asks)
}

// What the ask lines of a script ask.
fn read_asks(alloc: Global, script: &[u8]) -> Result<Vec<AskLine>, CommandFault>
    ensures spelled { IfOk result (λ asks. script.now ≡ text_of (map line_of asks.items)) }
    ensures fits { IfOk result (λ asks. All IsAskLine (map line_of asks.items)) }
    ensures error { IfErr result (FaultSays script.now) }
{
    let mut asks = Vec::new(alloc);
    let mut rest = script;
    while !rest.is_empty() {
        let Some((ask, after)) = first_ask(rest) else {
            return Err(CommandFault::BadLine(asks.len() + 1));
        };
        asks.push(ask)?;
        rest = after;
    }
    Ok(asks)
}

// What the first line of a text asks, and the text after it; none if it is no ask line.
fn first_ask(text: &[u8]) -> Option<(AskLine, &[u8])>
    ensures fits { IfSome result (λ read. IsAskLine (line_of read.0)) }
    ensures spelled { IfSome result (λ read. text.now ≡ line_text (line_of read.0) ++ 10 ∷ read.1.now) }
    ensures none { IsNone result → (line : Line) (after : List ℕ) → IsAskLine line →
        text.now ≡ line_text line ++ 10 ∷ after → ⊥ }
{
    let Some((Line::Asked { worker, order }, rest)) = first_line(text) else {
        return None;
    };
    Some((AskLine { worker, order }, rest))
}

// The history of a desk under these rules that takes these orders in turn.
fn take_all(alloc: Global, rules: Rules, asks: &[AskLine]) -> Result<History, CommandFault>
    ensures asked { IfOk result (λ history. filter is_asked history ≡ map line_of asks.now) }
    ensures legal { IfOk result (IsLegal rules) }
    ensures error { IfErr result (λ fault. fault ≡ CommandFault.NoMemory) }
{
    let mut desk = Desk::new(alloc, rules)?;
    let taken = take_each(alloc, rules, &mut desk, asks);
    let history = desk.into_history();
    taken?;
    Ok(history)
}

// Takes these orders in turn at a desk under these rules that has taken none.
fn take_each(alloc: Global, rules: Rules, desk: &mut Desk, asks: &[AskLine]) -> Result<(), NoMemory>
    requires none { desk.old.lines ≡ [] }
    requires rules { desk.old.present.rules ≡ rules }
    ensures asked { OnOk result (filter is_asked desk.new.lines ≡ map line_of asks.now) }
    ensures rules { desk.new.present.rules ≡ rules }
{
    let mut tolds = Tolds::new(alloc, rules)?;
    for ask in asks {
        desk.take(ask.worker, &ask.order, &mut tolds)?;
    }
    Ok(())
}
