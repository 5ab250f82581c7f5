//! `lockd bytes`: a session over lines of hex.

ghost use Rattle.std.specs.Prelude.{◌≡◌, ◌≢◌, ◌⊎◌, ℕ, false, None, Some, Err, IfSome, IfOk, IfErr};
ghost use Rattle.std.specs.Io.KnownBytes.{Keeps};
ghost use Rattle.lockd_commands.specs.Bytes.{IsPrinted, IsPrintedInPart, IsSession};
ghost use Rattle.lockd_commands.specs.Bytes.Inside.{Did, IsOfStream};
ghost use Rattle.lockd_commands.specs.Faults.{IsOfBytes};
ghost use Rattle.lockd_commands.specs.Hex.{hex_stream};
ghost use Rattle.lockd_faults.specs.Faults.{IsTold};
ghost use Rattle.lockd_faults.specs.declared.fault.CommandFault.{CommandFault};
ghost use Rattle.fl_transport.specs.declared.fault.Fault.{Fault as SessionFault};

use fl_core::Rules;
use fl_session::{Ended, run_session};
use hex_text::read_stream;
use lockd_faults::{CommandFault, Status, end, read_all, write_all};
use replies::print_replies;
use std::alloc::Global;
use std::io::{Read, Write};

pub(crate) mod hex_text;
pub(crate) mod replies;

/// `lockd bytes`: reads lines of hex, serves a session under these rules over the bytes that they spell, and writes
/// each reply as a line of lower case hex. All input is read and checked, and the session is over, before any
/// output. A fault is one line on `faults`; before `cut` and `bad length` all replies up to there are
/// written.
pub fn bytes_on<R: Read, W: Write, F: Write>(
    alloc: Global,
    rules: Rules,
    input: &mut R,
    output: &mut W,
    faults: &mut F,
) -> Status
    ensures good { result ≡ Status.Good
        → IsPrinted rules (R.remaining input.old) (W.contents output.old) (W.contents output.new) None }
    ensures cut { result ≡ Status.Faulted CommandFault.Cut
        → IsPrinted rules (R.remaining input.old) (W.contents output.old) (W.contents output.new)
        (Some SessionFault.Cut) }
    ensures bad_length { (n : ℕ) → result ≡ Status.Faulted (CommandFault.BadLength n)
        → IsPrinted rules (R.remaining input.old) (W.contents output.old) (W.contents output.new)
        (Some (SessionFault.BadLength n)) }

    // A bad line is told, and nothing else is.
    ensures bad { (n : ℕ) → result ≡ Status.Faulted (CommandFault.BadLine n)
        → IfSome (R.remaining input.old) (λ text. hex_stream text ≡ Err n) }
    ensures told { (n : ℕ) → IfSome (R.remaining input.old) (λ text. hex_stream text ≡ Err n
        → (result ≡ Status.Faulted (CommandFault.BadLine n))
        ⊎ ((result ≡ Status.Faulted CommandFault.NoMemory) ⊎ (result ≡ Status.Faulted CommandFault.Read))) }

    // Only these three faults leave anything on the output, and a write that fails leaves a beginning of the lines.
    ensures begun { result ≡ Status.Faulted CommandFault.Write
        → IsPrintedInPart rules (R.remaining input.old) (W.contents output.old) (W.contents output.new) }
    ensures kept { (fault : CommandFault) → result ≡ Status.Faulted fault
        → fault ≢ CommandFault.Write → fault ≢ CommandFault.Cut → ((n : ℕ) → fault ≢ CommandFault.BadLength n)
        → Keeps (W.contents output.old) (W.contents output.new) }
    ensures faulted { (fault : CommandFault) → result ≡ Status.Faulted fault →
        IsOfBytes fault × IsTold fault (F.contents faults.old) (F.contents faults.new) }
    ensures quiet { result ≡ Status.Good → Keeps (F.contents faults.old) (F.contents faults.new) }
    ensures ended { result ≢ Status.Different }
{
    end(faults, bytes(alloc, rules, input, output))
}

fn bytes<R: Read, W: Write>(
    alloc: Global,
    rules: Rules,
    input: &mut R,
    output: &mut W,
) -> Result<(), CommandFault>
    ensures { Did rules (R.remaining input.old) (W.contents output.old) (W.contents output.new) result }
{
    let text = read_all(alloc, input)?;
    let stream = read_stream(alloc, &text)?;
    let printed = print_session(alloc, rules, &stream)?;
    write_all(output, &printed.lines)?;
    match printed.fault {
        None => Ok(()),
        Some(fault) => Err(CommandFault::from(fault)),
    }
}

// The lines that are printed for a session, and the fault of its stream, if there is one.
#[derive(Drop)]
struct Printed {
    lines: Vec<u8>,
    fault: Option<fl_session::Fault>,
}

// A session under these rules over these bytes, and a line for each of its replies. A vector takes what is written to
// it if there is memory: so a write that failed ran out of memory, also if the stream has a fault.
fn print_session(alloc: Global, rules: Rules, stream: &[u8]) -> Result<Printed, CommandFault>
    ensures session { IfOk result (λ printed. IsSession rules stream.now printed.lines.items printed.fault) }
    ensures fault { IfOk result (λ printed. IfSome printed.fault IsOfStream) }
    ensures error { IfErr result (λ fault. (fault ≡ CommandFault.NoMemory) ⊎ (fault ≡ CommandFault.Read)) }
{
    let mut rest = stream;
    let mut sent = Vec::new(alloc);
    let Ended { done, broken } = run_session(alloc, &mut rest, &mut sent, rules);
    let cause = done.fault;
    drop(done);
    let fault = fault_printed(cause, broken)?;
    let lines = print_replies(alloc, &sent)?;
    Ok(Printed { lines, fault })
}

// The fault of a session's stream, if there is one. Its replies are printed before it.
fn fault_printed(
    fault: Option<fl_session::Fault>,
    broken: bool,
) -> Result<Option<fl_session::Fault>, CommandFault>
    ensures printed { IfOk result (λ printed. (printed ≡ fault) × (broken ≡ false) × IfSome printed IsOfStream) }
    ensures error { IfErr result (λ fault. (fault ≡ CommandFault.NoMemory) ⊎ (fault ≡ CommandFault.Read)) }
{
    match fault {
        Some(fl_session::Fault::Read) => Err(CommandFault::Read),
        // One worker at a desk needs no reader, and memory stores each line, so the last two don't come.
        Some(
            fl_session::Fault::Write
            | fl_session::Fault::NoMemory
            | fl_session::Fault::NoReader
            | fl_session::Fault::Unstored,
        ) => Err(CommandFault::NoMemory),
        _ if broken => Err(CommandFault::NoMemory),
        fault => Ok(fault),
    }
}
