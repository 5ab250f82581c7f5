//! `lockd drive`: a client that does what its lines say.

ghost use Rattle.std.specs.Prelude.{◌≡◌, ◌≢◌, ◌⊎◌, ℕ, [], Err, IfSome, IfErr, IsErrAnd};
ghost use Rattle.std.specs.Io.KnownBytes.{Keeps};
ghost use Rattle.std.specs.Path.{path_bytes};
ghost use Rattle.lockd_drive.specs.Drive.{text_says, ArePrinted, IsDriven, IsDrivenInPart, IsCutShort};
ghost use Rattle.lockd_drive.specs.Drive.{IsOfDrive, IsUnconnected};
ghost use Rattle.lockd_drive.specs.Drive.Inside.{Did};
ghost use Rattle.lockd_faults.specs.Status.{GivesUpBy};
ghost use Rattle.lockd_faults.specs.Faults.{IsTold};
ghost use Rattle.lockd_faults.specs.declared.fault.CommandFault.{CommandFault};

use crate::actions::read_actions;
use crate::exchange::drive_over;
use crate::reply::MOST_BYTES;
use lockd_faults::{CommandFault, Status, end, read_all};
use std::alloc::Global;
use std::io;
use std::io::{Read, Write};
use std::net::{Net, Shutdown};
use std::os::unix::net::UnixStream;
use std::path::Path;

/// `lockd drive`: connects to the Unix stream socket at a path, and does what each line of the input says, in turn. A
/// line of hex is sent as it is; `recv N`, N from 1 to 1000, waits for N replies and writes each as a line of lower
/// case hex. Then it closes. All input is read and checked before it connects. A fault is one line on
/// `faults`. There is no connection at an empty path; if the system refuses one, `unconnected` gets the reason.
/// Nothing is read between two `recv`: a server that waits until its
/// replies are read may keep a long row of other lines waiting for ever.
pub fn drive_on<N: Net, R: Read, W: Write, F: Write>(
    net: &N,
    alloc: Global,
    path: Path<'_>,
    input: &mut R,
    output: &mut W,
    faults: &mut F,
    unconnected: &mut Option<io::Error>,
) -> Status
    ensures good { result ≡ Status.Good →
        IsDriven (R.remaining input.old) (W.contents output.old) (W.contents output.new) }
    ensures short { (fault : CommandFault) → result ≡ Status.Faulted fault
        → (fault ≡ CommandFault.Cut) ⊎ (fault ≡ CommandFault.BadReply) →
        IsCutShort (R.remaining input.old) (W.contents output.old) (W.contents output.new) }

    // A bad line is told, and nothing else is.
    ensures bad { (n : ℕ) → result ≡ Status.Faulted (CommandFault.BadLine n)
        → IfSome (R.remaining input.old) (λ text. text_says text ≡ Err n) }
    ensures told { (n : ℕ) → IfSome (R.remaining input.old) (λ text. text_says text ≡ Err n
        → (result ≡ Status.Faulted (CommandFault.BadLine n))
        ⊎ ((result ≡ Status.Faulted CommandFault.NoMemory) ⊎ (result ≡ Status.Faulted CommandFault.Read))) }

    // Whatever the fault, a beginning is written of the lines of as many replies as are waited for, or of fewer.
    ensures begun { (fault : CommandFault) → result ≡ Status.Faulted fault
        → Keeps (W.contents output.old) (W.contents output.new)
        ⊎ IsDrivenInPart (R.remaining input.old) (W.contents output.old) (W.contents output.new) }

    // Whole lines are written, and none before all lines are known to be good and there is a connection.
    ensures whole { (fault : CommandFault) → result ≡ Status.Faulted fault → fault ≢ CommandFault.Write
        → (n : ℕ) × ArePrinted n (W.contents output.old) (W.contents output.new) }
    ensures kept { (fault : CommandFault) → result ≡ Status.Faulted fault
        → (fault ≡ CommandFault.Connect) ⊎ ((n : ℕ) × (fault ≡ CommandFault.BadLine n))
        → Keeps (W.contents output.old) (W.contents output.new) }
    ensures unnamed { path_bytes path.entry ≡ [] → GivesUpBy IsUnconnected result }
    ensures faulted { (fault : CommandFault) → result ≡ Status.Faulted fault →
        IsOfDrive fault × IsTold fault (F.contents faults.old) (F.contents faults.new) }
    ensures quiet { result ≡ Status.Good → Keeps (F.contents faults.old) (F.contents faults.new) }
    ensures ended { result ≢ Status.Different }
{
    end(faults, drive(net, alloc, path, input, output, unconnected))
}

fn drive<N: Net, R: Read, W: Write>(
    net: &N,
    alloc: Global,
    path: Path<'_>,
    input: &mut R,
    output: &mut W,
    unconnected: &mut Option<io::Error>,
) -> Result<(), CommandFault>
    ensures did { Did (R.remaining input.old) (W.contents output.old) (W.contents output.new) result }
    ensures begun { IfErr result (λ _. Keeps (W.contents output.old) (W.contents output.new)
        ⊎ IsDrivenInPart (R.remaining input.old) (W.contents output.old) (W.contents output.new)) }
    ensures unnamed { path_bytes path.entry ≡ [] → IsErrAnd result IsUnconnected }
{
    let text = read_all(alloc, input)?;
    let actions = read_actions(alloc, &text)?;
    let mut room = vec![in alloc; 0; MOST_BYTES]?;
    let stream = connect(net, path, unconnected)?;
    drive_over(
        alloc,
        &actions,
        &mut room,
        &mut &stream,
        &mut &stream,
        output,
    )?;
    let _ = stream.shutdown(Shutdown::Write);
    Ok(())
}

// A connection to the socket at this path. If the system refuses it, `unconnected` gets the reason.
fn connect<N: Net>(
    net: &N,
    path: Path<'_>,
    unconnected: &mut Option<io::Error>,
) -> Result<UnixStream, CommandFault>
    ensures error { IfErr result (λ fault. fault ≡ CommandFault.Connect) }
    ensures unnamed { path_bytes path.entry ≡ [] → result ≡ Err CommandFault.Connect }
{
    if path.as_str().is_empty() {
        return Err(CommandFault::Connect);
    }
    match UnixStream::connect(net, path) {
        Ok(stream) => Ok(stream),
        Err(why) => {
            *unconnected = Some(why);
            Err(CommandFault::Connect)
        }
    }
}
