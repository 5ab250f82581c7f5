//! Where the trace of a session goes once it is over.

ghost use Rattle.std.specs.Prelude.{◌≡◌, ◌≢◌, true, false, None, Some, IfSome, MatchOption};
ghost use Rattle.std.specs.Io.KnownBytes.{Appends, Keeps};
ghost use Rattle.fl_session.specs.Recorded.{done_of, journal_lines};
ghost use Rattle.fl_stream.specs.Streams.{HoldsText, Wrote};
ghost use Rattle.fl_trace.specs.Text.{text_of};
ghost use Rattle.fl_transport.specs.declared.fault.Fault.{Fault as SessionFault};
ghost use Rattle.lockd_faults.specs.declared.fault.CommandFault.{CommandFault};
ghost use Rattle.lockd_faults.specs.Ending.{Ends, told_of};
ghost use Rattle.lockd_resume.specs.Ending.{Prints, Traces, has_history};

use fl_serve::Recorded;
use fl_session::{Done, Fault};
use fl_stream::{AheadLines, Streamed, TraceRoom};
use lockd_faults::{CommandFault, Status, end, end_session, end_untraced, print};
use std::io::Write;

/// Prints the trace of a session, and then its fault. If the output can't be written, that alone is told.
pub(crate) fn end_printed<W: Write, F: Write>(
    room: &mut TraceRoom,
    done: &Done,
    output: &mut W,
    faults: &mut F,
) -> Status
    ensures traced { has_history done.now.fault ≡ true
        → Prints done.now (W.contents output.old) (W.contents output.new) (record {
          status = result;
          told = F.contents faults.old;
          told_now = F.contents faults.new;
        }) }
    ensures kept { has_history done.now.fault ≡ false → Keeps (W.contents output.old) (W.contents output.new) }
    ensures untraced { has_history done.now.fault ≡ false → Ends (told_of done.now.fault) (record {
      status = result;
      told = F.contents faults.old;
      told_now = F.contents faults.new;
    }) }
    ensures good { result ≡ Status.Good → (done.now.fault ≡ None)
        × Appends (W.contents output.old) (W.contents output.new) (text_of done.now.history) }
    ensures memory { result ≡ Status.Faulted CommandFault.NoMemory → done.now.fault ≡ Some SessionFault.NoMemory }
    ensures stored { result ≡ Status.Faulted CommandFault.TraceFailed → done.now.fault ≡ Some SessionFault.Unstored }
    ensures heard { result ≢ Status.Faulted CommandFault.Listen }
{
    if has_history(done.fault) && print(room, &done.history, output).is_err() {
        return end(faults, Err(CommandFault::Write));
    }
    end_session(faults, done.fault)
}

/// Ends a session whose trace went to a writer: prints its fault, and that the trace failed if the writer lacks some of
/// it. The writer comes back if the session has a history.
pub(crate) fn end_streamed<T: Write + Drop, F: Write>(
    faults: &mut F,
    recorded: Recorded<Streamed<T>>,
) -> (Status, Option<T>)
    requires back { MatchOption recorded.journal (has_history recorded.fault ≡ false)
        (λ _. has_history recorded.fault ≡ true) }
    ensures traced { has_history recorded.fault ≡ true → (writer : T) × (result.1 ≡ Some writer)
        × Traces T.contents (done_of (λ stream. stream.lines) recorded) (record {
          status = result.0;
          told = F.contents faults.old;
          told_now = F.contents faults.new;
        }) writer }
    ensures untraced { has_history recorded.fault ≡ false → (result.1 ≡ None)
        × Ends (told_of recorded.fault) (record {
          status = result.0;
          told = F.contents faults.old;
          told_now = F.contents faults.new;
        }) }
    ensures good { result.0 ≡ Status.Good → (recorded.fault ≡ None) × ((writer : T) × (result.1 ≡ Some writer)
        × Wrote T.contents (T.contents writer) (text_of (done_of (λ stream. stream.lines) recorded).history)) }
    ensures noted { IfSome result.1 (λ writer. HoldsText T.contents (T.contents writer)
        (journal_lines (λ stream. stream.noted) recorded.journal)) }
    ensures memory { result.0 ≡ Status.Faulted CommandFault.NoMemory → recorded.fault ≡ Some SessionFault.NoMemory }
    ensures heard { result.0 ≢ Status.Faulted CommandFault.Listen }
{
    let Recorded { journal, fault, .. } = recorded;
    let Some(stream) = journal else {
        return (end_session(faults, fault), None);
    };
    let mut stream = stream;
    let whole = stream.finish();
    let writer = stream.into_writer();
    let status = if whole {
        end_session(faults, fault)
    } else {
        end_untraced(faults, fault)
    };
    (status, Some(writer))
}

/// What was recorded of a session, with the stream itself as its journal.
pub(crate) fn streamed<T: Write>(recorded: Recorded<AheadLines<T>>) -> Recorded<Streamed<T>>
    ensures { result ≡ recorded }
{
    let Recorded {
        journal,
        fault,
        refused,
    } = recorded;
    Recorded {
        journal: journal.map(AheadLines::into_stream),
        fault,
        refused,
    }
}

// Whether a session with this fault has a history.
fn has_history(fault: Option<Fault>) -> bool
    ensures { result ≡ has_history fault }
{
    !matches!(fault, Some(Fault::NoMemory | Fault::NoReader))
}
