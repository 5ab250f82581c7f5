//! One session over a reader and a writer, and what is left of it.

ghost use Rattle.std.specs.Prelude.{◌≡◌, ◌≢◌, ◌≤◌, ◌<◌, [], true, false, None, Some, IsTrue, MatchOption};
ghost use Rattle.std.specs.Io.KnownBytes.{Keeps};
ghost use Rattle.fl_session.specs.Recorded.{done_of, journal_lines};
ghost use Rattle.fl_stream.specs.Streams.{IsBlank};
ghost use Rattle.fl_transport.specs.declared.fault.Fault.{Fault as SessionFault};
ghost use Rattle.lockd_faults.specs.declared.fault.CommandFault.{CommandFault};
ghost use Rattle.lockd_resume.specs.Ending.{has_history};
ghost use Rattle.lockd_serve.specs.Ending.{IsOver, WentWell};
ghost use Rattle.lockd_serve.specs.Served.{HasServed};
ghost use Rattle.lockd_serve.specs.Unserved.{LeavesNothing};

use crate::ending::{end_printed, end_streamed, streamed};
use crate::options::{ServeOptions, TraceTo};
use fl_core::Rules;
use fl_history::{Journal, Lines, NoJournal};
use fl_serve::{OpenGate, Recorded, Staff, record_session, record_with_workers};
use fl_stream::{AheadLines, Streamed, TraceRoom, WhenWriterFails};
use lockd_faults::{CommandFault, Status, end, end_session};
use lockd_resume::{HangUp, hang_up_if};
use std::alloc::Global;
use std::io::{Read, Write};
use std::sync::Wait;
use std::thread::Threads;

/// Serves a session as these options say: what the client sends is read from `r`, and the replies go to `w`. One
/// worker serves it all in this thread. If they are those of a connection, it is hung up once the session is over.
///
/// A trace that is printed is written to `output` once the session is over. With a trace that goes nowhere or to a
/// writer nothing is printed. A writer gets the trace as orders come. If it can't be written, `when_full` says what
/// happens. All memory but that of the history, and of copies that looks read, is made before the first read.
///
/// A fault is one line on `faults`, after the trace. The session's fault comes first, and `trace failed` after it if
/// the trace's writer lacks some. If the output can't be written, `write failed` is told in place of both. The trace's
/// writer comes back if the session has a history. At `no reader` it has none: the writer is dropped with what it has,
/// and `trace failed` isn't told.
#[tactic(auto, using(crate::proofs::AheadLemmas::goes_on, crate::proofs::AheadLemmas::holds))]
pub fn serve_stream<
    R: Threads + Wait + Sync,
    I: Read,
    C: Write + Send + Drop,
    T: Write + Send + Drop,
    H: HangUp,
    W: Write,
    F: Write,
>(
    rt: &R,
    alloc: Global,
    r: &mut I,
    w: &mut C,
    options: ServeOptions<T>,
    connection: Option<&H>,
    output: &mut W,
    faults: &mut F,
) -> (Status, Option<T>)
    requires workers { (0 < options.workers) × (options.workers ≤ 16) }
    requires blank { (writer : T) → options.trace ≡ TraceTo.Writer writer → IsBlank (T.contents writer) }
    ensures over { result.0 ≢ Status.Faulted CommandFault.NoMemory
        → IsOver options.workers options.rules options.trace options.when_full T.contents (record {
          left = I.remaining r.old;
          left_now = I.remaining r.new;
          held = C.contents w.old;
          held_now = C.contents w.new;
        }) (W.contents output.old) (W.contents output.new) (record {
          status = result.0;
          told = F.contents faults.old;
          told_now = F.contents faults.new;
        }) result.1 }

    // A good status says that all was served, written and traced.
    ensures good { result.0 ≡ Status.Good
        → WentWell options.workers options.rules options.trace options.when_full T.contents (record {
          left = I.remaining r.old;
          left_now = I.remaining r.new;
          held = C.contents w.old;
          held_now = C.contents w.new;
        }) (W.contents output.old) (W.contents output.new) result.1 }

    // Where no writer gets the trace, it never fails.
    ensures untold { ((writer : T) → options.trace ≢ TraceTo.Writer writer)
        → result.0 ≢ Status.Faulted CommandFault.TraceFailed }

    // If there is no memory, nobody was served: nothing was read, and nothing was written. In all other cases somebody
    // was.
    ensures heard { result.0 ≢ Status.Faulted CommandFault.Listen }
    ensures unread { result.0 ≡ Status.Faulted CommandFault.NoMemory
        → Keeps (I.remaining r.old) (I.remaining r.new) × Keeps (C.contents w.old) (C.contents w.new) }
    ensures untraced { result.0 ≡ Status.Faulted CommandFault.NoMemory → result.1 ≡ None }
    ensures nothing { result.0 ≡ Status.Faulted CommandFault.NoMemory
        → LeavesNothing CommandFault.NoMemory (W.contents output.old) (W.contents output.new) (record {
          status = result.0;
          told = F.contents faults.old;
          told_now = F.contents faults.new;
        }) }
{
    let ServeOptions {
        workers,
        rules,
        trace,
        when_full,
    } = options;
    let staff = staff_of(workers, rules, when_full);
    match trace {
        TraceTo::Output => {
            let Ok(mut room) = TraceRoom::new(alloc) else {
                return (end(faults, Err(CommandFault::NoMemory)), None);
            };
            let recorded = record(rt, alloc, r, w, staff, Lines::new(alloc));
            hang_up_if(connection);
            let done = recorded.into_done(alloc);
            (end_printed(&mut room, &done, output, faults), None)
        }
        TraceTo::Nowhere => {
            let recorded = record(rt, alloc, r, w, staff, NoJournal::new());
            hang_up_if(connection);
            (end_session(faults, recorded.fault), None)
        }
        TraceTo::Writer(writer) if when_full == WhenWriterFails::GoOn => {
            let Ok(journal) = Streamed::new(alloc, writer, when_full) else {
                return (end(faults, Err(CommandFault::NoMemory)), None);
            };
            let recorded = record(rt, alloc, r, w, staff, journal);
            hang_up_if(connection);
            end_streamed(faults, recorded)
        }
        TraceTo::Writer(writer) => {
            let Ok(journal) = AheadLines::new(alloc, writer, when_full) else {
                return (end(faults, Err(CommandFault::NoMemory)), None);
            };
            let recorded = record(rt, alloc, r, w, staff, journal);
            hang_up_if(connection);
            end_streamed(faults, streamed(recorded))
        }
    }
}

// So many workers, under these rules. The first works in the thread that reads if orders go on without their lines.
// Otherwise a worker may have to wait for its lines to be stored, and the others go on meanwhile.
fn staff_of(workers: u32, rules: Rules, when_full: WhenWriterFails) -> Staff
    ensures { (result.workers ≡ workers) × (result.rules ≡ rules) }
{
    Staff::new(workers, rules).with_inline(when_full == WhenWriterFails::GoOn)
}

// Serves a session by so many workers, whose lines go to this journal.
fn record<R, I: Read, C: Write + Send + Drop, J: Journal + Send + Drop>(
    rt: &R,
    alloc: Global,
    r: &mut I,
    w: &mut C,
    staff: Staff,
    journal: J,
) -> Recorded<J>
where
    R: Threads + Wait + Sync,
    requires workers { (0 < staff.workers) × (staff.workers ≤ 16) }
    requires none { J.lines journal ≡ [] }
    requires piece { J.piece journal ≡ [] }
    ensures served { HasServed staff.workers staff.rules (record {
      left = I.remaining r.old;
      left_now = I.remaining r.new;
      held = C.contents w.old;
      held_now = C.contents w.new;
    }) (journal_lines J.stored result.journal) (done_of J.lines result) }
    ensures back { MatchOption result.journal (has_history result.fault ≡ false)
        (λ _. has_history result.fault ≡ true) }
    ensures unread { result.fault ≡ Some SessionFault.NoMemory → Keeps (I.remaining r.old) (I.remaining r.new) }
    ensures unwritten { result.fault ≡ Some SessionFault.NoMemory → Keeps (C.contents w.old) (C.contents w.new) }
    ensures stored { IsTrue J.infallible → result.fault ≢ Some SessionFault.Unstored }
{
    if staff.workers == 1 {
        let (recorded, _) = record_session(alloc, r, w, journal, staff.rules);
        return recorded;
    }
    record_with_workers(rt, alloc, r, w, staff, &OpenGate, journal)
}
