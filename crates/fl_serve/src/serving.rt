//! A session of the FUSE protocol with workers, over any reader and any writer.

ghost use Rattle.std.specs.Prelude.{◌≡◌, ◌≢◌, ◌≤◌, ◌<◌, ◌+◌, ◌⊎◌, [], IfSome, IsSome, None, Some, false, true};
ghost use Rattle.std.specs.Io.KnownBytes.{Keeps};
ghost use Rattle.fl_desk.specs.Legal.{IsLegalFromNothing, LeavesLawful};
ghost use Rattle.fl_serve.specs.Inside.Closing.{HasAll};
ghost use Rattle.fl_serve.specs.Serve.{IsRecordedBy, IsServedBy};
ghost use Rattle.fl_session.specs.Recorded.{done_of, journal_lines};

use fl_board::{Board, BoardName, OpenFault};
use fl_core::Rules;
use fl_desk::laws::a_legal_history_goes_on_by_orders;
use fl_history::{Journal, Lines};
use fl_log::{Ask, FreshLog};
use fl_session::{Done, Recorded};
use fl_staff::{Served, Staff, serve_at};
use fl_transport::Fault;
use fl_workers::{Gate, ReplyEntry, WriterName};
use std::alloc::Global;
use std::io::{Read, Write};
use std::marker::Brand;
use std::sync::Wait;
use std::sync::ledger::Blank;
use std::thread::Threads;

/// Serves a session to its end with 1 to 16 workers, under these rules. The reader, which is the caller's thread, answers
/// what is no order; each order goes to a worker, which looks for it at one board or hands it in there, and sends all
/// its replies, each whole. Replies that are ready go out together. All memory is made, but that of the history and of
/// new copies for looks, and all workers are started, before the first read. At the stream's end, at a fault of the
/// reader and at a DESTROY the orders that were read are finished, and only then is a DESTROY answered. After a write
/// that failed it goes on, and writes no more. If both fail, the fault is the reader's. The gate is called for each
/// order and reply.
pub fn serve<R: Threads + Wait + Sync, I: Read, W: Write + Send + Drop, G: Gate + Sync>(
    rt: &R,
    alloc: Global,
    r: &mut I,
    w: &mut W,
    workers: u32,
    rules: Rules,
    gate: &G,
) -> Done
    requires workers { (0 < workers) × (workers ≤ 16) }
    ensures legal { IsLegalFromNothing rules result.history }
    ensures lawful { LeavesLawful rules result.history }
    ensures served { IsServedBy workers rules (record {
      left = I.remaining r.old;
      left_now = I.remaining r.new;
      held = W.contents w.old;
      held_now = W.contents w.new;
    }) result.history result }
    ensures nothing { result.fault ≡ Some Fault.NoMemory
        → (result.history ≡ []) × Keeps (I.remaining r.old) (I.remaining r.new) }
    ensures unwritten { result.fault ≡ Some Fault.NoMemory → Keeps (W.contents w.old) (W.contents w.new) }
    ensures untold { result.fault ≡ Some Fault.NoReader → result.history ≡ [] }
{
    a_legal_history_goes_on_by_orders();
    let staff = Staff::new(workers, rules);
    record_with_workers(rt, alloc, r, w, staff, gate, Lines::new(alloc)).into_done(alloc)
}

/// As `serve`, with this staff, but its lines go to this journal, which has none so far. The journal comes back with
/// them, except at `NoMemory` and `NoReader`, when it is dropped. It stores all lines when a worker has no order.
pub fn record_with_workers<
    R,
    I: Read,
    W: Write + Send + Drop,
    G: Gate + Sync,
    J: Journal + Send + Drop,
>(rt: &R, alloc: Global, r: &mut I, w: &mut W, staff: Staff, gate: &G, journal: J) -> Recorded<J>
where
    R: Threads + Wait + Sync,
    requires workers { (0 < staff.workers) × (staff.workers ≤ 16) }
    requires none { J.lines journal ≡ [] }
    requires piece { J.piece journal ≡ [] }
    ensures { IsRecordedBy J.lines J.stored staff.workers staff.rules (record {
      left = I.remaining r.old;
      left_now = I.remaining r.new;
      held = W.contents w.old;
      held_now = W.contents w.new;
    }) result }
{
    let blank = Blank::new(u64::from(staff.workers));
    let log = FreshLog::new();
    let sending = Blank::new(u64::from(staff.workers) + 1);
    let given = FreshLog::new();
    let (recorded, w) = run_at::<Brand, Brand, &R, R, I, W, G, J>(
        rt, rt, alloc, blank, log, sending, given, r, w, gate, staff, journal,
    );
    // No effect at run time: the proof reads here what the writer holds.
    let _ = &*w;
    recorded
}

// The same at a board of this name, which waits by `handle`, and with a writer of that name.
fn run_at<
    'w,
    L: BoardName + Send + Sync,
    N: WriterName + Send + Sync,
    P: Wait + Drop + Copy + Send + Sync,
    R: Threads + Wait + Sync,
    I: Read,
    W: Write + Send + Drop,
    G: Gate + Sync,
    J: Journal + Send + Drop,
>(
    rt: &R,
    handle: P,
    alloc: Global,
    blank: Blank,
    log: FreshLog<Ask>,
    sending: Blank,
    given: FreshLog<ReplyEntry>,
    r: &mut I,
    w: &'w mut W,
    gate: &G,
    staff: Staff,
    journal: J,
) -> (Recorded<J>, &'w mut W)
    requires named { (blank.name ≡ L.name) × (blank.parts ≡ L.parts) }
    requires log { log ≡ L.log }
    requires parts { (staff.workers ≡ L.parts) × (L.workers ≡ L.parts) }
    requires rules { staff.rules ≡ L.rules }
    requires workers { (0 < staff.workers) × (staff.workers ≤ 16) }
    requires none { J.lines journal ≡ [] }
    requires piece { J.piece journal ≡ [] }
    requires start { W.contents w.old ≡ N.start }
    requires writer { w.ghost_name ≡ N.writer }
    requires sending { (sending.name ≡ N.name) × (sending.parts ≡ N.parts) × (staff.workers + 1 ≡ N.parts) }
    requires given { given ≡ N.log }
    ensures writer { result.1.ghost_name ≡ w.entry.ghost_name }
    ensures recorded { IsRecordedBy J.lines J.stored staff.workers staff.rules (record {
      left = I.remaining r.old;
      left_now = I.remaining r.new;
      held = W.contents w.old;
      held_now = W.contents result.1.now;
    }) result.0 }
{
    let Staff { workers, rules, .. } = staff;
    let made = Board::<L, P, J>::over(alloc, handle, journal, blank, log, workers, rules);
    let (board, seats) = match made {
        Ok(made) => made,
        Err(fault) => return (Recorded::nothing(alloc, unopened(fault)), w),
    };
    let (served, w) = serve_at::<Board<L, P, J>, N, R, I, W, G>(
        rt, alloc, board, seats, staff, sending, given, r, w, gate,
    );
    match served {
        Ok(served) => (closed(alloc, served), w),
        Err(fault) => (Recorded::nothing(alloc, fault), w),
    }
}

// The result of a session that was served. If the board can't give the history, or it isn't known that each reply was
// given to be sent, the fault is `NoReader`.
fn closed<L: BoardName, P: Wait + Drop + Copy, J: Journal + Drop>(
    alloc: Global,
    served: Served<Board<L, P, J>>,
) -> Recorded<J>
    requires { L.workers ≡ L.parts }
    ensures legal { IfSome result.journal (λ journal. IsLegalFromNothing L.rules (J.lines journal)) }
    ensures told { HasAll served.seats.items served.refused served.fault (journal_lines J.stored result.journal)
        (done_of J.lines result) × (served.known ≡ true)
        ⊎ (result.fault ≡ Some Fault.NoReader) × (result.journal ≡ None) × (result.refused ≡ false) }
    ensures back { IsSome result.journal ⊎ (result.fault ≡ Some Fault.NoReader) }
    ensures untold { served.fault ≢ Some Fault.NoReader → result.fault ≡ Some Fault.NoReader
        → result.journal ≡ None }
    ensures memory { served.fault ≢ Some Fault.NoMemory → result.fault ≢ Some Fault.NoMemory }
{
    let Served {
        counter: board,
        seats,
        refused,
        known,
        fault,
    } = served;
    match board.into_journal(seats) {
        Ok(journal) if known => Recorded {
            journal: Some(journal),
            fault,
            refused,
        },
        _ => Recorded::nothing(alloc, Fault::NoReader),
    }
}

// Why a session has no board.
fn unopened(fault: OpenFault) -> Fault
    ensures { ((fault ≡ OpenFault.NoMemory) × (result ≡ Fault.NoMemory))
        ⊎ ((fault ≡ OpenFault.NoReader) × (result ≡ Fault.NoReader)) }
{
    match fault {
        OpenFault::NoMemory => Fault::NoMemory,
        OpenFault::NoReader => Fault::NoReader,
    }
}
