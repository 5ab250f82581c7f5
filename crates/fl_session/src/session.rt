//! A session of the FUSE protocol with one worker, over any reader and any writer.

ghost use Rattle.std.specs.Prelude.{◌≡◌, ◌≢◌, ◌⊎◌, ◌++◌, Bool, true, false, [], Option, None, Some, IfSome, IsSome, IsTrue};
ghost use Rattle.std.specs.Prelude.{is_some};
ghost use Rattle.std.specs.Io.KnownBytes.{Keeps};
ghost use Rattle.fl_desk.specs.Legal.{IsLegal};
ghost use Rattle.fl_desk.specs.Pieces.{IsPiece};
ghost use Rattle.fl_session.specs.Recorded.{done_of};
ghost use Rattle.fl_session.specs.Served.{IsServed, IsServedAhead, IsServedAheadBehind, IsServedAheadFrom};
ghost use Rattle.fl_session.specs.Session.{session_behind};

use crate::answering::serve_all;
use crate::done::Done;
use crate::recorded::Recorded;
use crate::replying::Replying;
use crate::room::SessionRoom;
use crate::server::Server;
use fl_core::Rules;
use fl_desk::Desk;
use fl_history::{Journal, Line, Lines, Past, Recent};
use fl_transport::{Fault, Outbox, ReplyBatch};
use std::alloc::Global;
use std::io::{Read, Write};
use std::marker::PhantomData;

/// The result of a session, and whether a write failed.
#[derive(Debug, Drop)]
pub struct Ended {
    /// Its result.
    pub done: Done,
    /// A write failed, or took nothing: a reply didn't go out whole, and those behind it didn't go out. A fault of
    /// the reader doesn't hide it.
    pub broken: bool,
}

/// Serves a session to its end in this thread, under these rules: each message is answered when it is whole. Replies are
/// collected, and go out together when their room is full, before each read, and at the end. All memory but that of
/// the history is made before the first read. A read that fails ends the session, and so does a DESTROY after an INIT
/// is agreed. After a write that failed it goes on, and writes no more.
pub fn run_one<R: Read, W: Write>(alloc: Global, r: &mut R, w: &mut W, rules: Rules) -> Done
    ensures served { (broken : Bool) × IsServed rules (record {
      left = R.remaining r.old;
      left_now = R.remaining r.new;
      held = W.contents w.old;
      held_now = W.contents w.new;
    }) broken result }
    ensures stored { result.fault ≢ Some Fault.Unstored }
{
    let Ended { done, broken: _ } = run_session(alloc, r, w, rules);
    done
}

/// The same, and also gives whether a write failed.
pub fn run_session<R: Read, W: Write>(alloc: Global, r: &mut R, w: &mut W, rules: Rules) -> Ended
    ensures served { IsServed rules (record {
      left = R.remaining r.old;
      left_now = R.remaining r.new;
      held = W.contents w.old;
      held_now = W.contents w.new;
    }) result.broken result.done }
    ensures stored { result.done.fault ≢ Some Fault.Unstored }
{
    let (recorded, broken) = record_session(alloc, r, w, Lines::new(alloc), rules);
    let done = recorded.into_done(alloc);
    Ended { done, broken }
}

/// The same, but its lines go to this journal, which has none so far. The journal comes back with them, except at
/// `NoMemory`: then it is dropped, and nothing was read or written. It is flushed before each read, and before replies
/// go out: if it can't store its lines then, no reply that waits goes out, and the session ends. Before a read it may
/// begin a new piece.
pub fn record_session<R: Read, W: Write, J: Journal + Drop>(
    alloc: Global,
    r: &mut R,
    w: &mut W,
    journal: J,
    rules: Rules,
) -> (Recorded<J>, bool)
    requires none { J.lines journal ≡ [] }
    requires piece { J.piece journal ≡ [] }
    ensures served { IsServed rules (record {
      left = R.remaining r.old;
      left_now = R.remaining r.new;
      held = W.contents w.old;
      held_now = W.contents w.new;
    }) result.1 (done_of J.lines result.0) }
    ensures ahead { IfSome result.0.journal (λ journal. IsServedAhead rules (record {
      left = R.remaining r.old;
      left_now = R.remaining r.new;
      held = W.contents w.old;
      held_now = W.contents w.new;
    }) result.1 (done_of J.lines result.0) (J.stored journal)) }
    ensures legal { IfSome result.0.journal (λ journal. IsLegal rules (J.lines journal)) }
    ensures piece { IfSome result.0.journal (λ journal. IsPiece rules (J.lines journal) (J.piece journal)) }
    ensures back { IsSome result.0.journal ⊎ (result.0.fault ≡ Some Fault.NoMemory) }
    ensures nothing { result.0.fault ≡ Some Fault.NoMemory
        → (result.0.journal ≡ None) × Keeps (R.remaining r.old) (R.remaining r.new) }
    ensures unwritten { result.0.fault ≡ Some Fault.NoMemory → Keeps (W.contents w.old) (W.contents w.new) }
    ensures stored { IsTrue J.infallible → result.0.fault ≢ Some Fault.Unstored }
{
    let Ok(room) = SessionRoom::new(alloc, rules) else {
        return (Recorded::nothing(alloc, Fault::NoMemory), false);
    };
    let Ok(desk) = Desk::over(alloc, journal, rules) else {
        return (Recorded::nothing(alloc, Fault::NoMemory), false);
    };
    let heard = Past::new();
    serve_session(room, r, w, desk, heard, None)
}

/// The same, but the session goes on behind the lines of a desk, and knows messages that are sent again
/// (`FUSE_UNIQUE_RESEND`). `recent` has the same lines, behind those that were heard before: if the desk's lines begin
/// with a head, these are the last of the piece before. All memory but that of the history is there before, so the
/// journal comes back, and the history is all its lines.
pub fn resume_session<R: Read, W: Write, J: Journal + Drop>(
    room: SessionRoom,
    r: &mut R,
    w: &mut W,
    desk: Desk<J>,
    heard: Past<Line>,
    recent: Recent,
) -> (Recorded<J>, bool)
    requires rules { desk.present.rules ≡ room.rules }
    requires recent { recent ≡ heard.items ++ desk.lines }
    ensures served { IfSome result.0.journal (λ journal. IsServedAheadBehind room.rules heard.items desk.lines (record {
      left = R.remaining r.old;
      left_now = R.remaining r.new;
      held = W.contents w.old;
      held_now = W.contents w.new;
    }) result.1 (done_of J.lines result.0) (J.stored journal)) }
    ensures legal { IfSome result.0.journal (λ journal. IsLegal room.rules (J.lines journal)) }
    ensures piece { IfSome result.0.journal (λ journal. IsPiece room.rules (J.lines journal) (J.piece journal)) }
    ensures back { IsSome result.0.journal }
    ensures fault { result.0.fault ≢ Some Fault.NoMemory }
    ensures stored { IsTrue J.infallible → result.0.fault ≢ Some Fault.Unstored }
{
    serve_session(room, r, w, desk, heard, Some(recent))
}

// Serves a session behind the lines of a desk, and others that were heard before. It knows messages that are sent again
// if the last lines are kept.
fn serve_session<R: Read, W: Write, J: Journal + Drop>(
    room: SessionRoom,
    r: &mut R,
    w: &mut W,
    desk: Desk<J>,
    heard: Past<Line>,
    recent: Option<Recent>,
) -> (Recorded<J>, bool)
    requires rules { desk.present.rules ≡ room.rules }
    requires recent { IfSome recent (λ lines. lines ≡ heard.items ++ desk.lines) }
    ensures served { IfSome result.0.journal (λ journal.
        IsServedAheadFrom (session_behind room.rules heard.items desk.lines (is_some recent)) (record {
          left = R.remaining r.old;
          left_now = R.remaining r.new;
          held = W.contents w.old;
          held_now = W.contents w.new;
        }) result.1 (done_of J.lines result.0) (J.stored journal)) }
    ensures legal { IfSome result.0.journal (λ journal. IsLegal room.rules (J.lines journal)) }
    ensures piece { IfSome result.0.journal (λ journal. IsPiece room.rules (J.lines journal) (J.piece journal)) }
    ensures back { IsSome result.0.journal }
    ensures fault { result.0.fault ≢ Some Fault.NoMemory }
    ensures stored { IsTrue J.infallible → result.0.fault ≢ Some Fault.Unstored }
{
    let SessionRoom {
        inbox,
        tolds,
        replies,
        ..
    } = room;
    let mut inbox = inbox;
    let mut server = Server::new(desk, heard, recent, tolds);
    let mut replying = Replying {
        batch: ReplyBatch {
            replies,
            out: Outbox::new(w),
        },
        lost: false,
        journal: PhantomData,
    };
    let fault = serve_all(r, &mut inbox, &mut server, &mut replying);
    let Replying {
        batch,
        lost: _,
        journal: _,
    } = replying;
    let ReplyBatch { replies, out } = batch;
    // Here, since the proof finds no more what the writer holds if something is dropped behind it.
    drop(replies);
    let (writer, broken) = out.into_parts();
    // No effect at run time: the proof reads here what the writer holds.
    let _ = &*writer;
    let Server { desk, refused, .. } = server;
    let recorded = Recorded {
        journal: Some(desk.into_journal()),
        fault: Fault::told(fault, broken),
        refused,
    };
    (recorded, broken)
}
