//! A session behind the lines of a trace.

ghost use Rattle.std.specs.Prelude.{◌≡◌, ◌≢◌, ◌≤◌, ◌++◌, Some, IsTrue, length, min};
ghost use Rattle.fl_desk.specs.Kept.{IsKept};
ghost use Rattle.fl_history.specs.Place.{place_of};
ghost use Rattle.fl_judge.specs.Present.{told_lines};
ghost use Rattle.fl_transport.specs.declared.fault.Fault.{Fault as SessionFault};
ghost use Rattle.lockd_resume.specs.Resumed.{IsResumed, lines_at};
ghost use Rattle.fl_stream.specs.Streams.{HoldsText, IsAs, IsBegun, Wrote};
ghost use Rattle.fl_trace.specs.Text.{text_of};

use crate::point::ResumePoint;
use fl_desk::Desk;
use fl_history::{Journal, Recent};
use fl_judge::Resumed;
use fl_order::Told;
use fl_session::{Fault, Recorded, resume_session};
use fl_stream::{PieceLines, Pieces, StreamRoom, Streamed};
use std::io::{Read, Write};

/// A session that went on behind a trace, once it is over.
#[derive(Drop)]
pub struct ResumedRun<T> {
    /// The file that got its lines; if they stand in several pieces, those of the last.
    pub file: T,
    /// Why it ended early, if it did; `Unstored` if lines couldn't be written before their replies.
    pub fault: Option<Fault>,
    /// Some order was refused, since memory ran out.
    pub refused: bool,
    /// A reply to the client didn't go out whole.
    pub broken: bool,
    /// The file has the text of all lines of its piece.
    pub whole: bool,
}

/// Serves a session that goes on from this point. `file` has the text of the point's lines and nothing more. The
/// replies that they lack are written first, and then the lines of each order before any of its replies goes to the
/// client. If lines can't be written, no reply that waits for them goes out, and the session ends. A message that is
/// sent again (`FUSE_UNIQUE_RESEND`) is answered as it was, or is new if the last lines lack it. All memory is there
/// before.
pub(crate) fn resume<R: Read, W: Write, T: Write + Drop, P: Pieces<T> + Drop>(
    r: &mut R,
    w: &mut W,
    point: ResumePoint,
    file: T,
    pieces: P,
    spare: StreamRoom,
) -> ResumedRun<T>
    requires there { IsAs (T.contents file) (text_of point.resumed.past.items) }
    requires recent { point.recent ≡ point.heard.items ++ point.resumed.past.items }
    requires place { point.place ≡ place_of point.resumed.past.items }
    requires kept { IsKept (lines_at point) point.resumed.present }
    requires rules { point.resumed.present.rules ≡ point.session.rules }
    ensures resumed { IsResumed point.session.rules point.heard.items (lines_at point) T.contents (record {
      left = R.remaining r.old;
      left_now = R.remaining r.new;
      held = W.contents w.old;
      held_now = W.contents w.new;
    }) result }
    ensures fault { result.fault ≢ Some SessionFault.NoMemory }
{
    let ResumePoint {
        resumed,
        heard,
        recent,
        since,
        place,
        session,
        stream,
        ..
    } = point;
    let Resumed {
        present,
        missing,
        past,
    } = resumed;
    let journal = PieceLines::behind(stream, spare, file, &past, place, since, pieces);
    let journal = lines_behind(journal, missing.as_slice());
    let recent = recent_behind(recent, missing.as_slice());
    let desk = Desk::resume(journal, present);
    let (recorded, broken) = resume_session(session, r, w, desk, heard, recent);
    let Recorded {
        journal,
        fault,
        refused,
    } = recorded;
    let Some(journal) = journal else {
        unreachable!()
    };
    let (file, whole) = finish(journal.into_here().into_stream());
    ResumedRun {
        file,
        fault,
        refused,
        broken,
        whole,
    }
}

// The lines of a trace and the replies that they lack.
fn lines_behind<T: Write + Drop, P: Pieces<T> + Drop>(
    mut journal: PieceLines<T, P>,
    missing: &[Told],
) -> PieceLines<T, P>
    requires few { length missing.now ≤ min 2048 journal.here.room }
    ensures lines { result.lines ≡ journal.lines ++ told_lines missing.now }
    ensures piece { result.here.lines ≡ journal.here.lines ++ told_lines missing.now }
{
    for told in missing {
        journal.push_told(told);
    }
    journal
}

// The last lines of a trace and of the replies that it lacks.
fn recent_behind(recent: Recent, missing: &[Told]) -> Recent
    ensures { result ≡ recent ++ told_lines missing.now }
{
    let mut recent = recent;
    for told in missing {
        recent.push_told(told);
    }
    recent
}

// Writes what waits, and gives the file, and whether it has the text of all lines.
fn finish<T: Write>(stream: Streamed<T>) -> (T, bool)
    ensures there { HoldsText T.contents (T.contents result.0) stream.noted }
    ensures begun { IsBegun T.contents (T.contents result.0) stream.lines }
    ensures whole { IsTrue result.1 → Wrote T.contents (T.contents result.0) (text_of stream.lines) }
{
    let mut stream = stream;
    let whole = stream.finish();
    (stream.into_writer(), whole)
}
