//! One session behind the lines of a trace, over a reader and two writers, and what is left of it.

ghost use Rattle.std.specs.Prelude.{◌≡◌, ◌≢◌, ◌++◌, None, IsTrue};
ghost use Rattle.fl_desk.specs.Kept.{IsKept};
ghost use Rattle.fl_history.specs.Place.{place_of};
ghost use Rattle.fl_stream.specs.Streams.{IsAs};
ghost use Rattle.fl_trace.specs.Text.{text_of};
ghost use Rattle.lockd_faults.specs.declared.fault.CommandFault.{CommandFault};
ghost use Rattle.lockd_resume.specs.Resumed.{IsOverBehind, lines_at};

use crate::behind::{ResumedRun, resume};
use crate::hang_up::{HangUp, hang_up_if};
use crate::point::ResumePoint;
use fl_stream::{Pieces, StreamRoom};
use lockd_faults::{Status, end_resumed};
use std::io::{Read, Write};

/// Serves a session that goes on from this point, with one worker: what the client sends is read from `r`, and the
/// replies go to `w`. `file` has the text of the point's lines and nothing more. The replies that they lack are written
/// to it first, and then the lines of each order before any of its replies leaves. Before a read a new piece may begin,
/// and `spare` is the room for the text of its head: then its file comes back. If `r` and `w` are those of a connection,
/// it is hung up once the session is over.
///
/// A fault is one line on `faults`. Behind the session's fault it is told that the trace failed, if the file lacks
/// lines.
pub fn resume_stream<I: Read, C: Write, T: Write + Drop, P: Pieces<T> + Drop, H: HangUp, F: Write>(
    r: &mut I,
    w: &mut C,
    point: ResumePoint,
    file: T,
    pieces: P,
    spare: StreamRoom,
    connection: Option<&H>,
    faults: &mut F,
) -> (Status, ResumedRun<T>)
    requires there { IsAs (T.contents file) (text_of point.resumed.past.items) }
    requires recent { point.recent ≡ point.heard.items ++ point.resumed.past.items }
    requires place { point.place ≡ place_of point.resumed.past.items }
    requires kept { IsKept (lines_at point) point.resumed.present }
    requires rules { point.resumed.present.rules ≡ point.session.rules }
    ensures over { IsOverBehind point.session.rules point.heard.items (lines_at point) T.contents (record {
      left = I.remaining r.old;
      left_now = I.remaining r.new;
      held = C.contents w.old;
      held_now = C.contents w.new;
    }) (record {
      status = result.0;
      told = F.contents faults.old;
      told_now = F.contents faults.new;
    }) result.1 }

    // A good status says that all was served and written, and is in the file.
    ensures good { result.0 ≡ Status.Good → (result.1.fault ≡ None) × IsTrue result.1.whole }

    // It never tells `no memory`: `resumed_from` does, which has no client, and no file to write.
    ensures memory { result.0 ≢ Status.Faulted CommandFault.NoMemory }
{
    let run = resume(r, w, point, file, pieces, spare);
    hang_up_if(connection);
    let status = end_resumed(faults, run.fault, run.whole);
    (status, run)
}
