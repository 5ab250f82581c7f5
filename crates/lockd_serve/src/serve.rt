//! `lockd serve`: one session over a socket, with workers.

ghost use Rattle.std.specs.Prelude.{◌≡◌, ◌≤◌, ◌<◌, []};
ghost use Rattle.std.specs.Path.{path_bytes};
ghost use Rattle.fl_stream.specs.Streams.{IsBlank};
ghost use Rattle.fl_transport.specs.Streams.{Streams};
ghost use Rattle.lockd_faults.specs.declared.fault.CommandFault.{CommandFault};
ghost use Rattle.lockd_serve.specs.Ending.{IsOver, WentWell};
ghost use Rattle.lockd_serve.specs.declared.options.TraceTo.{TraceTo};
ghost use Rattle.lockd_serve.specs.Unserved.{LeavesNothing, ServesNobody};

use crate::options::ServeOptions;
use crate::serving::serve_stream;
use lockd_faults::{Noting, Observer, Status, end_unheard};
use lockd_streams::{OldSocket, Patient, Spinning, connection};
use std::alloc::Global;
use std::fs::Files;
use std::io::Write;
use std::net::Net;
use std::path::Path;
use std::sync::Wait;
use std::thread::Threads;

/// `lockd serve`: listens at a path with a Unix stream socket, and serves the first connection as these options say.
/// The socket's file is taken away when the connection is there, and no other file that stands at the path by then. At
/// an empty path it doesn't listen.
///
/// A trace that is printed is written once the session is over, and a fault is one line on `faults` after it. With a
/// trace that goes nowhere or to a writer nothing is printed. A writer gets the trace as orders come. If it can't be
/// written, `when_full` says what happens. At the end `faults` gets `trace failed`, after a fault of the session if
/// there is one. The writer comes back if the session has a history, with the text of a beginning of its history. The
/// observer is told what the server does, and after a fault why it serves nobody.
pub fn serve_on<
    R: Threads + Wait + Net + Files + Sync,
    T: Write + Send + Drop,
    W: Write,
    F: Write,
    O: Observer,
>(
    rt: &R,
    alloc: Global,
    path: Path<'_>,
    options: ServeOptions<T>,
    output: &mut W,
    faults: &mut F,
    observer: &mut O,
) -> (Status, Option<T>)
    requires workers { (0 < options.workers) × (options.workers ≤ 16) }
    requires blank { (writer : T) → options.trace ≡ TraceTo.Writer writer → IsBlank (T.contents writer) }

    // Some `streams`: no clause ties them to the connection.
    ensures over { ¬ ServesNobody result.0 → (streams : Streams)
        × IsOver options.workers options.rules options.trace options.when_full T.contents streams
        (W.contents output.old) (W.contents output.new) (record {
          status = result.0;
          told = F.contents faults.old;
          told_now = F.contents faults.new;
        }) result.1 }
    ensures good { result.0 ≡ Status.Good → (streams : Streams)
        × WentWell options.workers options.rules options.trace options.when_full T.contents streams
        (W.contents output.old) (W.contents output.new) result.1 }
    ensures nothing { (fault : CommandFault) → result.0 ≡ Status.Faulted fault → ServesNobody result.0
        → LeavesNothing fault (W.contents output.old) (W.contents output.new) (record {
          status = result.0;
          told = F.contents faults.old;
          told_now = F.contents faults.new;
        }) }
    ensures untraced { ServesNobody result.0 → result.1 ≡ None }
    ensures unnamed { path_bytes path.entry ≡ [] → result.0 ≡ Status.Faulted CommandFault.Listen }
{
    let stream = match connection(rt, alloc, path, OldSocket::Keep, observer) {
        Ok(stream) => stream,
        Err(why) => return (end_unheard(faults, observer, why), None),
    };
    let mut r = Spinning::new(&stream, &stream);
    let mut w = Noting::new(Patient::new(&stream, &stream));
    let socket = Some(&stream);
    let served = serve_stream(rt, alloc, &mut r, &mut w, options, socket, output, faults);
    observer.ended(r.client(), w.failed());
    served
}
