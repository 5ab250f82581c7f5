//! `lockd serve`.

ghost use Rattle.std.specs.Prelude.{◌≡◌, ◌≢◌, ◌↔◌, ◌≤◌, ◌<◌, Some, IfErr, IfOk, OnOk};
ghost use Rattle.std.specs.Io.KnownBytes.{Keeps};
ghost use Rattle.lockd.specs.Inside.{AsksFile, AsksRefusal, GoesWhere};
ghost use Rattle.lockd_faults.specs.Ending.{Ends};

use lockd_cli::{SaidRules, Trace, WhenFull, WhenStuck};
use lockd_commands::{CommandFault, Noting, Rules, Status, end};
use lockd_serve::{
    Observer, Resuming, Rotation, ServeOptions, TracePath, TraceTo, TraceWriter, Untraced,
    WhenUnwritten, WhenWriterFails, end_traced_to, end_unopened, file_to_go_on_in, head_rules,
    is_at, is_unused, new_file, new_first_piece, next_name, remove_if_at, resume_on, serve_on,
};
use lockd_stdio::{Host, ServerWords, hold_closed_streams};
use std::fs::{File, Files, TryLockError};
use std::io;
use std::io::{Stderr, Write};
use std::net::Net;
use std::path::Path;
use std::sync::Wait;
use std::thread::Threads;

// What writes a trace's file.
type Written<'a> = TraceWriter<'a, &'a Stderr>;

// What says what a server does.
type Words<'a> = ServerWords<'a, HostRuntime, Stderr>;

/// `lockd serve`. `threads` is the runtime too: only `main` has the right to start threads and to wait.
pub(crate) fn serve<T: Threads + Wait + Net + Files + Sync>(
    host: Host<'_>,
    threads: &T,
    socket: &str,
    workers: u32,
    trace: &Trace,
    rules: Rules,
) -> Status
    requires workers { (0 < workers) × (workers ≤ 16) }
{
    let rt = host.rt;
    hold_closed_streams(rt);
    let name = file_of(trace);
    let mut words = server_words(host, socket, name, rules);
    let Ok(next) = next_name(rt.alloc(), name) else {
        return end(&mut rt.stderr(), Err(CommandFault::NoMemory));
    };
    let next = next.as_str();
    let notices = rt.stderr();
    let at = TracePath { rt, name, next };
    let to = match opened(at, trace, &notices, &mut rt.stderr(), &mut words) {
        Ok(to) => to,
        Err(status) => return status,
    };
    let options = ServeOptions {
        workers,
        rules,
        trace: to,
        when_full: when_full(trace),
    };
    serve_opened(rt, threads, socket, trace, options, &mut words)
}

// Serves as these options say, once the trace's file is there, and looks for that at the end.
fn serve_opened<T: Threads + Wait + Net + Files + Sync>(
    rt: &HostRuntime,
    threads: &T,
    socket: &str,
    trace: &Trace,
    options: ServeOptions<Written<'_>>,
    words: &mut Words<'_>,
) -> Status
    requires workers { (0 < options.workers) × (options.workers ≤ 16) }
{
    let made = kept_open(rt, trace, &options.trace);
    let mut output = Noting::new(io::writer(rt));
    let mut faults = rt.stderr();
    let path = Path::new(socket);
    let (status, written) = serve_on(
        threads,
        rt.alloc(),
        path,
        options,
        &mut output,
        &mut faults,
        words,
    );
    words.printed(status, output.failed());
    remove_unused(rt, trace, &made, status);
    end_traced(written, status, &mut faults, words)
}

/// `lockd serve --resume`, and `lockd serve --trace --rotate`, whose file is new.
pub(crate) fn resume(host: Host<'_>, socket: &str, how: Resuming<'_>, said: SaidRules) -> Status {
    let rt = host.rt;
    hold_closed_streams(rt);
    let standard = Rules::standard();
    let mut trace = match piece_at_hand(rt, how) {
        Ok(trace) => trace,
        Err(why) => {
            let mut words = server_words(host, socket, how.name, said.over(standard));
            return end_unopened(&mut rt.stderr(), &mut words, Untraced::Unopened(why));
        }
    };
    let rules = said.over(head_rules(&mut trace, false).unwrap_or(standard));
    let mut words = server_words(host, socket, how.name, rules);
    if how.is_new {
        return begin_opened(rt, socket, rules, trace, how, &mut words);
    }
    resume_opened(rt, socket, rules, trace, how, &mut words)
}

// The file of the trace. It is made if there is none, or if it has to be new.
fn piece_at_hand(rt: &HostRuntime, how: Resuming<'_>) -> io::Result<File> {
    if how.is_new {
        return new_first_piece(rt, how.name);
    }
    file_to_go_on_in(rt, how.name)
}

// Begins a trace in a file that was made for it.
fn begin_opened(
    rt: &HostRuntime,
    socket: &str,
    rules: Rules,
    trace: File,
    how: Resuming<'_>,
    words: &mut Words<'_>,
) -> Status {
    words.traced();
    let made = opened_again(rt, how.name, &trace);
    let status = resume_opened(rt, socket, rules, trace, how, words);
    remove_unserved(rt, how.name, &made, status);
    status
}

// This file, open once more at its path, so that no other file gets its number. It hasn't its lock, since it would keep
// that of an older piece. None, if another file is there by now.
fn opened_again(rt: &HostRuntime, name: &str, file: &File) -> Option<File> {
    let path = Path::new(name);
    let again = File::open(rt, path).ok()?;
    if is_at(rt, path, file) && is_at(rt, path, &again) {
        Some(again)
    } else {
        None
    }
}

// Goes on in a file that was opened.
fn resume_opened(
    rt: &HostRuntime,
    socket: &str,
    rules: Rules,
    trace: File,
    how: Resuming<'_>,
    words: &mut Words<'_>,
) -> Status {
    let mut faults = rt.stderr();
    let notices = rt.stderr();
    resume_on(
        rt,
        rt.alloc(),
        Path::new(socket),
        rules,
        trace,
        how,
        &mut faults,
        &notices,
        words,
    )
}

// Says more of a server at this socket, whose trace's file is at this path, if that is asked for.
fn server_words<'a>(host: Host<'a>, socket: &'a str, file: &'a str, rules: Rules) -> Words<'a> {
    let rt = host.rt;
    let to = if host.verbose {
        Some(rt.stderr())
    } else {
        None
    };
    ServerWords::new(rt, to, socket, file, rules)
}

// The path of the trace's file; nothing if it has none.
fn file_of(trace: &Trace) -> &str {
    match trace {
        Trace::File(file, _) => file.as_str(),
        Trace::Printed | Trace::Nowhere => "",
    }
}

// Where the trace of `lockd serve` goes. Its file is made before the server listens.
fn opened<'a, F: Write, O: Observer>(
    at: TracePath<'a>,
    trace: &Trace,
    notices: &'a Stderr,
    faults: &mut F,
    words: &mut O,
) -> Result<TraceTo<Written<'a>>, Status>
    ensures trace { IfOk result (GoesWhere trace.now) }
    ensures error { IfErr result (λ status. AsksFile trace.now × Ends (Some CommandFault.Trace) (record {
      status = status;
      told = F.contents faults.old;
      told_now = F.contents faults.new;
    })) }
    ensures untold { OnOk result (Keeps (F.contents faults.old) (F.contents faults.new)) }
{
    match trace {
        Trace::Printed => Ok(TraceTo::Output),
        Trace::Nowhere => Ok(TraceTo::Nowhere),
        Trace::File(_, _) => match new_file(at, notices, words) {
            Ok(written) => Ok(TraceTo::Writer(written)),
            Err(error) => Err(end_unopened(faults, words, Untraced::Unopened(error))),
        },
    }
}

// Ends a server with this status. If its trace's file was spoilt, or can't be put back at its path, that is told.
fn end_traced<F: Write>(
    written: Option<Written<'_>>,
    status: Status,
    faults: &mut F,
    words: &mut Words<'_>,
) -> Status
    ensures bad { status ≢ Status.Good → result ≡ status }
{
    match written {
        Some(written) => {
            let mut written = written;
            end_traced_to(written.is_kept(), status, faults, words)
        }
        None => status,
    }
}

// The trace's file, if it has one, open once more.
fn kept_open(rt: &HostRuntime, trace: &Trace, to: &TraceTo<Written<'_>>) -> Option<File> {
    match to {
        TraceTo::Writer(written) => opened_again(rt, file_of(trace), written.file().file()),
        TraceTo::Output | TraceTo::Nowhere => None,
    }
}

// Takes the trace's file away if no session was served, unless another file is at its path by then.
fn remove_unused(rt: &HostRuntime, trace: &Trace, made: &Option<File>, status: Status) {
    match (trace, made) {
        (Trace::File(file, _), Some(made)) if is_unused(status) => {
            remove_if_at(rt, file.as_str(), made);
        }
        _ => {}
    }
}

// Takes the first piece of a trace away if no session was served, unless another file is at its path by then, or
// another server has it.
fn remove_unserved(rt: &HostRuntime, path: &str, made: &Option<File>, status: Status) {
    let Some(made) = made else {
        return;
    };
    let is_unserved = is_unused(status) || status == Status::Faulted(CommandFault::Trace);
    if is_unserved && is_empty(made) && !is_taken(made) {
        remove_if_at(rt, path, made);
    }
}

// Whether this file has nothing in it, as far as the system tells.
fn is_empty(file: &File) -> bool {
    match file.metadata() {
        Ok(found) => found.len() == 0,
        Err(_) => false,
    }
}

// Whether another server has this file locked.
fn is_taken(file: &File) -> bool {
    match file.try_lock() {
        Err(TryLockError::WouldBlock) => true,
        Err(TryLockError::Error(_)) | Ok(()) => false,
    }
}

// What happens to orders when the trace's file can't be written.
fn when_full(trace: &Trace) -> WhenWriterFails
    ensures refuse { result ≡ WhenWriterFails.Refuse ↔ AsksRefusal trace.now }
    ensures goes_on { ¬ AsksRefusal trace.now → result ≡ WhenWriterFails.GoOn }
{
    match trace {
        Trace::File(_, WhenFull::Refuse) => WhenWriterFails::Refuse,
        Trace::File(_, WhenFull::GoOn) | Trace::Printed | Trace::Nowhere => WhenWriterFails::GoOn,
    }
}

/// How a server goes on in a trace's file at this path, which is new or not.
pub(crate) fn resuming<'a>(
    name: &'a str,
    is_new: bool,
    allows_gap: bool,
    when: WhenUnwritten,
    said: &Option<lockd_cli::Rotation>,
) -> Resuming<'a> {
    Resuming {
        name,
        is_new,
        when,
        rotation: said.map(rotation_of),
        allows_gap,
    }
}

// When the next piece of a trace begins, as a command line says it.
fn rotation_of(said: lockd_cli::Rotation) -> Rotation {
    Rotation {
        bytes: u64::from(said.bytes),
        keep: said.keep.map(u64::from),
    }
}

/// What a server does that goes on behind a trace, while the trace's file can't be written.
pub(crate) fn when_unwritten(said: WhenStuck) -> WhenUnwritten
    ensures { result ≡ WhenUnwritten.End ↔ said ≡ WhenStuck.End }
{
    match said {
        WhenStuck::Wait => WhenUnwritten::Wait,
        WhenStuck::End => WhenUnwritten::End,
    }
}
