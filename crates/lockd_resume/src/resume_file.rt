//! `lockd serve --resume`: a session behind the lines of a trace's file.

ghost use Rattle.std.specs.Prelude.{◌≡◌, ◌⊎◌, ◌++◌, [], Some, IfOk, IfErr, IfSome};
ghost use Rattle.std.specs.Path.{path_bytes};
ghost use Rattle.fl_desk.specs.Kept.{IsKept};
ghost use Rattle.fl_history.specs.Place.{place_of};
ghost use Rattle.lockd_faults.specs.Ending.{Ending, Ends};
ghost use Rattle.lockd_resume.specs.Behind.{ServesBehind, ServesNobodyBehind};
ghost use Rattle.lockd_resume.specs.Inside.{ComesBefore};
ghost use Rattle.lockd_resume.specs.Resumed.{lines_at};

use crate::before::are_enough;
use crate::behind::ResumedRun;
use crate::observer::ResumeObserver;
use crate::other_rules::{head_rules, ready_under};
use crate::point::ResumePoint;
use crate::reading::resumed_from;
use crate::resuming::resume_stream;
use fl_audit::Details;
use fl_core::Rules;
use fl_order::NoMemory;
use fl_stream::StreamRoom;
use lockd_faults::{
    CommandFault, Noting, Status, Untraced, end, end_at, end_unheard, end_unopened,
};
use lockd_streams::{
    FilePieces, OldSocket, OlderPieces, Patient, PieceWriter, Rotation, Spinning, TracePath,
    WhenUnwritten, connection, is_at, is_link, last_piece, next_name,
};
use std::alloc::Global;
use std::fs::{File, TryLockError};
use std::io::{ErrorKind, Write};
use std::path::Path;
use std::{fs, io};

// How a trace begins.
const ASK: &[u8] = b"ask ";

const BEHIND_GAP: &str = "goes on behind a gap: an order that is sent again may be taken twice";

/// How a server goes on in a trace's file.
#[derive(Clone, Copy)]
pub struct Resuming<'a> {
    /// The path of the file.
    pub name: &'a str,
    /// Whether it was made for this server. Then a socket's file at the server's path stays.
    pub is_new: bool,
    /// What happens while a write fails.
    pub when: WhenUnwritten,
    /// When the next piece of the trace begins; never, if that isn't said.
    pub rotation: Option<Rotation>,
    /// Whether it goes on also if pieces before the file that are wanted are missing, or don't fit.
    pub allows_gap: bool,
}

/// `lockd serve --resume`: goes on behind the lines of a trace's file, under these rules, with one worker. It listens
/// as `lockd serve` does. Unless the file is new, a socket where nobody listens is replaced. The file is read from its
/// beginning, and gets what is written behind what it has. If another server has it, it isn't there any more, is no regular
/// file, or can't be locked or cut off, the fault is `Trace`. So it is if it begins with a head, has fewer than 65,536
/// orders and replies, and the pieces before it (`OlderPieces`) have too few, or one that is wanted is missing, isn't
/// legal, or ends elsewhere, unless a gap is allowed: then `notices` gets a line of it. If its head names other rules, the
/// next piece begins at once by these, unless what is there doesn't fit them (`ready_under`).
///
/// What follows the file's last newline is cut off, and the replies that its last order lacks are written to it. Then
/// the lines of each order are written before any of its replies leaves. While a write fails, `when` says what happens,
/// and `notices` gets a line of it. Before a read a new piece may begin (`FilePieces`). If no legal history begins with
/// the file's lines, it stays as it is, `faults` gets `bad line` or `differs` with the line's number, and nobody is
/// served. A text with no newline is a bad line, too, if it isn't cut off within a line of an order: the file may be no
/// trace. A fault of the session is one line on `faults`, and behind it `trace failed` if the file of the last piece
/// lacks lines, or is gone. The observer is told what the server does, and after `cannot listen` and `cannot trace` why
/// it serves nobody.
pub fn resume_on<F: Write, N: Write + Copy + Drop, O: ResumeObserver>(
    rt: &HostRuntime,
    alloc: Global,
    path: Path<'_>,
    rules: Rules,
    file: File,
    how: Resuming<'_>,
    faults: &mut F,
    notices: N,
    observer: &mut O,
) -> Status
    // Some streams, and behind some lines: of the bytes of a socket and of a file contracts see nothing.
    ensures over { let it : Ending = record {
      status = result;
      told = F.contents faults.old;
      told_now = F.contents faults.new;
    } in ServesNobodyBehind it ⊎ ServesBehind rules it }
    ensures unnamed { path_bytes path.entry ≡ [] → ServesNobodyBehind (record {
      status = result;
      told = F.contents faults.old;
      told_now = F.contents faults.new;
    }) }
{
    let mut details = Details::new();
    let Ok(next) = next_name(alloc, how.name) else {
        return end_unresumed(alloc, faults, observer, CommandFault::NoMemory, &details);
    };
    let (name, next) = (how.name, next.as_str());
    let at = TracePath { rt, name, next };
    match ready_under(at, alloc, rules, file, how, notices, &mut details) {
        Ok((file, ready)) => serve_ready(
            at, alloc, path, file, ready, how, faults, notices, observer,
        ),
        Err(Unready::Untraced(why)) => end_unopened(faults, observer, why),
        Err(Unready::Fault(fault)) => end_unresumed(alloc, faults, observer, fault, &details),
    }
}

// Serves the client that connects first, from what is ready, behind the lines of this file.
fn serve_ready<'a, F: Write, N: Write + Copy + Drop, O: ResumeObserver>(
    at: TracePath<'a>,
    alloc: Global,
    path: Path<'_>,
    file: File,
    ready: Ready<FilePieces<'a, N>>,
    how: Resuming<'_>,
    faults: &mut F,
    notices: N,
    observer: &mut O,
) -> Status
    requires recent { ready.point.recent ≡ ready.point.heard.items ++ ready.point.resumed.past.items }
    requires place { ready.point.place ≡ place_of ready.point.resumed.past.items }
    requires kept { IsKept (lines_at ready.point) ready.point.resumed.present }
    requires present { ready.point.resumed.present.rules ≡ ready.point.session.rules }
    ensures over { let it : Ending = record {
      status = result;
      told = F.contents faults.old;
      told_now = F.contents faults.new;
    } in ServesNobodyBehind it ⊎ ServesBehind ready.entry.point.session.rules it }
    ensures unnamed { path_bytes path.entry ≡ [] → ServesNobodyBehind (record {
      status = result;
      told = F.contents faults.old;
      told_now = F.contents faults.new;
    }) }
{
    let Ready {
        point,
        pieces,
        spare,
    } = ready;
    let old = old_socket(how, observer);
    let stream = match connection(at.rt, alloc, path, old, observer) {
        Ok(stream) => stream,
        Err(why) => return end_unheard(faults, observer, why),
    };
    let mut r = Spinning::ticking(&stream, &stream);
    let mut w = Noting::new(Patient::new(&stream, &stream));
    tell_gap(at.name, &point, notices);
    let file = PieceWriter::behind(at, file, point.bytes, how.when, notices);
    let socket = Some(&stream);
    let (status, run) = resume_stream(&mut r, &mut w, point, file, pieces, spare, socket, faults);
    let ResumedRun { file, whole, .. } = run;
    let mut file = file;
    let there = file.is_kept();
    let status = end_at(faults, status, whole, there);
    observer.ended(r.client(), w.failed());
    if !there {
        observer.lost();
    }
    status
}

// Tells that a server goes on from a point though the pieces before it that are wanted aren't there.
fn tell_gap<N: Write + Drop>(name: &str, point: &ResumePoint, mut notices: N) {
    if !are_enough(&point.recent, point.place) {
        let _ = writeln!(notices, "{name} {BEHIND_GAP}");
    }
}

// What becomes of an old socket. The observer is told behind which file the server goes on, unless that is new.
fn old_socket<O: ResumeObserver>(how: Resuming<'_>, observer: &mut O) -> OldSocket {
    if how.is_new {
        return OldSocket::Keep;
    }
    observer.resumed();
    OldSocket::Replace
}

// What a server goes on from, where the next pieces go, and the room for the text of a head.
#[derive(Drop)]
pub(crate) struct Ready<P> {
    pub point: ResumePoint,
    pub pieces: P,
    pub spare: StreamRoom,
}

// Why a server doesn't go on in a trace's file.
#[derive(Drop)]
pub(crate) enum Unready {
    Fault(CommandFault),
    Untraced(Untraced),
}

// Locks the file, reads it, and cuts off what follows its last newline. All memory that a server needs is there then.
pub(crate) fn made_ready<'a, N: Write + Copy + Drop>(
    at: TracePath<'a>,
    alloc: Global,
    rules: Rules,
    file: &mut File,
    how: Resuming<'_>,
    notices: N,
    details: &mut Details,
) -> Result<Ready<FilePieces<'a, N>>, Unready>
    ensures recent { IfOk result (λ ready. ready.point.recent ≡ ready.point.heard.items ++ ready.point.resumed.past.items) }
    ensures place { IfOk result (λ ready. ready.point.place ≡ place_of ready.point.resumed.past.items) }
    ensures kept { IfOk result (λ ready. IsKept (lines_at ready.point) ready.point.resumed.present) }
    ensures present { IfOk result (λ ready. ready.point.resumed.present.rules ≡ ready.point.session.rules) }
    ensures rules { IfOk result (λ ready. ready.point.session.rules ≡ rules) }
    ensures before { IfErr result ComesBefore }
{
    let (point, last) = heard_point(at, alloc, rules, file, how, details)?;
    let rest = details.bad.text();
    if let Some(why) = unbegun(at, how, point.bytes, last, rest) {
        return Err(why);
    }
    let greatest = greatest_number(last, &point);
    let Ok((pieces, spare)) = next_pieces(at, alloc, how, greatest, notices) else {
        return Err(Unready::Fault(CommandFault::NoMemory));
    };
    match cut_off(file, point.bytes, rest) {
        Ok(()) => Ok(Ready {
            point,
            pieces,
            spare,
        }),
        Err(why) => Err(Unready::Untraced(Untraced::Uncut(why))),
    }
}

// What a server goes on from in this file, which it locks and reads, and the greatest number of a piece before it.
fn heard_point(
    at: TracePath<'_>,
    alloc: Global,
    rules: Rules,
    file: &mut File,
    how: Resuming<'_>,
    details: &mut Details,
) -> Result<(ResumePoint, u64), Unready>
    ensures recent { IfOk result (λ it. it.0.recent ≡ it.0.heard.items ++ it.0.resumed.past.items) }
    ensures place { IfOk result (λ it. it.0.place ≡ place_of it.0.resumed.past.items) }
    ensures kept { IfOk result (λ it. IsKept (lines_at it.0) it.0.resumed.present) }
    ensures present { IfOk result (λ it. it.0.resumed.present.rules ≡ it.0.session.rules) }
    ensures rules { IfOk result (λ it. it.0.session.rules ≡ rules) }
    ensures before { IfErr result ComesBefore }
{
    if let Some(why) = untakable(at.rt, file, how) {
        return Err(Unready::Untraced(why));
    }
    let last = last_before(at, file, how)?;
    let Ok(mut before) = OlderPieces::new(at.rt, at.name, last) else {
        return Err(Unready::Fault(CommandFault::NoMemory));
    };
    match resumed_from(alloc, rules, &mut before, file, how.allows_gap, details) {
        Ok(point) => Ok((point, last)),
        Err(CommandFault::Trace) => {
            let number = last.min(before.number.saturating_add(1));
            Err(Unready::Untraced(Untraced::Headed(number)))
        }
        Err(fault) => Err(Unready::Fault(fault)),
    }
}

// Why no server begins with nothing in a file that has so many bytes of whole lines and this rest. Before it this is the
// greatest number of a piece.
fn unbegun(
    at: TracePath<'_>,
    how: Resuming<'_>,
    bytes: u64,
    last: u64,
    rest: &[u8],
) -> Option<Unready>
    ensures { IfSome result ComesBefore }
{
    if bytes > 0 {
        return None;
    }
    if !may_begin_a_trace(rest) {
        return Some(Unready::Fault(CommandFault::BadLine(1)));
    }
    if last > 0 {
        return Some(Unready::Untraced(Untraced::Emptied(last)));
    }
    if !how.is_new && has_next(at) {
        return Some(Unready::Untraced(Untraced::Unfinished));
    }
    None
}

// The greatest number of a piece before this file. If the folder can't be listed, none is known; that is a fault if the
// file has a head, or if pieces come behind it.
fn last_before(at: TracePath<'_>, file: &mut File, how: Resuming<'_>) -> Result<u64, Unready>
    ensures before { IfErr result ComesBefore }
{
    match last_piece(at.rt, at.name, file) {
        Ok(last) => Ok(last),
        Err(_) if how.rotation.is_none() && head_rules(file, false).is_none() => Ok(0),
        Err(why) => Err(unlisted(why)),
    }
}

// Why there is nothing to go on from if the folder, or the file, can't be read for this reason.
fn unlisted(why: io::Error) -> Unready
    ensures { ComesBefore result }
{
    match why.kind() {
        ErrorKind::OutOfMemory => Unready::Fault(CommandFault::NoMemory),
        _ => Unready::Untraced(Untraced::Unlisted(why)),
    }
}

// Where the pieces go that come behind a file, before which this is the greatest number of a piece, and the room for the
// text of a head. If none are asked for, one comes only behind a file that was spoilt.
fn next_pieces<'a, N: Write + Copy + Drop>(
    at: TracePath<'a>,
    alloc: Global,
    how: Resuming<'_>,
    last: u64,
    notices: N,
) -> Result<(FilePieces<'a, N>, StreamRoom), NoMemory> {
    let (bytes, keep) = (u64::MAX, None);
    let rotation = how.rotation.unwrap_or(Rotation { bytes, keep });
    let files = FilePieces::new(at, last, rotation, how.when, notices)?;
    Ok((files, StreamRoom::new(alloc)?))
}

// Why a server can't take a file so, if it can't. It is locked, if it can. The next piece would replace a symbolic link.
fn untakable(rt: &HostRuntime, file: &File, how: Resuming<'_>) -> Option<Untraced> {
    let path = Path::new(how.name);
    match file.try_lock() {
        Err(TryLockError::WouldBlock) => Some(Untraced::Taken),
        Err(TryLockError::Error(why)) => Some(Untraced::Unlocked(why)),
        Ok(()) if !is_at(rt, path, file) => Some(Untraced::Gone),
        Ok(()) if !is_regular(file) => Some(Untraced::Irregular),
        Ok(()) if how.rotation.is_some() && is_link(rt, path) => Some(Untraced::Irregular),
        Ok(()) => None,
    }
}

// The greatest number that counts as a piece's: behind a gap one is left out, so that pieces with numbers in a row are one
// history.
fn greatest_number(last: u64, point: &ResumePoint) -> u64 {
    let is_gap = !are_enough(&point.recent, point.place);
    last.saturating_add(u64::from(is_gap))
}

// Whether FILE.new is there, and has something in it: a copy of the file, or a piece, that a killed server left.
fn has_next(at: TracePath<'_>) -> bool {
    match fs::metadata(at.rt, Path::new(at.next)) {
        Ok(found) => found.len() > 0,
        Err(_) => false,
    }
}

// Whether it is a regular file. It isn't, if the system doesn't tell.
fn is_regular(file: &File) -> bool {
    match file.metadata() {
        Ok(found) => found.is_file(),
        Err(_) => false,
    }
}

// Ends a server that doesn't go on from its file: tells why, and the observer more of it.
fn end_unresumed<F: Write, O: ResumeObserver>(
    alloc: Global,
    faults: &mut F,
    observer: &mut O,
    fault: CommandFault,
    details: &Details,
) -> Status
    ensures { Ends (Some fault) (record {
      status = result;
      told = F.contents faults.old;
      told_now = F.contents faults.new;
    }) }
{
    let status = end(faults, Err(fault));
    observer.unresumed(alloc, status, details);
    status
}

// Whether a text, or this front of it, may be that of a trace which is cut off within its first line.
fn may_begin_a_trace(text: &[u8]) -> bool {
    text.starts_with(ASK) || ASK.starts_with(text)
}

// Cuts a file off behind so many bytes, if there is a rest. So one that may only grow is taken, if its lines are whole.
fn cut_off(file: &File, bytes: u64, rest: &[u8]) -> io::Result<()> {
    if rest.is_empty() {
        return Ok(());
    }
    file.set_len(bytes)
}
