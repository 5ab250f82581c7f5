//! A trace that goes on by other rules than before: its next piece tells what is there by these.

ghost use Rattle.std.specs.Prelude.{◌≡◌, ◌++◌, IfErr, IfOk, None, Ok};
ghost use Rattle.fl_desk.specs.Kept.{IsKept};
ghost use Rattle.fl_history.specs.Place.{place_of};
ghost use Rattle.fl_stream.specs.Streams.{IsAs};
ghost use Rattle.fl_trace.specs.Text.{text_of};
ghost use Rattle.lockd_resume.specs.Inside.{ComesBefore, TellsSame};
ghost use Rattle.lockd_resume.specs.Resumed.{lines_at};

use crate::point::ResumePoint;
use crate::resume_file::{Ready, Resuming, Unready, made_ready};
use fl_audit::{Details, read_opening};
use fl_core::{Core, Rules};
use fl_desk::{ToldHead, head_of};
use fl_history::{Journal, Line, Past};
use fl_judge::{Judge, Resumed};
use fl_order::{Head, NoMemory, StateLine, StatePart};
use fl_state::have_same;
use fl_stream::{AheadLines, Pieces, StreamRoom};
use fl_trace::LINE_ROOM;
use lockd_faults::{CommandFault, Misfit, Untraced};
use lockd_streams::{FilePieces, PieceWriter, Rotation, TracePath, file_to_go_on_in};
use std::alloc::Global;
use std::fs::File;
use std::io::{Seek, SeekFrom, Write};

// No head has so many parts.
const MOST_PARTS: usize = 1 << 40;

/// The rules that the head of a trace's file names, if it has one that can be read, for a session that is whole or not,
/// which no head says. The file is read from its beginning then. Of a file's bytes contracts see nothing;
/// `read_opening` says which rules a text names.
pub fn head_rules(file: &mut File, whole: bool) -> Option<Rules> {
    match file.metadata() {
        Ok(found) if found.is_file() => {}
        _ => return None,
    }
    let mut room = [0; LINE_ROOM];
    let opening = read_opening(file, &mut room).ok();
    file.seek(SeekFrom::Start(0)).ok()?;
    Some(opening?.rules?.with_whole(whole))
}

/// What a server goes on from by these rules, and in which file: this one, or, if its head names others (it never says
/// whether a session is whole), that of the next piece, which tells what is there by these. What is there has to fit.
pub(crate) fn ready_under<'a, N: Write + Copy + Drop>(
    at: TracePath<'a>,
    alloc: Global,
    rules: Rules,
    mut file: File,
    how: Resuming<'_>,
    notices: N,
    details: &mut Details,
) -> Result<(File, Ready<FilePieces<'a, N>>), Unready>
    ensures recent { IfOk result (λ it. it.1.point.recent ≡ it.1.point.heard.items ++ it.1.point.resumed.past.items) }
    ensures place { IfOk result (λ it. it.1.point.place ≡ place_of it.1.point.resumed.past.items) }
    ensures kept { IfOk result (λ it. IsKept (lines_at it.1.point) it.1.point.resumed.present) }
    ensures present { IfOk result (λ it. it.1.point.resumed.present.rules ≡ it.1.point.session.rules) }
    ensures rules { IfOk result (λ it. it.1.point.session.rules ≡ rules) }
    ensures before { IfErr result ComesBefore }
{
    let named = head_rules(&mut file, rules.whole).unwrap_or(rules);
    if named != rules {
        begin_under(at, alloc, named, rules, file, how, notices, details)?;
        file = match file_to_go_on_in(at.rt, at.name) {
            Ok(file) => file,
            Err(why) => return Err(Unready::Untraced(Untraced::Unopened(why))),
        };
    }
    let ready = made_ready(at, alloc, rules, &mut file, how, notices, details)?;
    Ok((file, ready))
}

// Begins the next piece by these rules, behind a file whose head names others. All pieces stay, since the next server
// wants those before if this one is short. Before a later turn takes one away, a newer one has 65,536 orders and
// replies: so it isn't wanted any more.
fn begin_under<N: Write + Copy + Drop>(
    at: TracePath<'_>,
    alloc: Global,
    named: Rules,
    rules: Rules,
    mut file: File,
    how: Resuming<'_>,
    notices: N,
    details: &mut Details,
) -> Result<(), Unready>
    ensures before { IfErr result ComesBefore }
{
    let (bytes, keep) = (u64::MAX, None);
    let rotation = Some(Rotation { bytes, keep });
    let how = Resuming { rotation, ..how };
    let ready = made_ready(at, alloc, named, &mut file, how, notices, details)?;
    let Ready {
        point,
        pieces,
        spare,
    } = ready;
    let told = told_under(alloc, rules, &point)?;
    let here = PieceWriter::behind(at, file, point.bytes, how.when, notices);
    match complete(point, here) {
        Some(here) => turn_to(pieces, spare, &here, &told),
        None => Err(Unready::Untraced(Untraced::Unturned)),
    }
}

// The head that tells by these rules what is there at a point, if it fits them.
fn told_under(alloc: Global, rules: Rules, point: &ResumePoint) -> Result<ToldHead, Unready>
    requires kept { IsKept (lines_at point.now) point.now.resumed.present }
    requires place { point.now.place ≡ place_of point.now.resumed.past.items }
    ensures told { IfOk result (λ it. TellsSame rules point.now.resumed.present it.head it.parts.items) }
    ensures lines { IfOk result (λ it. it.head.lines ≡ (place_of (lines_at point.now)).lines) }
    ensures before { IfErr result ComesBefore }
{
    let missing = point.resumed.missing.as_slice().len() as u64;
    let lines = point.place.lines.saturating_add(missing);
    let Ok(told) = head_of(alloc, &point.resumed.present, lines) else {
        return Err(Unready::Fault(CommandFault::NoMemory));
    };
    let ToldHead { head, parts } = told;
    let head = Head {
        fair: rules.fair,
        runs: rules.runs,
        parked: rules.parked,
        files: rules.files,
        open_files: rules.open_files,
        ..head
    };
    if rules.fair && !point.session.rules.fair && has_wait(parts.as_slice()) {
        return Err(Unready::Untraced(Untraced::Misfit(Misfit::Parked)));
    }
    let present = &point.resumed.present;
    match first_misfit(alloc, rules, present, &head, parts.as_slice()) {
        Ok(None) => Ok(ToldHead { head, parts }),
        Ok(Some(misfit)) => Err(Unready::Untraced(Untraced::Misfit(misfit))),
        Err(NoMemory) => Err(Unready::Fault(CommandFault::NoMemory)),
    }
}

// The first part of a head that doesn't fit these rules; none, if all do, and it tells by them what is there.
fn first_misfit(
    alloc: Global,
    rules: Rules,
    present: &Core,
    head: &Head,
    parts: &[StatePart],
) -> Result<Option<Misfit>, NoMemory>
    ensures { result ≡ Ok None → TellsSame rules present.now head.now parts.now }
{
    if parts.len() >= MOST_PARTS {
        return Err(NoMemory);
    }
    let mut judge = Judge::new(alloc, rules)?;
    judge.hear(&Line::State(StateLine::Head(*head)));
    for part in parts {
        judge.hear(&Line::State(StateLine::Part(*part)));
        if !judge.begins() {
            return Ok(Some(misfit_of(part)));
        }
    }
    judge.hear(&Line::State(StateLine::Go));
    match judge.told() {
        Some(told) if have_same(present, told) => Ok(None),
        _ => Ok(Some(Misfit::Parked)),
    }
}

// Whether a request waits. By fair rules owners who wait so may wait in a circle, which nobody asked about.
fn has_wait(parts: &[StatePart]) -> bool {
    parts
        .iter()
        .any(|part| matches!(part, StatePart::Wait { .. }))
}

// What doesn't fit, if this part doesn't.
fn misfit_of(part: &StatePart) -> Misfit {
    match part {
        StatePart::Node { .. } => Misfit::Files,
        StatePart::File { .. } => Misfit::OpenFiles,
        StatePart::Lock { .. } => Misfit::Runs,
        StatePart::Wait { .. } => Misfit::Parked,
    }
}

// Writes the replies that the last order of a file lacks. If it could, the file comes back.
fn complete<T: Write + Drop>(point: ResumePoint, file: T) -> Option<T>
    requires { IsAs (T.contents file) (text_of point.resumed.past.items) }
{
    let ResumePoint {
        resumed,
        stream,
        ..
    } = point;
    let Resumed { missing, past, .. } = resumed;
    let mut here = AheadLines::behind(stream, file, &past);
    for told in missing.as_slice() {
        if here.reserve(1).is_err() {
            return None;
        }
        here.push_told(told);
    }
    let written = here.finish();
    let (file, _) = here.into_parts();
    written.then_some(file)
}

// Begins the next piece by this head, behind the one that goes to this writer.
fn turn_to<T: Write + Drop, P: Pieces<T> + Drop>(
    mut pieces: P,
    spare: StreamRoom,
    here: &T,
    told: &ToldHead,
) -> Result<(), Unready>
    ensures before { IfErr result ComesBefore }
{
    let Some(writer) = pieces.begin(here, false) else {
        return Err(Unready::Untraced(Untraced::Unturned));
    };
    let mut draft = AheadLines::behind(spare, writer, &Past::new());
    let whole = add_head(&mut draft, told) && draft.finish();
    let (mut writer, _) = draft.into_parts();
    if whole && pieces.end(&mut writer) {
        return Ok(());
    }
    pieces.give_up();
    Err(Unready::Untraced(Untraced::Unturned))
}

// Adds the lines of a head, and says whether there was room for all.
fn add_head<T: Write>(draft: &mut AheadLines<T>, told: &ToldHead) -> bool {
    let mut whole = draft.add_state(&StateLine::Head(told.head));
    for part in told.parts.as_slice() {
        whole = whole && draft.add_state(&StateLine::Part(*part));
    }
    whole && draft.add_state(&StateLine::Go)
}
