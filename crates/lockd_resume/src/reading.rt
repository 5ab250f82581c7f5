//! What a server goes on from: a trace's file is read, and pieces before it that are wanted.

ghost use Rattle.std.specs.Prelude.{◌≡◌, ◌⊎◌, ◌++◌, true, IfErr, IfOk};
ghost use Rattle.fl_audit.specs.First.{AreWholeLines, IsSoOfAll};
ghost use Rattle.fl_desk.specs.Kept.{IsKept};
ghost use Rattle.fl_history.specs.Place.{place_of};
ghost use Rattle.fl_judge.specs.Present.{HasPresent, told_lines};
ghost use Rattle.lockd_resume.specs.Behind.{FileSays};
ghost use Rattle.lockd_resume.specs.Heard.{AreEnough, IsHeardBefore};
ghost use Rattle.lockd_resume.specs.Inside.{DiffersBy, told_of_reading};
ghost use Rattle.lockd_resume.specs.Resumed.{lines_at};

use crate::before::{LastLines, PiecesBefore, with_before};
use crate::point::ResumePoint;
use fl_audit::{AuditFault, Details, Heard, hear_cut};
use fl_core::Rules;
use fl_history::Place;
use fl_judge::laws::a_legal_history_has_a_present;
use fl_judge::{Judge, Resumed, Verdict};
use fl_order::NoMemory;
use fl_session::SessionRoom;
use fl_stream::StreamRoom;
use lockd_faults::CommandFault;
use std::alloc::Global;
use std::io::Read;

/// What a server goes on from behind the lines of a trace's file, under these rules: all its lines, up to the last
/// newline. If they begin with a head, and aren't enough to know messages that are sent again, it reads pieces before,
/// too, each by its own rules, until they are enough. If they never are, or one isn't legal or doesn't fit, the fault is
/// `Trace`, unless a gap is allowed: then it goes on with what was heard. It is `Trace`, too, if one ends behind the place
/// where the lines begin: then these aren't the last. What is told of the file's lines goes to `details`. All memory that
/// the session needs is made before the file is read.
pub fn resumed_from<S: Read, P: PiecesBefore>(
    alloc: Global,
    rules: Rules,
    before: &mut P,
    file: &mut S,
    allows_gap: bool,
    details: &mut Details,
) -> Result<ResumePoint, CommandFault>
    ensures lines { IfOk result (λ point. IsSoOfAll (S.remaining file.old)
        (λ text. AreWholeLines text point.resumed.past.items point.bytes)) }
    ensures recent { IfOk result (λ point. point.recent ≡ point.heard.items ++ point.resumed.past.items) }
    ensures heard { IfOk result (λ point.
        IsHeardBefore rules (P.left before.old) point.resumed.past.items point.heard.items) }
    ensures enough { IfOk result (λ point. (allows_gap ≡ true) ⊎ AreEnough point.place point.recent) }
    ensures place { IfOk result (λ point. point.place ≡ place_of point.resumed.past.items) }
    ensures kept { IfOk result (λ point. IsKept (lines_at point) point.resumed.present) }
    ensures present { IfOk result (λ point. point.resumed.present.rules ≡ point.session.rules) }
    ensures rules { IfOk result (λ point. point.session.rules ≡ rules) }
    ensures error { IfErr result (λ fault.
        IsSoOfAll (S.remaining file.old) (λ text. FileSays rules (P.left before.old) text fault)) }
{
    let Ok((session, stream)) = rooms(alloc, rules) else {
        return Err(CommandFault::NoMemory);
    };
    let heard = heard_lines(alloc, rules, before, file, allows_gap, details)?;
    let HeardLines {
        resumed,
        last,
        since,
        place,
        bytes,
    } = heard;
    let LastLines { past, recent, .. } = last;
    Ok(ResumePoint {
        resumed,
        heard: past,
        recent,
        since,
        place,
        bytes,
        session,
        stream,
    })
}

// The memory of a session under these rules, and for the text of its lines.
fn rooms(alloc: Global, rules: Rules) -> Result<(SessionRoom, StreamRoom), NoMemory>
    ensures { IfOk result (λ made. made.0.rules ≡ rules) }
{
    Ok((SessionRoom::new(alloc, rules)?, StreamRoom::new(alloc)?))
}

// What the lines of a trace's file lead to, which end at this place, and the last of them and of those before.
#[derive(Drop)]
struct HeardLines {
    resumed: Resumed,
    last: LastLines,
    since: u64,
    place: Place,
    bytes: u64,
}

// The same as `resumed_from`, but for the session's memory, which each way out of here would have to drop.
fn heard_lines<S: Read, P: PiecesBefore>(
    alloc: Global,
    rules: Rules,
    before: &mut P,
    file: &mut S,
    allows_gap: bool,
    details: &mut Details,
) -> Result<HeardLines, CommandFault>
    ensures lines { IfOk result (λ it. IsSoOfAll (S.remaining file.old)
        (λ text. AreWholeLines text it.resumed.past.items it.bytes)) }
    ensures recent { IfOk result (λ it. it.last.recent ≡ it.last.past.items ++ it.resumed.past.items) }
    ensures heard { IfOk result (λ it.
        IsHeardBefore rules (P.left before.old) it.resumed.past.items it.last.past.items) }
    ensures enough { IfOk result (λ it. (allows_gap ≡ true) ⊎ AreEnough it.place it.last.recent) }
    ensures place { IfOk result (λ it. it.place ≡ place_of it.resumed.past.items) }
    ensures kept { IfOk result (λ it.
        IsKept (it.resumed.past.items ++ told_lines it.resumed.missing) it.resumed.present) }
    ensures rules { IfOk result (λ it. it.resumed.present.rules ≡ rules) }
    ensures error { IfErr result (λ fault.
        IsSoOfAll (S.remaining file.old) (λ text. FileSays rules (P.left before.old) text fault)) }
{
    let heard = match hear_cut(alloc, rules, file, details) {
        Ok(heard) => heard,
        Err(fault) => return Err(told(fault)),
    };
    let Heard {
        judge,
        bytes,
        recent,
    } = heard;
    let place = judge.place();
    let since = recent.kept() as u64;
    let resumed = match gone_on(judge) {
        Ok(resumed) => resumed,
        Err(fault) => return Err(fault),
    };
    let last = match with_before(alloc, rules, before, recent, place, allows_gap) {
        Ok(last) => last,
        Err(fault) => return Err(fault),
    };
    Ok(HeardLines {
        resumed,
        last,
        since,
        place,
        bytes,
    })
}

// What a server goes on from behind the lines that a judge heard, or which of them differs.
fn gone_on(judge: Judge) -> Result<Resumed, CommandFault>
    ensures past { IfOk result (λ r. r.past.items ≡ judge.lines) }
    ensures kept { IfOk result (λ r. IsKept (judge.lines ++ told_lines r.missing) r.present) }
    ensures rules { IfOk result (λ r. r.present.rules ≡ judge.rules) }
    ensures error { IfErr result (λ fault. DiffersBy judge.rules judge.lines fault) }
{
    if judge.present().is_none() {
        return Err(difference(&judge));
    }
    match judge.into_resumed() {
        Some(resumed) => Ok(resumed),
        None => unreachable!(),
    }
}

// Where the lines differ that begin no legal history.
fn difference(judge: &Judge) -> CommandFault
    requires none { HasPresent judge.now.rules judge.now.lines → ⊥ }
    ensures { DiffersBy judge.now.rules judge.now.lines result }
{
    a_legal_history_has_a_present();
    match judge.verdict() {
        Verdict::Legal => unreachable!(),
        Verdict::Differs(n) => CommandFault::Differs(n),
    }
}

// The fault of a reading, as the server tells it.
fn told(fault: AuditFault) -> CommandFault
    ensures { result ≡ told_of_reading fault }
{
    match fault {
        AuditFault::BadLine(n) => CommandFault::BadLine(n),
        AuditFault::NoMemory => CommandFault::NoMemory,
        AuditFault::Read => CommandFault::Read,
    }
}
