//! The last lines before a piece in which a server goes on.

ghost use Rattle.std.specs.Prelude.{◌≡◌, ◌⊎◌, ◌↔◌, ◌+◌, ◌++◌, ◌<◌, ℕ, List, Option, IfErr, IfOk, IfSome, IsTrue, Ok};
ghost use Rattle.std.specs.Prelude.{false, length, option_map, true};
ghost use Rattle.fl_desk.specs.Legal.{IsLegal};
ghost use Rattle.fl_history.specs.Place.{place_of};
ghost use Rattle.fl_history.specs.Recent.{spoken};
ghost use Rattle.lockd_faults.specs.declared.fault.CommandFault.{CommandFault};
ghost use Rattle.lockd_resume.specs.Heard.{AreEnough, IsHeardBefore, IsNearest, LacksBefore, Text};
ghost use Rattle.lockd_resume.specs.Inside.{IsHeardPiece, StandsBefore};

use fl_audit::{AuditFault, Details, Heard, hear_cut, read_opening};
use fl_core::Rules;
use fl_history::{Line, Past, Place, Recent};
use fl_judge::{Judge, Verdict};
use fl_order::NoMemory;
use fl_trace::LINE_ROOM;
use lockd_faults::CommandFault;
use lockd_streams::OlderPieces;
use std::alloc::Global;
use std::fs::File;
use std::io::Read;

/// The pieces that stand before one, which are opened from the last to the first, and only while they are wanted.
pub trait PiecesBefore {
    /// What reads a piece.
    type Piece: Read + Drop;

    ghost left: { Self → Option (List Text) };

    ghost count: { Self → ℕ };

    /// The last piece that wasn't opened yet. None, if it isn't there, or can't be opened.
    fn next(&mut self) -> Option<Self::Piece>
        ensures nearest { IsNearest (left self.old) (option_map Self.Piece.remaining result) (left self.new) }
        ensures fewer { IfSome result (λ _. count self.new < count self.old) };
}

impl PiecesBefore for OlderPieces<'_> {
    type Piece = File;

    ghost use Rattle.std.specs.Prelude.{None};

    ghost left = { λ _. None };

    ghost count = { λ it. it.number };

    fn next(&mut self) -> Option<File> {
        self.open_next()
    }
}

/// The lines of pieces, the last of them, and the rules of the first piece.
#[derive(Drop)]
pub(crate) struct LastLines {
    pub rules: Rules,
    pub past: Past<Line>,
    pub recent: Recent,
}

/// What stands before the lines of a piece of these rules, which end at this place: the lines of as many pieces as are
/// wanted to know messages that are sent again; none, if those of this piece are enough. The last lines are those with
/// these behind them. They aren't enough, if the next piece is missing, isn't legal under its rules, or ends elsewhere
/// than those behind it begin: then the fault is `Trace`, unless a gap is allowed. A piece that ends further on is none:
/// behind it these lines aren't the last.
pub(crate) fn with_before<P: PiecesBefore>(
    alloc: Global,
    rules: Rules,
    before: &mut P,
    here: Recent,
    place: Place,
    allows_gap: bool,
) -> Result<LastLines, CommandFault>
    requires place { place ≡ place_of here }
    ensures recent { IfOk result (λ all. all.recent ≡ all.past.items ++ here) }
    ensures heard { IfOk result (λ all. IsHeardBefore rules (P.left before.old) here all.past.items) }
    ensures enough { IfOk result (λ all. (allows_gap ≡ true) ⊎ AreEnough place all.recent) }
    ensures fault { IfErr result (λ fault. (fault ≡ CommandFault.NoMemory)
        ⊎ ((fault ≡ CommandFault.Trace) × LacksBefore rules (P.left before.old) here)) }
{
    let mut last = LastLines {
        rules,
        past: Past::new(),
        recent: here,
    };
    'pieces: while !are_enough(&last.recent, place) {
        let Some(piece) = before.next() else {
            return with_gap(last, allows_gap);
        };
        match add_piece(alloc, piece, &mut last, place) {
            Ok(Fit::Before) => {}
            Ok(Fit::Apart) => return with_gap(last, allows_gap),
            Ok(Fit::Later) => return Err(CommandFault::Trace),
            Err(NoMemory) => return Err(CommandFault::NoMemory),
        }
    }
    Ok(last)
}

// The last lines, if a gap before them is allowed.
fn with_gap(last: LastLines, allows_gap: bool) -> Result<LastLines, CommandFault>
    ensures same { IfOk result (λ it. (it ≡ last) × (allows_gap ≡ true)) }
    ensures fault { IfErr result (λ fault. (fault ≡ CommandFault.Trace) × (allows_gap ≡ false)) }
{
    if allows_gap {
        Ok(last)
    } else {
        Err(CommandFault::Trace)
    }
}

/// Whether these lines up to this place are enough to know messages that are sent again.
pub(crate) fn are_enough(recent: &Recent, place: Place) -> bool
    ensures { IsTrue result ↔ AreEnough place recent.now }
{
    let kept = recent.kept() as u64;
    kept >= MOST_KEPT || place.lines == kept
}

// So many orders and replies are known of those of messages that are sent again.
const MOST_KEPT: u64 = 65_536;

// How a piece stands to lines behind it.
enum Fit {
    // They go on from its end.
    Before,
    // They begin further on, or it can't be read or isn't legal.
    Apart,
    // It ends behind the place where they begin.
    Later,
}

// The lines of one more piece get these behind them, which end at this place, if it stands before them: it is legal by
// the rules that its head names, or else by those of the piece behind it, and ends where these begin.
fn add_piece<B: Read + Drop>(
    alloc: Global,
    piece: B,
    last: &mut LastLines,
    place: Place,
) -> Result<Fit, NoMemory>
    requires { length (spoken last.old.recent) < 65536 }
    ensures added { result ≡ Ok Fit.Before → StandsBefore (B.remaining piece) place last.old last.new }
    ensures apart { result ≡ Ok Fit.Apart → last.new ≡ last.old }
{
    let heard = match heard_piece(alloc, piece, last.rules) {
        Ok(heard) => heard,
        Err(AuditFault::NoMemory) => return Err(NoMemory),
        Err(AuditFault::BadLine(_) | AuditFault::Read) => return Ok(Fit::Apart),
    };
    let (rules, heard) = heard;
    let Heard {
        judge,
        mut recent,
        ..
    } = heard;
    if !ends_before(&judge, &last.recent, place) {
        if ends_later(&judge, &last.recent, place) {
            return Ok(Fit::Later);
        }
        return Ok(Fit::Apart);
    }
    let Some(resumed) = judge.into_resumed() else {
        return Ok(Fit::Apart);
    };
    recent.extend(&last.recent);
    let past = resumed.past.followed_by(&last.past);
    *last = LastLines {
        rules,
        past,
        recent,
    };
    Ok(Fit::Before)
}

// The rules of a piece, which are those that its head names, or else those of the piece behind it, and a judge by these
// that heard its lines.
fn heard_piece<B: Read + Drop>(
    alloc: Global,
    piece: B,
    behind: Rules,
) -> Result<(Rules, Heard), AuditFault>
    ensures { IfOk result (IsHeardPiece (B.remaining piece) behind) }
{
    let mut piece = piece;
    let mut room = [0; LINE_ROOM];
    let Ok(opening) = read_opening(&mut piece, &mut room) else {
        return Err(AuditFault::Read);
    };
    let rules = opening.rules.unwrap_or(behind);
    let mut text = room[..opening.bytes].chain(piece);
    let mut details = Details::new();
    match hear_cut(alloc, rules, &mut text, &mut details) {
        Ok(heard) => Ok((rules, heard)),
        Err(fault) => Err(fault),
    }
}

// Whether a judge's lines are legal, and end where these begin, which end at this place.
fn ends_before(judge: &Judge, here: &Recent, place: Place) -> bool
    requires { length (spoken here.now) < 65536 }
    ensures legal { IsTrue result → IsLegal judge.now.rules judge.now.lines }
    ensures meets { IsTrue result → (place_of judge.now.lines).lines + length (spoken here.now) ≡ place.lines }
{
    let own = here.kept() as u64;
    judge.verdict() == Verdict::Legal && place.lines.checked_sub(own) == Some(judge.place().lines)
}

// Whether a judge's lines are legal, and end behind the place where these begin, which end at this place.
fn ends_later(judge: &Judge, here: &Recent, place: Place) -> bool {
    let begin = place.lines.saturating_sub(here.kept() as u64);
    judge.verdict() == Verdict::Legal && judge.place().lines > begin
}
