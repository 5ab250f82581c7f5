//! Reads the pieces of a history, one after another, and says whether each goes on from the one before.

ghost use Rattle.std.specs.Prelude.{◌≡◌, ℕ, [], Err, IfOk, option_map};
ghost use Rattle.fl_audit.specs.First.{IsSoOfAll};
ghost use Rattle.fl_audit.specs.Inside.Keeping.{along};
ghost use Rattle.fl_audit.specs.Inside.Rowing.{IsBreak, IsEnd, IsOutcome, IsTextOutcome};
ghost use Rattle.fl_audit.specs.Inside.Seams.{end_seen, IsBeside};
ghost use Rattle.fl_audit.specs.Rows.{left_of, rules_of, IsBadRow, IsRowFinding, IsSoOfTexts};
ghost use Rattle.fl_desk.specs.Legal.{IsLegal};
ghost use Rattle.fl_trace.specs.Text.{BreaksAt, LineFits};

use crate::beside::Beside;
use crate::details::Details;
use crate::finding::AuditFault;
use crate::reading::hear_all;
use crate::seam::{PieceEnd, first_difference};
use fl_core::Rules;
use fl_judge::laws::a_legal_history_has_a_present;
use fl_judge::{Judge, Resumed};
use std::alloc::Global;
use std::io::Read;

/// A reader of a piece, and the rules that the piece is judged by.
#[derive(Drop)]
pub struct PieceReader<R> {
    /// The rules.
    pub rules: Rules,
    /// The reader.
    pub input: R,
}

/// What is said of the pieces of a history.
#[derive(Clone, Copy, Debug, PartialEq, Eq)]
pub enum RowFinding {
    /// They are in a row, and a single thread could have produced each from what was there after the one before, under
    /// the rules that it is judged by.
    Legal,
    /// They aren't: this line of this piece is the first that breaks the rules, or doesn't go on from the piece before.
    Differs(PieceLine),
}

/// A line of a piece.
#[derive(Clone, Copy, Debug, PartialEq, Eq)]
pub struct PieceLine {
    /// The number of the piece, from 1.
    pub piece: usize,
    /// The number of the line in it, from 1.
    pub line: usize,
}

/// Why an audit of pieces gave up.
#[derive(Clone, Copy, Debug, PartialEq, Eq)]
pub struct RowFault {
    /// The number of the piece, from 1, that it was reading.
    pub piece: usize,
    /// Why it gave up.
    pub fault: AuditFault,
}

// What comes of a piece: its end, or the number of the first line that breaks it.
#[derive(Drop)]
pub(crate) enum Outcome {
    Ends(PieceEnd),
    Breaks(usize),
}

/// Reads the pieces of a history to their ends, one after another, and says whether they are in a row: each is legal
/// under its rules, and each but the first begins with a head that tells exactly what is there after the one before. If
/// the rules change, all that is there is the same, and fits the new ones. What stands behind a line that breaks this
/// isn't judged, and pieces behind that one aren't read. It takes memory for two directories, and that of `audit`,
/// however many pieces there are and however long they are.
///
/// Reading fails as that of `audit` does, and `details` gets what it gets there, of the last piece that was read. If that
/// doesn't go on from the one before, they have no difference.
pub fn audit_row<R: Read>(
    alloc: Global,
    pieces: &mut [PieceReader<R>],
    details: &mut Details,
) -> Result<RowFinding, RowFault>
    ensures found { IfOk result (λ finding. IsSoOfTexts (left_of R.remaining pieces.old)
        (λ texts. IsRowFinding (rules_of pieces.old) texts finding)) }
    ensures bad { (piece line : ℕ) → result ≡ Err (record { piece = piece; fault = AuditFault.BadLine line }) →
        IsSoOfTexts (left_of R.remaining pieces.old) (λ texts. IsBadRow (rules_of pieces.old) texts piece line) }
    ensures rules { rules_of pieces.new ≡ rules_of pieces.old }
{
    let mut before = None;
    for at in 0..pieces.len() {
        let piece = at + 1;
        match hear_piece(alloc, before, &mut pieces[at], details) {
            Ok(Outcome::Ends(end)) => before = Some(end),
            Ok(Outcome::Breaks(line)) => {
                details.keep_difference_at(line);
                return Ok(RowFinding::Differs(PieceLine { piece, line }));
            }
            Err(fault) => return Err(RowFault { piece, fault }),
        }
    }
    Ok(RowFinding::Legal)
}

// Reads a piece to its end. It has to go on from an end, if there is one.
fn hear_piece<R: Read>(
    alloc: Global,
    before: Option<PieceEnd>,
    piece: &mut PieceReader<R>,
    details: &mut Details,
) -> Result<Outcome, AuditFault>
    ensures said { IfOk result (λ outcome. IsSoOfAll (R.remaining piece.old.input)
        (λ text. IsTextOutcome piece.old.rules (option_map end_seen before) text outcome)) }
    ensures bad { (n : ℕ) → result ≡ Err (AuditFault.BadLine n) →
        IsSoOfAll (R.remaining piece.old.input) (λ text. BreaksAt LineFits text n) }
    ensures rules { piece.new.rules ≡ piece.old.rules }
{
    let rules = piece.rules;
    let beside = Beside::behind(before);
    match hear_all(alloc, rules, None, false, beside, &mut piece.input, details) {
        Ok(heard) => {
            let (judge, beside) = heard.judge.into_parts();
            Ok(outcome_of(judge, &beside))
        }
        Err(fault) => Err(fault),
    }
}

// What comes of a piece whose lines a judge heard.
fn outcome_of(judge: Judge, beside: &Beside) -> Outcome
    requires { IsBeside judge.rules judge.lines beside.now }
    ensures { IsOutcome judge.rules (along beside.now).end judge.lines result }
{
    match first_break(&judge, beside) {
        Some(line) => Outcome::Breaks(line),
        None => Outcome::Ends(end_of(judge)),
    }
}

// The first of a judge's lines that breaks the rules, or doesn't go on from the end that they have to go on from.
fn first_break(judge: &Judge, beside: &Beside) -> Option<usize>
    requires { IsBeside judge.now.rules judge.now.lines beside.now }
    ensures { IsBreak judge.now.rules (along beside.now).end judge.now.lines result }
{
    match &beside.seam {
        Some(seam) => seam.first_break(judge),
        None => first_difference(judge),
    }
}

// The end of a legal piece.
fn end_of(judge: Judge) -> PieceEnd
    requires { IsLegal judge.rules judge.lines }
    ensures { IsEnd judge.rules judge.lines result }
{
    a_legal_history_has_a_present();
    let lines = judge.place().lines;
    let Some(resumed) = judge.into_resumed() else {
        unreachable!()
    };
    let Resumed { present, .. } = resumed;
    PieceEnd { present, lines }
}
