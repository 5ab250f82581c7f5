//! The end of a piece of a history, from which the next piece has to go on.

ghost use Rattle.std.specs.Prelude.{◌≡◌, ◌↔◌, ◌++◌, ◌∷◌, [], true, List, Some, None};
ghost use Rattle.fl_audit.specs.Inside.Rowing.{IsBreak};
ghost use Rattle.fl_audit.specs.Inside.Seams.{end_seen, GoesOrStops, IsFollowed, IsGoing, IsSeam};
ghost use Rattle.fl_audit.specs.Pieces.{BeginsAt};
ghost use Rattle.fl_history.specs.declared.history.Line.{Line as Heard};

use fl_core::Core;
use fl_desk::laws::a_legal_history_goes_on_by_orders;
use fl_history::Line;
use fl_judge::{Judge, Verdict};
use fl_order::{Head, StateLine};
use fl_state::have_same;

/// The end of a piece: what is there, and how many orders and replies there are up to it.
#[derive(Drop)]
pub(crate) struct PieceEnd {
    pub present: Core,
    pub lines: u64,
}

impl PieceEnd {
    // Whether the first line of a piece begins a head that names this number of lines, and the numbers that come next.
    fn begins(&self, line: &Line) -> bool
        ensures { (result ≡ true) ↔ BeginsAt (end_seen self.now) (line.now ∷ []) }
    {
        match line {
            Line::State(StateLine::Head(head)) => self.is_named_by(head),
            _ => false,
        }
    }

    // Whether a head names this number of lines, and the numbers that come next.
    fn is_named_by(&self, head: &Head) -> bool
        ensures { (result ≡ true) ↔ ((head.now.lines ≡ self.now.lines)
            × (head.now.node ≡ self.now.present.view.directory.next_node)
            × (head.now.fh ≡ self.now.present.view.directory.next_fh)) }
    {
        let directory = self.present.arenas().directory;
        head.lines == self.lines && head.node == directory.next_node && head.fh == directory.next_fh
    }
}

/// The end of a piece, and the number of the first line of the next one that doesn't go on from there.
#[derive(Drop)]
pub(crate) struct Seam {
    pub end: PieceEnd,
    pub breaks: Option<usize>,
}

impl Seam {
    /// A judge heard one line more of the next piece, this one.
    pub(crate) fn follow(&mut self, judge: &Judge, line: &Line)
        ensures end { end_seen self.new.end ≡ end_seen self.old.end }
        ensures followed { (lines : List Heard) → judge.now.lines ≡ lines ++ line.now ∷ [] →
            IsFollowed judge.now.rules (end_seen self.old.end) lines self.old.breaks →
            IsFollowed judge.now.rules (end_seen self.new.end) judge.now.lines self.new.breaks }
    {
        match self.breaks {
            Some(_) => {}
            None => self.breaks = self.break_at(judge, line),
        }
    }

    // The number of this line, the last that a judge heard, if it doesn't go on from the end, and all before it did.
    fn break_at(&self, judge: &Judge, line: &Line) -> Option<usize>
        ensures { (lines : List Heard) → judge.now.lines ≡ lines ++ line.now ∷ [] →
            IsGoing judge.now.rules (end_seen self.now.end) lines →
            IsFollowed judge.now.rules (end_seen self.now.end) judge.now.lines result }
    {
        if self.goes_on(judge, line) {
            None
        } else {
            Some(judge.heard())
        }
    }

    // Whether a judge's lines go on from the end with this one, the last of them, if they did before it.
    fn goes_on(&self, judge: &Judge, line: &Line) -> bool
        ensures { (lines : List Heard) → judge.now.lines ≡ lines ++ line.now ∷ [] →
            IsGoing judge.now.rules (end_seen self.now.end) lines →
            GoesOrStops judge.now.rules (end_seen self.now.end) judge.now.lines result }
    {
        a_legal_history_goes_on_by_orders();
        if judge.heard() == 1 {
            return self.end.begins(line);
        }
        match judge.told() {
            Some(core) => have_same(&self.end.present, core),
            None => true,
        }
    }

    /// The first of a judge's lines that breaks the rules, or doesn't go on from the end.
    pub(crate) fn first_break(&self, judge: &Judge) -> Option<usize>
        requires { IsSeam judge.now.rules judge.now.lines self.now }
        ensures { IsBreak judge.now.rules (Some (end_seen self.now.end)) judge.now.lines result }
    {
        if judge.heard() == 0 {
            return Some(1);
        }
        match self.breaks {
            Some(line) => Some(line),
            None => first_difference(judge),
        }
    }
}

/// The first of a judge's lines that breaks the rules.
pub(crate) fn first_difference(judge: &Judge) -> Option<usize>
    ensures { IsBreak judge.now.rules None judge.now.lines result }
{
    match judge.verdict() {
        Verdict::Legal => None,
        Verdict::Differs(line) => Some(line),
    }
}
