//! What hears the same lines beside a judge.

ghost use Rattle.std.specs.Prelude.{◌≡◌, ◌++◌, ◌∷◌, [], Some, None, List, false, option_map};
ghost use Rattle.fl_audit.specs.Inside.Keeping.{along};
ghost use Rattle.fl_audit.specs.Inside.Seams.{end_seen, IsBeside};
ghost use Rattle.fl_history.specs.declared.history.Line.{Line as Heard};
ghost use Rattle.fl_waiting.specs.declared.rules.Rules.{Rules as Limits};

use crate::seam::{PieceEnd, Seam};
use fl_history::{Line, Recent};
use fl_judge::Judge;

/// The last lines that are heard, if these are kept, and the end of a piece that the lines have to go on from, if they
/// have to.
#[derive(Drop)]
pub(crate) struct Beside {
    pub recent: Option<Recent>,
    pub seam: Option<Seam>,
}

impl Beside {
    /// Neither.
    pub(crate) fn nothing() -> Beside
        ensures recent { result.recent ≡ None }
        ensures seam { result.seam ≡ None }
    {
        Beside {
            recent: None,
            seam: None,
        }
    }

    /// The last lines are kept, in this.
    pub(crate) fn keeping(recent: Recent) -> Beside
        ensures recent { result.recent ≡ Some recent }
        ensures seam { result.seam ≡ None }
    {
        Beside {
            recent: Some(recent),
            seam: None,
        }
    }

    /// The lines have to go on from this end, if there is one.
    pub(crate) fn behind(end: Option<PieceEnd>) -> Beside
        ensures along { along result ≡ record { keeps = false; end = option_map end_seen end } }
        ensures beside { (rules : Limits) → IsBeside rules [] result }
    {
        let seam = match end {
            Some(end) => Some(Seam { end, breaks: None }),
            None => None,
        };
        Beside { recent: None, seam }
    }

    /// A judge heard one line more, this one.
    pub(crate) fn hear(&mut self, judge: &Judge, line: &Line)
        ensures along { along self.new ≡ along self.old }
        ensures beside { (lines : List Heard) → judge.now.lines ≡ lines ++ line.now ∷ [] →
            IsBeside judge.now.rules lines self.old → IsBeside judge.now.rules judge.now.lines self.new }
    {
        if let Some(recent) = &mut self.recent {
            recent.push(line);
        }
        if let Some(seam) = &mut self.seam {
            seam.follow(judge, line);
        }
    }
}
