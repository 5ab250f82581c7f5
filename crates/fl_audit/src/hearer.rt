//! A judge that hears lines, what hears them beside it, and the line behind them that is bad.

ghost use Rattle.std.specs.Prelude.{◌≡◌, ◌<◌, ◌^◌, ◌++◌, ◌∷◌, [], length};
ghost use Rattle.fl_audit.specs.Details.{AreDetailsOf};
ghost use Rattle.fl_audit.specs.Inside.Keeping.{along, keeping};
ghost use Rattle.fl_audit.specs.Inside.Seams.{IsBeside};

use crate::beside::Beside;
use crate::details::{BadLine, Details};
use fl_history::Line;
use fl_judge::Judge;
use std::marker::Model;

/// A judge, what heard the same lines beside it, and the line behind them, if it is bad. Contracts see the judge's rules
/// and lines, and what is beside it.
#[derive(Drop)]
pub(crate) struct Hearer {
    judge: Judge,
    beside: Beside,
    bad: BadLine,
}

impl Model for Hearer {
    ghost use Rattle.fl_audit.specs.Inside.Keeping.{Keeping, along, keeping, keeping_code};
    ghost use Rattle.fl_audit.specs.Inside.Seams.{IsBeside};

    ghost Value = { Keeping };

    ghost coded = { keeping_code };

    ghost view = { λ h. keeping h.judge (along h.beside) };

    ghost invariant = { λ h. IsBeside h.judge.rules h.judge.lines h.beside };
}

impl Hearer {
    /// A judge, and what heard the same lines.
    pub(crate) fn new(judge: Judge, beside: Beside) -> Hearer
        requires { IsBeside judge.rules judge.lines beside }
        ensures { result ≡ keeping judge (along beside) }
    {
        Hearer {
            judge,
            beside,
            bad: BadLine::new(),
        }
    }

    /// Hears one line more.
    pub(crate) fn hear(&mut self, line: &Line)
        requires { length self.old.lines < 2 ^ 63 }
        ensures { self.new ≡ record self.old { lines = self.old.lines ++ line.now ∷ [] } }
    {
        self.judge.hear(line);
        self.beside.hear(&self.judge, line);
    }

    /// The first line of this text is bad.
    pub(crate) fn meet_bad(&mut self, text: &[u8])
        ensures { self.new ≡ self.old }
    {
        self.bad = BadLine::first_of(text);
    }

    /// What is told of the lines that it heard, and the bad line.
    pub(crate) fn details(&self) -> Details
        ensures { AreDetailsOf self.now.rules self.now.lines result }
    {
        Details {
            lines: self.judge.heard(),
            orders: self.judge.orders(),
            difference: self.judge.difference(),
            bad: self.bad,
        }
    }

    /// How many lines it heard.
    pub(crate) fn heard(&self) -> usize
        ensures { result ≡ length self.now.lines }
    {
        self.judge.heard()
    }

    /// The judge, and what heard the same lines.
    pub(crate) fn into_parts(self) -> (Judge, Beside)
        ensures rules { result.0.rules ≡ self.rules }
        ensures lines { result.0.lines ≡ self.lines }
        ensures beside { IsBeside self.rules self.lines result.1 }
        ensures along { along result.1 ≡ self.along }
    {
        let Hearer { judge, beside, .. } = self;
        (judge, beside)
    }
}
