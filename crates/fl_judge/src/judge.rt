//! The judge: what it says of the lines that it heard.

ghost use Rattle.std.specs.Prelude.{◌≡◌, ◌↔◌, ◌<◌, ◌≤◌, ◌^◌, ◌++◌, ◌∷◌, [], true, length, IfOk, IfSome, IsSome};
ghost use Rattle.fl_core.specs.State.{snapshot_of};
ghost use Rattle.fl_desk.specs.Heads.{IsHead};
ghost use Rattle.fl_desk.specs.Legal.{orders_asked, IsLegal};
ghost use Rattle.fl_desk.specs.Replay.{state_after};
ghost use Rattle.fl_judge.specs.Verdicts.{IsBeginning, IsVerdict};
ghost use Rattle.fl_judge.specs.Difference.{IsDifferenceOf};
ghost use Rattle.fl_judge.specs.Hearing.{unheard};
ghost use Rattle.fl_history.specs.Place.{place_of};
ghost use Rattle.fl_desk.specs.Kept.{IsKept};
ghost use Rattle.fl_judge.specs.Present.{HasPresent, IsPresent, told_lines};
ghost use Rattle.fl_judge.specs.Quiet.{IsQuiet, OpensCalm, HasNoCircles};

use crate::difference::Difference;
use crate::laws::quiet_histories_have_no_circle;
use crate::replay::Replay;
use crate::resumed::{Missing, Resumed};
use crate::verdict::Verdict;
use fl_core::{Core, Rules};
use fl_desk::laws::a_head_leads_to_what_it_tells;
use fl_history::{Line, Past, Place};
use fl_order::NoMemory;
use std::alloc::Global;
use std::marker::Model;

/// A judge of a history, which hears its lines one after another. It takes what a head tells, and then the orders,
/// anew, and compares the replies.
/// Its memory is that of one directory and one list of replies, however many lines it hears. Contracts see it as a
/// `Hearing`: the rules that it judges by, and the lines that it heard.
#[derive(Drop)]
pub struct Judge {
    replay: Replay,
    heard: usize,
    // How many of the lines are orders.
    orders: usize,
    // The number of the first line that breaks the rules, and the line.
    differs: Option<usize>,
    found: Option<Line>,
    place: Place,
    past: Past<Line>,
}

impl Model for Judge {
    ghost use Rattle.fl_judge.specs.Hearing.{Hearing};

    ghost Value = { Hearing };

    ghost use Rattle.std.specs.Prelude.{◌≡◌};
    ghost use Rattle.fl_judge.specs.Inside.Heard.{IsHeard, IsNoted};
    ghost use Rattle.fl_history.specs.Place.{place_of};

    ghost view = { λ j. record { rules = j.replay.core.rules; lines = j.past.items } };

    ghost invariant = { λ j. IsHeard j.past.items j.heard j.replay j.differs
        × IsNoted j.past.items j.orders j.replay j.differs j.found × (j.place ≡ place_of j.past.items) };
}

impl Judge {
    /// A judge that has heard no line, and judges by these rules.
    pub fn new(alloc: Global, rules: Rules) -> Result<Judge, NoMemory>
        ensures { IfOk result (λ judge. judge ≡ unheard rules) }
    {
        Ok(Judge {
            replay: Replay::new(alloc, rules)?,
            heard: 0,
            orders: 0,
            differs: None,
            found: None,
            place: Place::nowhere(),
            past: Past::new(),
        })
    }

    /// Hears one line more. It takes no memory.
    pub fn hear(&mut self, line: &Line)
        requires { length self.old.lines < 2 ^ 63 }
        ensures { self.new ≡ record self.old { lines = self.old.lines ++ line.now ∷ [] } }
    {
        self.past = self.past.and(line);
        self.heard += 1;
        self.place = self.place.and(line);
        self.orders += orders_in(line);
        if self.differs.is_none() && !self.replay.take(line) {
            self.differs = Some(self.heard);
            self.found = Some(*line);
        }
    }

    /// How many lines it heard.
    pub fn heard(&self) -> usize
        ensures { result ≡ length self.now.lines }
    {
        self.heard
    }

    /// How many of the lines that it heard are orders.
    pub fn orders(&self) -> usize
        ensures { result ≡ orders_asked self.now.lines }
    {
        self.orders
    }

    /// Where the lines that it heard end, if they are a piece of a longer history.
    pub fn place(&self) -> Place
        ensures { result ≡ place_of self.now.lines }
    {
        self.place
    }

    /// What is to be said of all lines that it heard, as `check` says it of a history of them under its rules.
    pub fn verdict(&self) -> Verdict
        ensures { IsVerdict self.now.rules self.now.lines result }
    {
        match self.difference() {
            Some(difference) => Verdict::Differs(difference.number),
            None => Verdict::Legal,
        }
    }

    /// Where the lines that it heard break its rules, what it heard there, and what these want; none if they are a
    /// legal history.
    pub fn difference(&self) -> Option<Difference>
        ensures { IsDifferenceOf self.now.rules self.now.lines result }
    {
        a_head_leads_to_what_it_tells();
        let due = self.replay.due();
        if let Some(number) = self.differs {
            let found = self.found;
            Some(Difference { number, found, due })
        } else if self.replay.wants_more() {
            let (number, found) = (self.heard + 1, None);
            Some(Difference { number, found, due })
        } else {
            None
        }
    }

    /// Whether some history that is legal under its rules begins with the lines that it heard.
    pub fn begins(&self) -> bool
        ensures { (result ≡ true) ↔ IsBeginning self.now.rules self.now.lines }
    {
        self.differs.is_none()
    }

    /// What is there after the lines that it heard, and after the replies that are missing at their end, as if these
    /// had been given. None if no history that is legal under its rules begins with the lines, or they end inside a
    /// head.
    pub fn present(&self) -> Option<&Core>
        ensures some { IsSome result ↔ HasPresent self.now.rules self.now.lines }
        ensures is { IfSome result (λ core. IsPresent self.now.rules self.now.lines core.now) }
    {
        if self.is_present() {
            Some(&self.replay.core)
        } else {
            None
        }
    }

    /// What is told, if the lines that it heard are a head that can be told under its rules, whole and alone.
    pub fn told(&self) -> Option<&Core>
        ensures some { IsSome result ↔ IsHead self.now.rules self.now.lines }
        ensures is { IfSome result (λ core. core.now ≡ snapshot_of (state_after self.now.rules self.now.lines)) }
    {
        if self.has_told() {
            Some(&self.replay.core)
        } else {
            None
        }
    }

    /// What a server goes on from after the lines that it heard: what is there, and the replies that are missing at
    /// their end. None if `present` has nothing. It takes no memory.
    pub fn into_resumed(self) -> Option<Resumed>
        ensures some { IsSome result ↔ HasPresent self.rules self.lines }
        ensures past { IfSome result (λ r. r.past.items ≡ self.lines) }
        ensures kept { IfSome result (λ r. IsKept (self.lines ++ told_lines r.missing) r.present) }
        ensures rules { IfSome result (λ r. r.present.rules ≡ self.rules) }
        ensures legal { IfSome result (λ r. IsLegal self.rules self.lines →
            r.present ≡ snapshot_of (state_after self.rules self.lines)) }
    {
        if !self.is_present() {
            return None;
        }
        let Judge { replay, past, .. } = self;
        let Replay {
            core,
            tolds,
            told,
            ..
        } = replay;
        Some(Resumed {
            present: core,
            missing: Missing { tolds, told },
            past,
        })
    }

    /// Whether some history that is legal under its rules begins with the lines that it heard, and they are quiet: no
    /// owner asks for a record lock while it waits for one, as `fl_judge` says. Then owners never wait in a circle, if
    /// no head tells that they do, or that one waits for two record locks.
    pub fn quiet(&self) -> bool
        ensures exact { (result ≡ true) ↔
            (IsBeginning self.now.rules self.now.lines × IsQuiet self.now.rules self.now.lines) }
        ensures no_circle { result ≡ true → OpensCalm self.now.rules self.now.lines →
            HasNoCircles self.now.rules self.now.lines }
    {
        quiet_histories_have_no_circle();
        let Judge {
            replay,
            differs,
            ..
        } = self;
        differs.is_none() && replay.quiet
    }

    // Whether the lines that it heard are a head, whole and alone.
    fn has_told(&self) -> bool
        ensures told { (result ≡ true) ↔ IsHead self.now.rules self.now.lines }
        ensures present { result ≡ true → HasPresent self.now.rules self.now.lines }
    {
        a_head_leads_to_what_it_tells();
        self.asks_nothing() && self.is_present()
    }

    // Whether it heard lines, and no order.
    fn asks_nothing(&self) -> bool
        ensures { (result ≡ true) ↔ ((0 < length self.now.lines) × (orders_asked self.now.lines ≡ 0)) }
    {
        self.heard > 0 && self.orders == 0
    }

    // Whether something is there after the lines that it heard.
    fn is_present(&self) -> bool
        ensures { (result ≡ true) ↔ HasPresent self.now.rules self.now.lines }
    {
        a_head_leads_to_what_it_tells();
        self.begins() && !self.replay.is_telling()
    }
}

// How many orders a line is.
fn orders_in(line: &Line) -> usize
    ensures is { result ≡ orders_asked (line.now ∷ []) }
    ensures few { result ≤ 1 }
{
    match line {
        Line::Asked { .. } => 1,
        Line::Told(_) | Line::State(_) => 0,
    }
}
