//! The lines of a history, taken anew one after another, and what comes next in it.

ghost use Rattle.std.specs.Prelude.{ℕ, ◌≡◌, ◌↔◌, ◌⊎◌, ◌+◌, ◌^◌, ◌<◌, ◌&&◌, not, true, false, [], Some, IsSome, is_some};
ghost use Rattle.std.specs.Prelude.{IfOk};
ghost use Rattle.std.specs.List.{slice_get};
ghost use Rattle.fl_desk.specs.Heads.{NamesRules};
ghost use Rattle.fl_history.specs.declared.history.Line.TheVariants as line;
ghost use Rattle.fl_judge.specs.Inside.Heard.{IsReady, LeadsUpTo, GoesOnAlike};
ghost use Rattle.fl_judge.specs.declared.replay.Stage.TheVariants as stage;
ghost use Rattle.fl_order.specs.declared.state_part.StateLine.TheVariants as state;

use crate::asking::asks_while_waiting;
use fl_core::{Core, Rules, Tolds};
use fl_desk::laws::{
    a_head_leads_to_what_it_tells, a_legal_history_goes_on_by_orders, an_order_leads_on,
};
use fl_history::Line;
use fl_order::{Head, NoMemory, Order, StateLine, Told};
use fl_state::laws::parts_are_told_one_by_one;
use fl_state::restore;
use std::alloc::Global;

// What a replay has heard: no line; a head so far; a whole head, or orders.
#[derive(Clone, Copy, Debug, PartialEq, Eq)]
pub(crate) enum Stage {
    Unheard,
    Telling,
    Taking,
}

// The directory after the last line that was heard, the replies that the last order gives, how many of them were
// heard, whether no owner asked so far for a record lock while it waited for one, and whether a head is being told.
#[derive(Drop)]
pub(crate) struct Replay {
    pub(crate) core: Core,
    pub(crate) tolds: Tolds,
    pub(crate) told: usize,
    pub(crate) quiet: bool,
    pub(crate) stage: Stage,
}

impl Replay {
    // Nothing is heard, and these are the rules.
    pub(crate) fn new(alloc: Global, rules: Rules) -> Result<Replay, NoMemory>
        ensures leads { IfOk result (λ replay. LeadsUpTo [] replay) }
        ensures ready { IfOk result (IsReady rules) }
    {
        an_order_leads_on();
        Ok(Replay {
            core: Core::new(alloc, rules)?,
            tolds: Tolds::new(alloc, rules)?,
            told: 0,
            quiet: true,
            stage: Stage::Unheard,
        })
    }

    // One line more, if a legal history may go on by it. It takes no memory.
    pub(crate) fn take(&mut self, line: &Line) -> bool
        requires { IsReady self.old.core.rules self.old }
        ensures goes { GoesOnAlike self.old line.now result self.new }
        ensures stays { result ≡ false → self.new ≡ self.old }
        ensures ready { IsReady self.old.core.rules self.new }
    {
        match line {
            Line::Asked { worker: _, order } => self.take_order(order),
            Line::Told(told) => self.take_reply(told),
            Line::State(state) => self.take_state(state),
        }
    }

    // An order, which comes if no reply is due, and no head is being told.
    fn take_order(&mut self, order: &Order) -> bool
        requires { IsReady self.old.core.rules self.old }
        ensures goes { (worker : ℕ) → GoesOnAlike self.old (line.Asked worker order.now) result self.new }
        ensures stays { result ≡ false → self.new ≡ self.old }
        ensures ready { IsReady self.old.core.rules self.new }
    {
        an_order_leads_on();
        a_legal_history_goes_on_by_orders();
        a_head_leads_to_what_it_tells();
        if self.wants_more() {
            return false;
        }
        let asks = asks_while_waiting(&self.core, order);
        self.quiet = stays_quiet(self.quiet, asks);
        self.core.step(order, &mut self.tolds);
        self.told = 0;
        self.stage = Stage::Taking;
        true
    }

    // A reply, which comes if it is due.
    fn take_reply(&mut self, told: &Told) -> bool
        requires { IsReady self.old.core.rules self.old }
        ensures goes { GoesOnAlike self.old (line.Told told.now) result self.new }
        ensures stays { result ≡ false → self.new ≡ self.old }
        ensures ready { IsReady self.old.core.rules self.new }
    {
        a_legal_history_goes_on_by_orders();
        a_head_leads_to_what_it_tells();
        if !self.is_due(told) {
            return false;
        }
        self.told += 1;
        true
    }

    // A line of a head: the first one comes before all other lines, and the others behind it.
    fn take_state(&mut self, state: &StateLine) -> bool
        requires { IsReady self.old.core.rules self.old }
        ensures goes { GoesOnAlike self.old (line.State state.now) result self.new }
        ensures stays { result ≡ false → self.new ≡ self.old }
        ensures ready { IsReady self.old.core.rules self.new }
    {
        a_legal_history_goes_on_by_orders();
        a_head_leads_to_what_it_tells();
        parts_are_told_one_by_one();
        match self.stage {
            Stage::Unheard => match state {
                StateLine::Head(head) => self.begin(head),
                _ => false,
            },
            Stage::Telling => match state {
                StateLine::Part(part) => restore(&mut self.core, part),
                StateLine::Go => {
                    self.stage = Stage::Taking;
                    true
                }
                StateLine::Head(_) => false,
            },
            Stage::Taking => false,
        }
    }

    // The first line of a head, which names the rules, and numbers that no node and no open file has.
    fn begin(&mut self, head: &Head) -> bool
        requires unheard { self.old.stage ≡ stage.Unheard }
        requires ready { IsReady self.old.core.rules self.old }
        ensures goes { GoesOnAlike self.old (line.State (state.Head head.now)) result self.new }
        ensures stays { result ≡ false → self.new ≡ self.old }
        ensures ready { IsReady self.old.core.rules self.new }
    {
        a_head_leads_to_what_it_tells();
        if !may_begin(head, self.core.rules()) {
            return false;
        }
        self.core.begin_at(head.node, head.fh);
        self.stage = Stage::Telling;
        true
    }

    // Whether a head is being told.
    pub(crate) fn is_telling(&self) -> bool
        ensures { (result ≡ true) ↔ (self.now.stage ≡ stage.Telling) }
    {
        self.stage == Stage::Telling
    }

    // Whether lines are missing: replies that are due, or the rest of a head.
    pub(crate) fn wants_more(&self) -> bool
        ensures { (result ≡ true) ↔
            ((is_some (slice_get self.now.tolds.told self.now.told) ≡ true) ⊎ (self.now.stage ≡ stage.Telling)) }
    {
        self.due().is_some() || self.is_telling()
    }

    // Whether this reply has to come next.
    fn is_due(&self, told: &Told) -> bool
        ensures is { (result ≡ true) ↔ (slice_get self.now.tolds.told self.now.told ≡ Some told.now) }
        ensures few { result ≡ true → self.now.told + 1 < 2 ^ 64 }
    {
        self.due() == Some(*told)
    }

    // The reply that has to come next, if one has.
    pub(crate) fn due(&self) -> Option<Told>
        ensures is { result ≡ slice_get self.now.tolds.told self.now.told }
        ensures few { IsSome result → self.now.told + 1 < 2 ^ 64 }
    {
        let replies = self.tolds.as_slice();
        if self.told < replies.len() {
            Some(replies[self.told])
        } else {
            None
        }
    }
}

// Whether lines are quiet with an order more, whose owner asks while it waits or doesn't.
fn stays_quiet(quiet: bool, asks: bool) -> bool
    ensures { result ≡ (quiet && not asks) }
{
    quiet && !asks
}

// Whether a head names these rules, and numbers above those of the root and of no open file.
fn may_begin(head: &Head, rules: Rules) -> bool
    ensures { (result ≡ true) ↔ (NamesRules head.now rules × (1 < head.now.node) × (0 < head.now.fh)) }
{
    head.fair == rules.fair
        && head.runs == rules.runs
        && head.parked == rules.parked
        && head.files == rules.files
        && head.open_files == rules.open_files
        && head.node > 1
        && head.fh > 0
}
