//! Laws of what was handed in. Each is the contract of a function that does nothing.

ghost use Rattle.std.specs.Prelude.{◌≡◌, List};
ghost use Rattle.fl_record.specs.Asks.{history_of, present_after};
ghost use Rattle.fl_core.specs.State.{snapshot_of};
ghost use Rattle.fl_counter.specs.Answered.{IsAnsweredLast, answered_by};
ghost use Rattle.fl_desk.specs.Legal.{HasNoHead, IsLegal};
ghost use Rattle.fl_desk.specs.Replay.{state_after};
ghost use Rattle.fl_log.specs.Asked.{Ask};
ghost use Rattle.fl_order.specs.declared.order.Order.{Order};
ghost use Rattle.fl_order.specs.declared.told.Told.{Told};
ghost use Rattle.fl_record.specs.Seats.{Place};
ghost use Rattle.fl_record.specs.Shown.{IsHandedIn};
ghost use Rattle.fl_waiting.specs.declared.rules.Rules.{Rules};

use fl_desk::laws::{an_order_leads_on, no_head_comes_later};

/// The history that asks make is legal under the rules that they are taken by, and has no head. What is there after
/// them has these rules, and is what the history alone gives.
pub fn asks_lead()
    ensures rules { (rules : Rules) (asks : List Ask) → (present_after rules asks).rules ≡ rules }
    ensures legal { (rules : Rules) (asks : List Ask) → IsLegal rules (history_of rules asks) }
    ensures headless { (rules : Rules) (asks : List Ask) → HasNoHead (history_of rules asks) }
    ensures stands { (rules : Rules) (asks : List Ask) →
        present_after rules asks ≡ snapshot_of (state_after rules (history_of rules asks)) }
{
    an_order_leads_on();
    no_head_comes_later();
}

/// An order that was handed in at a place is answered behind all that was handed in there before.
pub fn answered_last()
    ensures { (rules : Rules) (old new : Place) (order : Order) (tolds : List Told) → new.worker ≡ old.worker
        → IsHandedIn rules old order tolds new
        → IsAnsweredLast (answered_by old.worker old.handed) order tolds (answered_by new.worker new.handed) }
{}
