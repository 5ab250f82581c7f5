//! Laws of the definitions, in the words of their subject. Each is the contract of an empty function.

ghost use Rattle.std.specs.Prelude.{List};
ghost use Rattle.fl_history.specs.declared.history.Line.{Line};
ghost use Rattle.fl_core.specs.State.{snapshot_of};
ghost use Rattle.fl_desk.specs.Legal.{HasNoHead, IsLegal};
ghost use Rattle.fl_desk.specs.Replay.{state_after};
ghost use Rattle.fl_judge.specs.Present.{HasPresent};
ghost use Rattle.fl_judge.specs.Quiet.{IsQuiet, IsCalm, OpensCalm, HasNoCircles};
ghost use Rattle.fl_waiting.specs.declared.rules.Rules.{Rules};

use fl_core::laws::an_order_is_taken_in_stages;
use fl_desk::laws::{
    a_head_leads_to_what_it_tells, a_legal_history_goes_on_by_orders, an_order_leads_on,
};

/// In a quiet history owners never wait in a circle, whatever the rules: not at its end, and not after any order
/// before, as far as it is legal. For an owner that has no request parked waits for nobody, a request that closes a
/// circle isn't parked, and a lock that is granted goes to an owner that then has no other request parked. If a head
/// begins the history, this rests on the state that it tells. A legal history then leads to a calm state itself, and so
/// does the head that tells this state.
pub fn quiet_histories_have_no_circle()
    ensures calm { (rules : Rules) (lines : List Line) → IsQuiet rules lines → OpensCalm rules lines →
        HasNoCircles rules lines }
    ensures stays { (rules : Rules) (lines : List Line) → IsQuiet rules lines → OpensCalm rules lines →
        IsLegal rules lines → IsCalm (snapshot_of (state_after rules lines)) }
    ensures headless { (rules : Rules) (lines : List Line) → HasNoHead lines → OpensCalm rules lines }
{
    an_order_leads_on();
    a_legal_history_goes_on_by_orders();
    an_order_is_taken_in_stages();
}

/// A legal history leads to something: it doesn't end inside a head.
pub fn a_legal_history_has_a_present()
    ensures { (rules : Rules) (lines : List Line) → IsLegal rules lines → HasPresent rules lines }
{
    a_head_leads_to_what_it_tells();
}
