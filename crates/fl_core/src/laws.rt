//! Laws of the definitions, in the words of their subject. Each is the contract of an empty function.

ghost use Rattle.std.specs.Prelude.{◌≡◌, ◌≢◌, ◌↔◌, true, Some, Ok, Err, [], List};
ghost use Rattle.std.specs.List.{Contains};
ghost use Rattle.fl_core.specs.Effects.{Effect, later, leaving, replied, recorded, made, request_of};
ghost use Rattle.fl_core.specs.First.{IsFirst};
ghost use Rattle.fl_core.specs.Replies.{first_told, own_reply};
ghost use Rattle.fl_core.specs.Settling.{Present, present, settled, IsSettled};
ghost use Rattle.fl_core.specs.Stages.{IsTakenInStages};
ghost use Rattle.fl_core.specs.State.{View, State, Snapshot, opening, snapshot_of};
ghost use Rattle.fl_core.specs.Step.{next, replies};
ghost use Rattle.fl_waiting.specs.Waiting.{Wish, wish_of, wishes, older_blocks, waits, AllWait, AreApart, taken_out};
ghost use Rattle.fl_waiting.specs.declared.parked.Request.{Request};
ghost use Rattle.fl_waiting.specs.declared.rules.Rules.{Rules};
ghost use Rattle.fl_order.specs.declared.errno.Errno.{Errno};
ghost use Rattle.fl_order.specs.declared.order.LockAsk.{LockAsk};
ghost use Rattle.fl_order.specs.declared.order.Op.TheVariants.{Setlkw};
ghost use Rattle.fl_order.specs.declared.order.Order.{Order};
ghost use Rattle.fl_order.specs.declared.told.Answer.{Answer};
ghost use Rattle.fl_order.specs.declared.told.Told.{Told};
ghost use Rattle.fl_marks.specs.Conflict.{IsLawful};
ghost use Rattle.fl_marks.specs.Marking.{Marking};

/// What is shown of a state after an effect is the snapshot after that effect.
pub fn effects_are_shown_alike()
    ensures { (effect : View → Effect) (s : State) → snapshot_of (recorded effect s) ≡ made effect (snapshot_of s) }
{}

/// The first replies of an order are those that its case says, if no two parked requests have one unique.
pub fn first_replies_are_those_of_the_orders_case()
    ensures { (p : Snapshot) (order : Order) (tolds : List Told) → AreApart p.view.parked →
        (tolds ≡ first_told p order) ↔ IsFirst p order tolds }
{
    fl_circle::laws::a_circle_is_a_path_of_owners_who_wait();
}

/// Settling takes out the oldest request that doesn't wait, again and again, until each waits.
pub fn settling_answers_the_oldest_first()
    ensures told { (rules : Rules) (s after : Present) (tolds : List Told) →
        IsSettled rules s tolds after ↔ ((tolds ≡ (settled rules s).tolds) × (after ≡ (settled rules s).present)) }
    ensures nothing { (rules : Rules) (s : Present) →
        ((settled rules s).tolds ≡ []) ↔ AllWait rules s.marking s.parked }
    ensures ends { (rules : Rules) (s : Present) →
        AllWait rules (settled rules s).present.marking (settled rules s).present.parked }
{}

/// A parked request that is rejected with an error is parked no more, and that is all that changes.
pub fn a_late_error_changes_no_lock()
    ensures { (told : Told) (e : Errno) (v : View) (r : Request) (others : List Request) →
        taken_out told.unique v.parked ≡ Some (r, others) → told.result ≡ Err e →
        later told v ≡ leaving (record v { parked = others }) }
{}

/// What is there after an order is what its replies alone give, from each state that shows what was there before. Each
/// parked request waits then, and no two have one unique, if that held before.
pub fn a_step_is_what_its_replies_give()
    ensures read { (p : Snapshot) (order : Order) (s : State) → AllWait p.rules p.marking p.view.parked →
        AreApart p.view.parked → snapshot_of s ≡ p →
        snapshot_of (recorded (replied order (replies p order)) s) ≡ next p order }
    ensures waiting { (p : Snapshot) (order : Order) →
        AllWait p.rules (next p order).marking (next p order).view.parked }
    ensures apart { (p : Snapshot) (order : Order) → AllWait p.rules p.marking p.view.parked → AreApart p.view.parked →
        AreApart (next p order).view.parked }
{}

/// No two owners have conflicting locks at the opening, and none have after an order if none had before.
pub fn an_order_keeps_locks_lawful()
    ensures nothing { (rules : Rules) → IsLawful (snapshot_of (opening rules)).marking }
    ensures step { (p : Snapshot) (order : Order) → AllWait p.rules p.marking p.view.parked → AreApart p.view.parked →
        IsLawful p.marking → IsLawful (next p order).marking }
{
    fl_ranges::laws::a_change_without_conflict_keeps_locks_lawful();
}

/// An order is taken in stages: its own change, or its request is parked; then requests leave, or are granted.
pub fn an_order_is_taken_in_stages()
    ensures { (p : Snapshot) (order : Order) → AllWait p.rules p.marking p.view.parked → AreApart p.view.parked →
        IsTakenInStages p.rules order (present p.marking p.view.parked)
        (present (next p order).marking (next p order).view.parked) }
{
    fl_ranges::laws::a_change_counts_where_it_speaks();
    fl_circle::laws::a_circle_is_a_path_of_owners_who_wait();
}

/// What fair rules promise: while a request for a record lock is parked, a later SETLKW for a lock that conflicts
/// with it is granted none. It is refused, or parked behind; and while it is parked, it waits as long as the older
/// one is there.
pub fn no_request_passes_an_older_one_under_fair_rules()
    ensures asked { (p : Snapshot) (order : Order) (ask : LockAsk) (w older : Wish) → p.rules.fair ≡ true →
        order.op ≡ Setlkw ask → wish_of (request_of order ask) ≡ Some w → Contains (wishes p.view.parked) older →
        older_blocks w older ≡ true → (answer : Answer) → own_reply p.rules p.view p.marking order ≢ Some (Ok answer) }
    ensures parked { (rules : Rules) (m : Marking) (parked : List Request) (r : Request) (w older : Wish) →
        rules.fair ≡ true → wish_of r ≡ Some w → Contains (wishes parked) older → older_blocks w older ≡ true →
        waits rules m parked r ≡ true }
{}
