//! What a circle is, in words. The law is the contract of an empty function.

ghost use Rattle.std.specs.Prelude.{◌≡◌, ◌↔◌, ℕ, true, List};
ghost use Rattle.fl_marks.specs.Marking.{Marking};
ghost use Rattle.fl_waiting.specs.Circle.{waiter_of, blocks, waiters, behind, closes_circle, is_deadlock, IsCircle};
ghost use Rattle.fl_waiting.specs.Circle.{ClosesCircle};
ghost use Rattle.fl_waiting.specs.LockRequest.{mark_of, stroke_of};
ghost use Rattle.fl_waiting.specs.Waiting.{Wish, wishes, is_blocked_by, anyone, only};
ghost use Rattle.fl_waiting.specs.declared.parked.Request.{Request};
ghost use Rattle.fl_waiting.specs.declared.rules.Rules.{Rules};

/// A lock has to wait exactly if an owner blocks it. It, or its request, would close a circle exactly if
/// such an owner waits for the one who wants it, directly or through others, each of whom waits for the next.
pub fn a_circle_is_a_path_of_owners_who_wait()
    ensures someone { (rules : Rules) (m : Marking) (older : List Wish) (w : Wish) →
        (is_blocked_by rules anyone m older w ≡ true)
        ↔ ((owner : ℕ) × (is_blocked_by rules (only owner) m older w ≡ true)) }
    ensures wish { (rules : Rules) (m : Marking) (parked : List Request) (w : Wish) →
        (closes_circle rules m parked w ≡ true)
        ↔ IsCircle waiter_of (blocks rules m) (waiters parked) (behind (wishes parked) w) }
    ensures request { (rules : Rules) (m : Marking) (parked : List Request) (r : Request) →
        (is_deadlock rules m parked (stroke_of r.node r.ask) (mark_of r.ask) ≡ true) ↔ ClosesCircle rules m parked r }
{}
