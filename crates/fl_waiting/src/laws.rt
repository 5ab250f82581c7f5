//! Laws of the definitions, in the words of their subject. Each is the contract of an empty function.

ghost use Rattle.std.specs.Prelude.{◌≡◌, ◌↔◌, ◌≤◌, ℕ, true, false, List};
ghost use Rattle.fl_waiting.specs.Circle.{waiter_of, blocks, waiters, Waits};
ghost use Rattle.fl_waiting.specs.Waiting.{Wish, older_blocks, OlderBlocks, is_waiting};
ghost use Rattle.fl_waiting.specs.declared.parked.Request.{Request};
ghost use Rattle.fl_waiting.specs.declared.rules.Rules.{Rules};
ghost use Rattle.fl_marks.specs.Marking.{Marking};

/// An older request for a lock blocks another exactly if another owner has asked, for the same class and node,
/// with a byte in common, and one of the two asks for a write lock.
pub fn an_older_request_blocks_where_locks_conflict()
    ensures { (w older : Wish) → w.start ≤ w.end → older.start ≤ older.end →
        (older_blocks w older ≡ true) ↔ OlderBlocks w older }
{}

/// An owner of whom no request for a record lock is parked waits for nobody.
pub fn who_has_none_parked_waits_for_nobody()
    ensures { (rules : Rules) (m : Marking) (parked : List Request) (owner q : ℕ) → is_waiting owner parked ≡ false →
        Waits waiter_of (blocks rules m) (waiters parked) owner q → ⊥ }
{}
