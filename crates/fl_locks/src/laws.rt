//! A law of the definitions, in the words of their subject. It is the contract of an empty function.

ghost use Rattle.std.specs.Prelude.{◌≡◌, Some, [], map};
ghost use Rattle.fl_core.specs.State.{Snapshot};
ghost use Rattle.fl_locks.specs.LockRows.{waiting_rows};
ghost use Rattle.fl_locks.specs.declared.row.LockRow.{LockRow};
ghost use Rattle.fl_waiting.specs.Waiting.{AllWait};
ghost use Rattle.fl_waiting.specs.declared.parked.Request.{Request};

/// Where each parked request waits, as after each step of a core, each has a row: there are as many rows as requests,
/// in the order of asking, each with the unique of its request.
pub fn each_request_that_waits_has_a_row()
    ensures { (s : Snapshot) → AllWait s.rules s.marking s.view.parked →
        map (λ (row : LockRow). row.unique) (waiting_rows s [] s.view.parked)
        ≡ map (λ (r : Request). Some r.unique) s.view.parked }
{}
