//! Laws of states that are told by their parts. Each is the contract of an empty function.

ghost use Rattle.std.specs.Prelude.{◌≡◌, ℕ, true, List, [], ◌∷◌, ◌++◌};
ghost use Rattle.fl_core.specs.Kept.{IsKept};
ghost use Rattle.fl_core.specs.Restored.{Part, fits, with_part};
ghost use Rattle.fl_core.specs.State.{Snapshot, snapshot_of};
ghost use Rattle.fl_dir.specs.declared.node.Node.{Node as File};
ghost use Rattle.fl_marks.specs.Conflict.{IsLawful};
ghost use Rattle.fl_marks.specs.declared.run.Run.{Run};
ghost use Rattle.fl_state.specs.Telling.{parts_of, told_by, AreTold, IsFit};
ghost use Rattle.fl_waiting.specs.declared.rules.Rules.{Rules};

use fl_ranges::laws::a_change_without_conflict_keeps_locks_lawful;

/// Parts are told one by one: each fits what those before it tell, and then what is there is that part more.
pub fn parts_are_told_one_by_one()
    ensures told { (rules : Rules) (node fh : ℕ) (before : List Part) (part : Part) → AreTold rules node fh before →
        fits (snapshot_of (told_by rules node fh before)) part ≡ true → AreTold rules node fh (before ++ part ∷ []) }
    ensures fits { (rules : Rules) (node fh : ℕ) (before : List Part) (part : Part) →
        AreTold rules node fh (before ++ part ∷ []) →
        AreTold rules node fh before × (fits (snapshot_of (told_by rules node fh before)) part ≡ true) }
    ensures each { (rules : Rules) (node fh : ℕ) (front rest : List Part) (part : Part) →
        AreTold rules node fh (front ++ part ∷ rest) →
        fits (snapshot_of (told_by rules node fh front)) part ≡ true }
    ensures shown { (rules : Rules) (node fh : ℕ) (before : List Part) (part : Part) →
        snapshot_of (told_by rules node fh (before ++ part ∷ []))
        ≡ with_part part (snapshot_of (told_by rules node fh before)) }
{}

/// In a state whose parts fit, each parked request waits, no two have one unique, and no two owners have conflicting
/// locks.
pub fn a_told_state_is_fit()
    ensures { (rules : Rules) (node fh : ℕ) (parts : List Part) → AreTold rules node fh parts →
        IsFit (snapshot_of (told_by rules node fh parts)) }
{
    a_change_without_conflict_keeps_locks_lawful();
}

/// What a core keeps can be told, if its locks are lawful: each of its parts fits those before it, and together they
/// tell exactly what is there.
pub fn a_state_can_be_told()
    ensures fits { (p : Snapshot) (nodes : List (ℕ × File)) (files : List (ℕ × ℕ)) (runs : List Run) →
        IsKept p nodes files runs → IsLawful p.marking → AreTold p.rules p.view.directory.next_node
        p.view.directory.next_fh (parts_of nodes files runs p.view.parked) }
    ensures tells { (p : Snapshot) (nodes : List (ℕ × File)) (files : List (ℕ × ℕ)) (runs : List Run) →
        IsKept p nodes files runs → snapshot_of (told_by p.rules p.view.directory.next_node p.view.directory.next_fh
        (parts_of nodes files runs p.view.parked)) ≡ p }
{}
