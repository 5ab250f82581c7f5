//! Laws of the definitions, in the words of their subject. Each is the contract of an empty function.

ghost use Rattle.std.specs.Prelude.{◌≡◌, ◌≢◌, ◌↔◌, ◌==◌, ◌≤◌, ℕ, Option, Some, None, true, false, List, length};
ghost use Rattle.std.specs.Prelude.{if◌then◌else◌};
ghost use Rattle.std.specs.List.{Contains, IsDistinct};
ghost use Rattle.std.specs.Ordering.{eq_by_cmp};
ghost use Rattle.std.specs.FinMap.{empty, get};
ghost use Rattle.fl_marks.specs.declared.lock.Key.{Key as Holder};
ghost use Rattle.fl_marks.specs.declared.lock.Kind.{Kind as Sharing};
ghost use Rattle.fl_marks.specs.declared.lock.Mark.{Mark as Sort};
ghost use Rattle.fl_marks.specs.declared.held.Held.{Held as Lock};
ghost use Rattle.fl_marks.specs.Marking.{Spot, spot_cmp, Marking, Stroke, stroked, marking_of, mark_at};
ghost use Rattle.fl_marks.specs.Conflict.{conflicts, owner_conflicts, IsConflict, IsOwnerConflict, IsLawful};
ghost use Rattle.fl_marks.specs.Runs.{runs, IsStart, without_node};
ghost use Rattle.fl_marks.specs.Change.{Change, marking_after, last_said};
ghost use Rattle.fl_marks.specs.Blocker.{blocker, IsBlocker};

/// After strokes a byte of a key has what the last stroke says that covers it, and no mark if none does.
pub fn last_stroke_counts()
    ensures { (strokes : List Stroke) (spot : Spot) → get (marking_of strokes) spot ≡ mark_at strokes spot }
{}

/// Markings that give each byte of each key the same mark are one.
pub fn marks_tell_markings_apart()
    ensures { (m n : Marking) → ((spot : Spot) → get m spot ≡ get n spot) → m ≡ n }
{}

/// A request conflicts exactly if another owner has a mark of the class on the node, at a byte of the
/// range, and one of the two kinds is write.
pub fn conflict_is_another_owners_mark()
    ensures { (m : Marking) (key : Holder) (start end : ℕ) (kind : Sharing) →
        (conflicts m key start end kind ≡ true) ↔ IsConflict m key start end kind }
{}

/// An owner conflicts with a request exactly if one of its marks does; the request's own owner never.
pub fn owner_conflict_is_a_conflict_with_the_owner()
    ensures words { (m : Marking) (key : Holder) (start end : ℕ) (kind : Sharing) (owner : ℕ) →
        (owner_conflicts m key start end kind owner ≡ true) ↔ IsOwnerConflict m key start end kind owner }
    ensures own { (m : Marking) (key : Holder) (start end : ℕ) (kind : Sharing) →
        owner_conflicts m key start end kind key.owner ≡ false }
{}

/// A list of spots without doubles that holds exactly those where a run starts has as many spots as there
/// are runs.
pub fn runs_are_counted_by_their_starts()
    ensures { (m : Marking) (starts : List Spot) → IsDistinct (eq_by_cmp spot_cmp) starts →
        ((spot : Spot) → Contains starts spot ↔ IsStart m spot) → length starts ≡ runs m }
{}

/// Without a node, the spots of that node have no mark, and every other has what it had.
pub fn no_mark_is_left_on_the_node()
    ensures { (m : Marking) (node : ℕ) (spot : Spot) →
        get (without_node node m) spot ≡ (if spot.0.node == node then None else get m spot) }
{}

/// The lock that is named for a request is that of the least owner that conflicts with it at the least byte at which
/// one does, on the longest run of bytes around that byte; none is named exactly if there is no conflict.
pub fn blocker_is_the_first_lock_in_conflict()
    ensures named { (m : Marking) (key : Holder) (start end : ℕ) (kind : Sharing) (held : Lock) →
        end ≤ 9223372036854775807 → (blocker m key start end kind ≡ Some held) ↔ IsBlocker m key start end kind held }
    ensures none { (m : Marking) (key : Holder) (start end : ℕ) (kind : Sharing) →
        (blocker m key start end kind ≡ None) ↔ (conflicts m key start end kind ≡ false) }
{}

/// After changes, strokes and nodes cleared, a byte of a key has what the last change says that covers it, and
/// no mark if none does.
pub fn last_change_counts()
    ensures { (changes : List Change) (spot : Spot) → get (marking_after changes) spot ≡ last_said changes spot }
{}

/// A stroke leaves every conflict with another owner than its own as it was, and every conflict of another class. One
/// that takes marks away makes nobody conflict, and neither does a node that loses its marks.
pub fn a_change_counts_where_it_speaks()
    ensures others { (m : Marking) (s : Stroke) (key : Holder) (start end : ℕ) (kind : Sharing) (owner : ℕ) →
        owner ≢ s.key.owner →
        owner_conflicts (stroked s m) key start end kind owner ≡ owner_conflicts m key start end kind owner }
    ensures class { (m : Marking) (s : Stroke) (key : Holder) (start end : ℕ) (kind : Sharing) (owner : ℕ) →
        key.class ≢ s.key.class →
        owner_conflicts (stroked s m) key start end kind owner ≡ owner_conflicts m key start end kind owner }
    ensures unlocked { (m : Marking) (s : Stroke) (key : Holder) (start end : ℕ) (kind : Sharing) (owner : ℕ) →
        s.mark ≡ None → owner_conflicts (stroked s m) key start end kind owner ≡ true →
        owner_conflicts m key start end kind owner ≡ true }
    ensures cleared { (m : Marking) (node : ℕ) (key : Holder) (start end : ℕ) (kind : Sharing) (owner : ℕ) →
        owner_conflicts (without_node node m) key start end kind owner ≡ true →
        owner_conflicts m key start end kind owner ≡ true }
{}

/// Where nobody has a lock, no two owners have conflicting ones. That stays so after a stroke that sets no lock which
/// conflicts with another owner's, and after a node loses its marks.
pub fn a_change_without_conflict_keeps_locks_lawful()
    ensures nothing { IsLawful empty }
    ensures struck { (m : Marking) (s : Stroke) →
        ((mark : Sort) → s.mark ≡ Some mark → conflicts m s.key s.start s.end mark.kind ≡ false) →
        IsLawful m → IsLawful (stroked s m) }
    ensures cleared { (m : Marking) (node : ℕ) → IsLawful m → IsLawful (without_node node m) }
{}
