//! Whose locks conflict with one that is wanted, asked of anything that keeps a marking.

ghost use Rattle.std.specs.Prelude.{◌≡◌, length};
ghost use Rattle.std.specs.List.Sorted.{IsNonDecreasing};
ghost use Rattle.fl_marks.specs.Conflict.{owner_conflicts, AreFound};
ghost use Rattle.fl_marks.specs.Marking.{Marking};

use crate::lock::{Key, Kind, Range};

/// What keeps a marking, and can be asked which owners have a lock that conflicts with one that is wanted.
pub trait Conflicts {
    /// The mark of each byte.
    ghost marking: { Self → Marking };

    /// Finds those of these owners who have a lock that conflicts with one of this kind: `found` is set at the place
    /// of each. What is set already stays, and isn't asked for again. The owners are in ascending order, and one may
    /// stand there more than once.
    fn find_conflicting_owners(
        &self,
        key: &Key,
        range: &Range,
        kind: Kind,
        owners: &[u64],
        found: &mut [bool],
    )
        requires same_length { length found.old ≡ length owners.now }
        requires ascending { IsNonDecreasing owners.now }
        ensures { AreFound (owner_conflicts (marking self.now) key.now range.now.start range.now.end kind)
            owners.now found.old found.new };
}
