//! A lock, held or wanted.

ghost use Rattle.std.specs.Prelude.{◌≡◌, option_map, ◌∷◌, [], true};
ghost use Rattle.std.specs.List.{list_any};
ghost use Rattle.fl_marks.specs.Conflict.{kinds_conflict};
ghost use Rattle.fl_waiting.specs.Waiting.{older_blocks};
ghost use Rattle.fl_locks.specs.LockRows.{lock_on, goes_first};
ghost use Rattle.fl_locks.specs.Inside.{meant};

use fl_marks::{Class, Key, Kind, Run};
use fl_waiting::Claim;

/// Bytes of a key with a kind, both ends included.
#[derive(Clone, Copy)]
pub(crate) struct Lock {
    pub key: Key,
    pub start: u64,
    pub end: u64,
    pub kind: Kind,
}

// The lock that a run holds.
pub(crate) fn lock_on(run: &Run) -> Lock
    ensures { meant result ≡ lock_on run.now }
{
    Lock {
        key: run.key,
        start: run.start,
        end: run.end,
        kind: run.mark.kind,
    }
}

// Whether another lock is in the way of one that is wanted.
pub(crate) fn is_in_the_way(wanted: &Lock, other: &Lock) -> bool
    ensures { result ≡ older_blocks (meant wanted.now) (meant other.now) }
{
    let (own, its) = (&wanted.key, &other.key);
    (own.class as u8 == its.class as u8 && (own.node == its.node && own.owner != its.owner))
        && ((other.start <= wanted.end && wanted.start <= other.end)
            && kinds_conflict(wanted.kind, other.kind))
}

// Whether one of the two is for a write lock.
fn kinds_conflict(kind: Kind, other: Kind) -> bool
    ensures { result ≡ kinds_conflict kind other }
{
    match kind {
        Kind::Read => other == Kind::Write,
        Kind::Write => true,
    }
}

// Whether a request goes, under fair rules, before one that is younger and for this lock.
pub(crate) fn goes_first(wanted: &Lock, older: &Claim) -> bool
    ensures { result ≡ goes_first (meant wanted.now) older.now.request }
{
    match (older.key.class, older.mark) {
        (Class::Record, Some(mark)) => is_in_the_way(
            wanted,
            &Lock {
                key: older.key,
                start: older.range.start,
                end: older.range.end,
                kind: mark.kind,
            },
        ),
        _ => false,
    }
}
