//! The record locks that parked requests want, as a search for a circle of owners copies them.

ghost use Rattle.std.specs.Prelude.{◌≡◌, ◌+◌, ◌++◌, ◌≤◌, ◌<◌, map, option_map, length, take};
ghost use Rattle.fl_arena.specs.Chains.{items};
ghost use Rattle.fl_marks.specs.Conflict.{kinds_conflict};
ghost use Rattle.fl_waiting.specs.Inside.Claims.{requests_of};
ghost use Rattle.fl_waiting.specs.Inside.Copies.{numbered, one_of};
ghost use Rattle.fl_waiting.specs.Waiting.{is_waiting, older_blocks, wish_of, wishes};
ghost use Rattle.fl_waiting.specs.Wanted.{meant, AreNumbered};

use crate::claim::Claim;
use crate::parked::{MOST_PARKED, Parked};
use fl_arena::Arena;
use fl_marks::{Class, Key, Kind, Range};

/// A lock that is wanted.
#[derive(Clone, Copy)]
pub struct Wanted {
    pub key: Key,
    pub range: Range,
    pub kind: Kind,
    /// How many were wanted before.
    pub place: u32,
}

impl Parked {
    /// Copies the record locks that requests wait for, the oldest first, to the front of the room, and tells how many
    /// they are. Each is numbered by its place.
    pub fn copy_wanted(&self, room: &mut [Wanted]) -> usize
        requires few { length self.now ≤ length room.old }
        requires fits { length room.old ≤ MOST_PARKED }
        ensures few { result ≤ length room.new }
        ensures wanted { map meant (take result room.new) ≡ wishes self.now }
        ensures numbered { AreNumbered 0 (take result room.new) }
    {
        copy_wanted(&self.claims, room)
    }

    /// Whether a request of this owner for a record lock waits.
    pub fn has_wish_of(&self, owner: u64) -> bool
        ensures { result ≡ is_waiting owner self.now }
    {
        let cursor = self.claims.first_where(0, |claim| {
            matches!(wanted_of(claim), Some(wanted) if wanted.key.owner == owner)
        });
        self.claims.item(&cursor).is_some()
    }
}

// Copies the record locks that requests wait for, the oldest first, to the front of the room, and tells how many they
// are.
fn copy_wanted(claims: &Arena<Claim>, room: &mut [Wanted]) -> usize
    requires chain { 0 < length claims.now.chains }
    requires few { length (items claims.now 0) ≤ length room.old }
    requires fits { length room.old ≤ MOST_PARKED }
    ensures few { result ≤ length room.new }
    ensures wanted { map meant (take result room.new) ≡ wishes (requests_of claims.now) }
    ensures numbered { AreNumbered 0 (take result room.new) }
{
    let mut count = 0;
    let mut cursor = claims.cursor(0);
    while let Some(claim) = claims.item(&cursor) {
        count = put(room, count, wanted_of(claim));
        claims.step(&mut cursor);
    }
    count
}

// Puts one more behind the first ones, if there is one, and tells how many there are.
fn put(room: &mut [Wanted], count: usize, wanted: Option<Wanted>) -> usize
    requires few { count < length room.old }
    requires fits { length room.old ≤ MOST_PARKED }
    ensures few { result ≤ count + 1 }
    ensures put { take result room.new ≡ take count room.old ++ one_of (option_map (numbered count) wanted) }
{
    let Some(wanted) = wanted else {
        return count;
    };
    room[count] = Wanted {
        place: count as u32,
        ..wanted
    };
    count + 1
}

// The record lock that a request waits for, if it is for one; its place isn't known yet.
pub(crate) fn wanted_of(claim: &Claim) -> Option<Wanted>
    ensures { option_map meant result ≡ wish_of claim.now.request }
{
    match (claim.key.class, claim.mark) {
        (Class::Record, Some(mark)) => Some(Wanted {
            key: claim.key,
            range: claim.range,
            kind: mark.kind,
            place: 0,
        }),
        _ => None,
    }
}

/// Whether an older lock that is wanted blocks this one.
pub fn older_blocks(wanted: &Wanted, older: &Wanted) -> bool
    ensures { result ≡ older_blocks (meant wanted.now) (meant older.now) }
{
    let (own, other) = (&wanted.key, &older.key);
    (own.class == other.class && (own.node == other.node && own.owner != other.owner))
        && ((older.range.start <= wanted.range.end && wanted.range.start <= older.range.end)
            && kinds_conflict(wanted.kind, older.kind))
}

// Whether one of the two is for a write lock.
fn kinds_conflict(kind: Kind, other: Kind) -> bool
    ensures { result ≡ kinds_conflict kind other }
{
    match kind {
        Kind::Read => other == Kind::Write,
        Kind::Write => true,
    }
}
