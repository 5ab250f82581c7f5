//! The search for a circle of owners, each of whom the next one blocks.

ghost use Rattle.std.specs.Prelude.{◌≡◌, ◌≤◌, ◌<◌, ◌==◌, ℕ, false, true, length, take, slice_index_or, MatchOption};
ghost use Rattle.std.specs.List.{list_any};
ghost use Rattle.std.specs.List.Sorted.{IsNonDecreasing};
ghost use Rattle.fl_marks.specs.Conflict.{owner_conflicts, AreFound};
ghost use Rattle.fl_waiting.specs.Circle.{closes_circle, leads};
ghost use Rattle.fl_waiting.specs.Wanted.{meant};
ghost use Rattle.fl_circle.specs.Inside.Searching.{blocks_among, precedes, precedes_by, is_set, owners_of, IsByOwner};
ghost use Rattle.fl_circle.specs.Inside.Searching.{IsReachedByOwner};

use fl_marks::{Class, Conflicts, Key, Kind, Range};
use fl_waiting::{MOST_PARKED, Parked, Rules, Wanted, older_blocks};

// If no more wait, a search makes room for so many, and else for the most that rules may allow: room costs time.
const FEW_PARKED: usize = 256;

/// Whether a request for this lock would close a circle if it waited. Requests for whole-file locks never do.
pub fn close_circle<T: Conflicts>(
    parked: &Parked,
    rules: Rules,
    locks: &T,
    key: &Key,
    range: &Range,
    kind: Kind,
) -> bool
    ensures { result ≡ closes_circle rules (T.marking locks.now) parked.now
        (record { key = key.now; start = range.now.start; end = range.now.end; kind = kind }) }
{
    if let Class::Flock = key.class {
        return false;
    }
    if parked.is_empty() {
        return false;
    }
    let asked = Wanted {
        key: *key,
        range: *range,
        kind,
        place: 0,
    };
    if parked.count() <= FEW_PARKED {
        closes_among::<T, FEW_PARKED>(rules, locks, parked, asked)
    } else {
        closes_among::<T, MOST_PARKED>(rules, locks, parked, asked)
    }
}

// Whether this lock would close a circle among these requests. It makes room for N of them, and takes no memory. That
// room, of up to 75 kB on the stack, is for the orders that need it alone.
#[inline(never)]
fn closes_among<T: Conflicts, const N: usize>(
    rules: Rules,
    locks: &T,
    parked: &Parked,
    asked: Wanted,
) -> bool
    requires few { length parked.now ≤ N }
    requires fits { N ≤ MOST_PARKED }
    ensures { result ≡ closes_circle rules (T.marking locks.now) parked.now (meant asked) }
{
    let mut asked = asked;
    let mut room = [asked; N];
    let count = parked.copy_wanted(&mut room);
    asked.place = count as u32;
    let wanted = &mut room[..count];
    wanted.sort_unstable_by_key(|wanted| wanted.key.owner);
    leads_back::<T, N>(rules, locks, wanted, &asked)
}

// Whether an older one, of those that are copied, blocks this one.
fn precedes(wanted: &Wanted, older: &Wanted) -> bool
    ensures { result ≡ precedes wanted.now older.now }
{
    older.place < wanted.place && older_blocks(wanted, older)
}

// Whether a request waits for its own owner, through others, which stand in the order of their owners.
fn leads_back<T: Conflicts, const N: usize>(
    rules: Rules,
    locks: &T,
    wanted: &[Wanted],
    asked: &Wanted,
) -> bool
    requires few { length wanted.now ≤ N }
    requires fits { N ≤ MOST_PARKED }
    requires sorted { IsByOwner wanted.now }
    ensures { result ≡ leads (λ (w : Wanted). w.key.owner) (blocks_among rules (T.marking locks.now) wanted.now)
        wanted.now asked.now asked.now.key.owner }
{
    let room = owners_of::<N>(wanted);
    let owners = &room[..wanted.len()];
    let mut reached = [false; N];
    let reached = &mut reached[..wanted.len()];
    let mut visited = [false; N];
    reach(rules, locks, asked, wanted, owners, reached);
    while let Some(place) = next(reached, &visited) {
        visited[place] = true;
        let request = &wanted[place];
        if waits_for(rules, locks, request, wanted, asked.key.owner) {
            return true;
        }
        reach(rules, locks, request, wanted, owners, reached);
    }
    false
}

// The owners of requests, at the front.
fn owners_of<const N: usize>(wanted: &[Wanted]) -> [u64; N]
    requires few { length wanted.now ≤ N }
    requires fits { N ≤ MOST_PARKED }
    ensures { take (length wanted.now) result ≡ owners_of wanted.now }
{
    let mut owners = [0; N];
    for i in 0..wanted.len() {
        owners[i] = wanted[i].key.owner;
    }
    owners
}

// A place that is reached, and wasn't visited yet.
fn next<const N: usize>(reached: &[bool], visited: &[bool; N]) -> Option<usize>
    requires few { length reached.now ≤ N }
    requires fits { N ≤ MOST_PARKED }
    ensures { MatchOption result
        ((i : ℕ) → i < length reached.now → is_set reached.now i ≡ true → is_set visited.now i ≡ true)
        (λ i. (i < length reached.now) × (is_set reached.now i ≡ true) × (is_set visited.now i ≡ false)) }
{
    for i in 0..reached.len() {
        if reached[i] && !visited[i] {
            return Some(i);
        }
    }
    None
}

// Marks every owner that blocks the request. The locks are asked once.
fn reach<T: Conflicts>(
    rules: Rules,
    locks: &T,
    request: &Wanted,
    wanted: &[Wanted],
    owners: &[u64],
    reached: &mut [bool],
)
    requires owners { owners.now ≡ owners_of wanted.now }
    requires long { length reached.old ≡ length owners.now }
    requires sorted { IsNonDecreasing owners.now }
    requires by_owner { IsReachedByOwner wanted.now reached.old }
    ensures { AreFound (blocks_among rules (T.marking locks.now) wanted.now request.now) owners.now reached.old
        reached.new }
{
    if let Class::Flock = request.key.class {
        return;
    }
    locks.find_conflicting_owners(&request.key, &request.range, request.kind, owners, reached);
    if rules.fair {
        reach_older(request, wanted, owners, reached);
    }
}

// The same for those alone whose older request blocks it.
fn reach_older(request: &Wanted, wanted: &[Wanted], owners: &[u64], reached: &mut [bool])
    requires owners { owners.now ≡ owners_of wanted.now }
    requires long { length reached.old ≡ length owners.now }
    requires by_owner { IsReachedByOwner wanted.now reached.old }
    ensures { AreFound (λ q. list_any (precedes_by request.now q) wanted.now) owners.now reached.old reached.new }
{
    for i in 0..wanted.len() {
        let is_reached = reached[i];
        reach_one(request, &wanted[i], is_reached, owners, reached);
    }
}

// Marks the owner of one lock that is wanted, if that was wanted before and blocks the request. If its
// own place is reached, they all are.
fn reach_one(
    request: &Wanted,
    older: &Wanted,
    is_reached: bool,
    owners: &[u64],
    reached: &mut [bool],
)
    requires long { length reached.old ≡ length owners.now }
    requires known { is_reached ≡ true → (i : ℕ) → i < length owners.now →
        (older.now.key.owner == slice_index_or owners.now i 0) ≡ true → is_set reached.old i ≡ true }
    ensures { AreFound (λ q. precedes_by request.now q older.now) owners.now reached.old reached.new }
{
    if !is_reached && precedes(request, older) {
        reach_owner(older.key.owner, owners, reached);
    }
}

// The places of this owner are reached.
fn reach_owner(owner: u64, owners: &[u64], reached: &mut [bool])
    requires long { length reached.old ≡ length owners.now }
    ensures { AreFound (λ q. owner == q) owners.now reached.old reached.new }
{
    for i in 0..owners.len() {
        if owner == owners[i] {
            reached[i] = true;
        }
    }
}

// Whether this owner blocks the request.
fn waits_for<T: Conflicts>(
    rules: Rules,
    locks: &T,
    request: &Wanted,
    wanted: &[Wanted],
    owner: u64,
) -> bool
    ensures { result ≡ blocks_among rules (T.marking locks.now) wanted.now request.now owner }
{
    if let Class::Flock = request.key.class {
        return false;
    }
    is_held_by(locks, request, owner) || (rules.fair && is_blocked_by_older(request, wanted, owner))
}

// Whether a lock of this owner conflicts with the one that is wanted.
fn is_held_by<T: Conflicts>(locks: &T, request: &Wanted, owner: u64) -> bool
    ensures { result ≡ owner_conflicts (T.marking locks.now) request.now.key request.now.range.start
        request.now.range.end request.now.kind owner }
{
    let mut found = [false];
    locks.find_conflicting_owners(
        &request.key,
        &request.range,
        request.kind,
        &[owner],
        &mut found,
    );
    found[0]
}

// Whether an older request of this owner blocks it.
fn is_blocked_by_older(request: &Wanted, wanted: &[Wanted], owner: u64) -> bool
    ensures { result ≡ list_any (precedes_by request.now owner) wanted.now }
{
    for older in wanted {
        if older.key.owner == owner && precedes(request, older) {
            return true;
        }
    }
    false
}
