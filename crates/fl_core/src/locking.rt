//! Lock requests: the tests that they meet, and the locks that they set or tell.

ghost use Rattle.std.specs.Prelude.{◌≡◌, ◌↔◌, true, false, Some, None, [], ◌∷◌, ◌++◌, if◌then◌else◌, IfErr, IfOk};
ghost use Rattle.std.specs.Prelude.{IfSome, OnOk, OnErr, IsNone};
ghost use Rattle.fl_marks.specs.Marking.{stroke_on, stroked};
ghost use Rattle.fl_marks.specs.Conflict.{IsLawful, SameElsewhere, SameOffNode};
ghost use Rattle.fl_marks.specs.Change.{cleared, after_change, after_changes};
ghost use Rattle.fl_waiting.specs.Circle.{is_deadlock};
ghost use Rattle.fl_waiting.specs.LockRequest.{key_of, start_of, end_of};
ghost use Rattle.fl_core.specs.Effects.{dropped, locked, unlocked};
ghost use Rattle.fl_core.specs.Replies.{ask_error, room_reply, set_reply, setlk_reply, setlkw_reply, getlk_reply};
ghost use Rattle.fl_core.specs.Inside.Touched.{WaitsNow};
ghost use Rattle.fl_waiting.specs.Waiting.{conflicts_with_held, is_blocked};

use fl_circle::close_circle;
use fl_dir::Dir;
use fl_marks::{Class, Key, Mark, Range};
use fl_order::{Answer, Errno, LockAsk};
use fl_ranges::Table;
use fl_waiting::lock_request::{key_of, lock_answer, mark_of, range_of};
use fl_waiting::{Claim, Parked, Request, Rules};

// FUSE_SETLK: sets or takes away a lock if its tests pass.
pub(crate) fn set_lock(
    directory: &Dir,
    locks: &mut Table,
    node: u64,
    ask: &LockAsk,
) -> Result<Answer, Errno>
    ensures reply { result ≡ setlk_reply locks.old.limit directory.now locks.old.marking node ask.now }
    ensures changed { locks.new.marking ≡ after_changes (locked node ask.now result) locks.old.marking }
    ensures lawful { IsLawful locks.old.marking → IsLawful locks.new.marking }
    ensures elsewhere { SameElsewhere (key_of node ask.now) locks.old.marking locks.new.marking }
    ensures limit { locks.new.limit ≡ locks.old.limit }
{
    let range = asked_range(directory, node, ask)?;
    change(locks, &key_of(node, ask), &range, mark_of(ask))
}

/// All locks of the owner on the node go, of this class.
pub(crate) fn unlock(locks: &mut Table, class: Class, node: u64, owner: u64)
    ensures marking { locks.new.marking ≡ after_change (unlocked class node owner) locks.old.marking }
    ensures lawful { IsLawful locks.old.marking → IsLawful locks.new.marking }
    ensures elsewhere { SameElsewhere (record { class = class; node = node; owner = owner })
        locks.old.marking locks.new.marking }
    ensures limit { locks.new.limit ≡ locks.old.limit }
{
    locks.erase_owner(&Key { class, node, owner });
}

/// The owner's whole-file lock on the node goes with `drop`, and if this was the node's last fh all its locks go.
pub(crate) fn release_locks(locks: &mut Table, node: u64, drop: bool, owner: u64, last: bool)
    ensures marking { locks.new.marking
        ≡ after_changes ((if last then cleared node ∷ [] else []) ++ dropped drop node owner) locks.old.marking }
    ensures lawful { IsLawful locks.old.marking → IsLawful locks.new.marking }
    ensures elsewhere { SameOffNode node locks.old.marking locks.new.marking }
    ensures limit { locks.new.limit ≡ locks.old.limit }
{
    if drop {
        unlock(locks, Class::Flock, node, owner);
    }
    if last {
        locks.erase_node(node);
    }
}

/// FUSE_SETLKW: the same, but a request that has to wait is parked, and has no reply yet.
pub(crate) fn set_or_wait(
    rules: Rules,
    directory: &Dir,
    locks: &mut Table,
    parked: &mut Parked,
    unique: u64,
    node: u64,
    ask: &LockAsk,
) -> Option<Result<Answer, Errno>>
    requires { locks.old.limit ≡ rules.runs }
    ensures reply { result ≡ setlkw_reply rules (record { directory = directory.now; parked = parked.old })
        locks.old.marking node ask.now }
    ensures told { IfSome result (λ reply.
        (locks.new.marking ≡ after_changes (locked node ask.now reply) locks.old.marking) × (parked.new ≡ parked.old)) }
    ensures waits { IsNone result → WaitsNow rules locks.old.marking locks.new.marking parked.old parked.new
        (record { unique = unique; node = node; ask = ask.now }) }
    ensures lawful { IsLawful locks.old.marking → IsLawful locks.new.marking }
    ensures elsewhere { SameElsewhere (key_of node ask.now) locks.old.marking locks.new.marking }
    ensures limit { locks.new.limit ≡ locks.old.limit }
{
    let range = match asked_range(directory, node, ask) {
        Ok(range) => range,
        Err(e) => return Some(Err(e)),
    };
    let (key, mark) = (key_of(node, ask), mark_of(ask));
    if !is_blocked(rules, locks, parked, &key, &range, mark) {
        return Some(set_range(locks, &key, &range, mark));
    }
    if is_deadlock(rules, locks, parked, &key, &range, mark) {
        return Some(Err(Errno::EDEADLK));
    }
    if parked.is_full(rules) {
        return Some(Err(Errno::ENOLCK));
    }
    let request = Request {
        unique,
        node,
        ask: *ask,
    };
    parked.push(Claim {
        request,
        key,
        range,
        mark,
    });
    None
}

// Whether a lock would close a circle of waiting owners if its request waited.
fn is_deadlock(
    rules: Rules,
    locks: &Table,
    parked: &Parked,
    key: &Key,
    range: &Range,
    mark: Option<Mark>,
) -> bool
    ensures { result ≡ is_deadlock rules locks.now.marking parked.now (stroke_on key.now range.now mark) mark }
{
    match mark {
        None => false,
        Some(mark) => close_circle(parked, rules, locks, key, range, mark.kind),
    }
}

// Whether a lock has to wait, behind all that are parked.
pub(crate) fn is_blocked(
    rules: Rules,
    locks: &Table,
    parked: &Parked,
    key: &Key,
    range: &Range,
    mark: Option<Mark>,
) -> bool
    ensures wait { result ≡ is_blocked rules locks.now.marking parked.now (stroke_on key.now range.now mark) mark }
    ensures clear { result ≡ false
        → conflicts_with_held locks.now.marking (stroke_on key.now range.now mark) mark ≡ false }
{
    match mark {
        None => false,
        Some(mark) => {
            locks.conflicts(key, range, mark.kind)
                || (rules.fair && parked.any_older_blocks(key, range, mark.kind))
        }
    }
}

// The bytes of the range get the mark, or lose theirs: if no lock that is held conflicts with it, and if there is
// room for the runs afterwards.
pub(crate) fn change(
    locks: &mut Table,
    key: &Key,
    range: &Range,
    mark: Option<Mark>,
) -> Result<Answer, Errno>
    ensures reply { result ≡ set_reply locks.old.limit locks.old.marking (stroke_on key.now range.now mark) mark }
    ensures granted { OnOk result (locks.new.marking ≡ stroked (stroke_on key.now range.now mark) locks.old.marking) }
    ensures refused { OnErr result (locks.new.marking ≡ locks.old.marking) }
    ensures lawful { IsLawful locks.old.marking → IsLawful locks.new.marking }
    ensures elsewhere { SameElsewhere key.now locks.old.marking locks.new.marking }
    ensures limit { locks.new.limit ≡ locks.old.limit }
{
    if conflicts_with_held(locks, key, range, mark) {
        return Err(Errno::EAGAIN);
    }
    set_range(locks, key, range, mark)
}

/// Whether a lock that is held keeps this one from being set.
pub(crate) fn conflicts_with_held(
    locks: &Table,
    key: &Key,
    range: &Range,
    mark: Option<Mark>,
) -> bool
    ensures { result ≡ conflicts_with_held locks.now.marking (stroke_on key.now range.now mark) mark }
{
    match mark {
        Some(own) => locks.conflicts(key, range, own.kind),
        None => false,
    }
}

/// The bytes of the range get the mark, or lose theirs, if there is room for the runs afterwards. It tests no conflict.
pub(crate) fn set_range(
    locks: &mut Table,
    key: &Key,
    range: &Range,
    mark: Option<Mark>,
) -> Result<Answer, Errno>
    ensures reply { result ≡ room_reply locks.old.limit locks.old.marking (stroke_on key.now range.now mark) }
    ensures granted { OnOk result (locks.new.marking ≡ stroked (stroke_on key.now range.now mark) locks.old.marking) }
    ensures refused { OnErr result (locks.new.marking ≡ locks.old.marking) }
    ensures lawful { conflicts_with_held locks.old.marking (stroke_on key.now range.now mark) mark ≡ false →
        IsLawful locks.old.marking → IsLawful locks.new.marking }
    ensures elsewhere { SameElsewhere key.now locks.old.marking locks.new.marking }
    ensures limit { locks.new.limit ≡ locks.old.limit }
{
    let set = match mark {
        Some(mark) => locks.put(key, range, mark),
        None => locks.erase(key, range),
    };
    match set {
        Ok(()) => Ok(Answer::Done),
        Err(_) => Err(Errno::ENOLCK),
    }
}

// FUSE_GETLK: tells the lock that keeps the one asked for from being set.
pub(crate) fn test_lock(
    directory: &Dir,
    locks: &Table,
    node: u64,
    ask: &LockAsk,
) -> Result<Answer, Errno>
    ensures { result ≡ getlk_reply directory.now locks.now.marking node ask.now }
{
    let range = asked_range(directory, node, ask)?;
    let key = key_of(node, ask);
    if key.class == Class::Flock {
        return Err(Errno::EINVAL);
    }
    let Some(mark) = mark_of(ask) else {
        return Err(Errno::EINVAL);
    };
    Ok(lock_answer(ask, locks.blocker(&key, &range, mark.kind)))
}

// The range of a lock request, by the tests that it meets whatever locks are held.
fn asked_range(directory: &Dir, node: u64, ask: &LockAsk) -> Result<Range, Errno>
    ensures error { IfErr result (λ e. ask_error directory.now node ask.now ≡ Some e) }
    ensures passed { OnOk result (ask_error directory.now node ask.now ≡ None) }
    ensures range { IfOk result (λ range. (range.start ≡ start_of ask.now) × (range.end ≡ end_of ask.now)) }
{
    if directory.node_of(ask.fh) != Some(node) {
        return Err(Errno::EBADF);
    }
    range_of(ask).ok_or(Errno::EINVAL)
}
