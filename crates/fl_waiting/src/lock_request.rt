//! What a lock request asks for, and what it is told of a lock.

ghost use Rattle.std.specs.Prelude.{◌≡◌, ◌↔◌, true, IfSome, IsNone};
ghost use Rattle.fl_waiting.specs.LockRequest.{end_of, is_flock, is_malformed, key_of, lock_answer};
ghost use Rattle.fl_waiting.specs.LockRequest.{mark_of, start_of, type_of};

use fl_marks::{Class, Held, Key, Kind, LAST_BYTE, Mark, Range};
use fl_order::{Answer, LockAsk};

// The lock types of Linux `fcntl.h`.
const READ: u32 = 0;

const WRITE: u32 = 1;

const UNLOCK: u32 = 2;

/// The bytes of a lock request; none if the request is malformed.
pub fn range_of(ask: &LockAsk) -> Option<Range>
    ensures malformed { IsNone result ↔ (is_malformed ask.now ≡ true) }
    ensures range { IfSome result (λ range. (range.start ≡ start_of ask.now) × (range.end ≡ end_of ask.now)) }
{
    if ask.flags > 1 || ask.kind > UNLOCK {
        return None;
    }
    if is_flock(ask) {
        return Some(Range::whole());
    }
    if ask.start > ask.end || ask.end > LAST_BYTE {
        return None;
    }
    Some(Range {
        start: ask.start,
        end: ask.end,
    })
}

/// Whose lock it is: the owner's on this node, of the class that the flags say.
pub fn key_of(node: u64, ask: &LockAsk) -> Key
    ensures { result ≡ key_of node ask.now }
{
    Key {
        class: if is_flock(ask) {
            Class::Flock
        } else {
            Class::Record
        },
        node,
        owner: ask.owner,
    }
}

/// The mark that its bytes get; none if they lose theirs.
pub fn mark_of(ask: &LockAsk) -> Option<Mark>
    ensures { result ≡ mark_of ask.now }
{
    let kind = match ask.kind {
        READ => Kind::Read,
        WRITE => Kind::Write,
        _ => return None,
    };
    Some(Mark { kind, pid: ask.pid })
}

/// What a GETLK is told if this lock conflicts with it, or none.
pub fn lock_answer(ask: &LockAsk, held: Option<Held>) -> Answer
    ensures { result ≡ lock_answer ask.now held }
{
    match held {
        None => Answer::Lock {
            start: ask.start,
            end: ask.end,
            kind: UNLOCK,
            pid: ask.pid,
        },
        Some(held) => Answer::Lock {
            start: held.start,
            end: held.end,
            kind: type_of(held.mark.kind),
            pid: held.mark.pid,
        },
    }
}

fn type_of(kind: Kind) -> u32
    ensures { result ≡ type_of kind }
{
    match kind {
        Kind::Read => READ,
        Kind::Write => WRITE,
    }
}

// Whether it asks for a lock of the whole file.
fn is_flock(ask: &LockAsk) -> bool
    ensures { result ≡ is_flock ask.now }
{
    ask.flags & 1 == 1
}
