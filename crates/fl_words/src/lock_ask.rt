//! What a lock request asks for, both ways.

ghost use Rattle.std.specs.Prelude.{◌≡◌, ◌+◌, ◌≤◌, ◌++◌, ◌∷◌, length, vec_capacity, IfSome, IsSome};
ghost use Rattle.std.specs.Str.{IsUtf8};
ghost use Rattle.fl_order.specs.Sayable.{FitsLock};
ghost use Rattle.fl_order.specs.declared.order.LockAsk.{LockAsk};
ghost use Rattle.fl_words.specs.State.{lock_ask_text};

use crate::spelling::push_numbers;
use crate::words::{u32_number, u32_word, u64_word};
use fl_order::LockAsk;

/// A space, and what a lock request asks for.
pub fn push_lock_ask(text: &mut Vec<u8>, ask: &LockAsk)
    requires room { length text.old.items + 147 ≤ vec_capacity text.old }
    ensures bytes { text.new.items ≡ text.old.items ++ 32 ∷ lock_ask_text ask.now }
    ensures few { length text.new.items ≤ length text.old.items + 147 }
    ensures capacity { vec_capacity text.old ≤ vec_capacity text.new }
    ensures utf8 { IsUtf8 text.old.items → IsUtf8 text.new.items }
{
    let LockAsk {
        fh,
        owner,
        start,
        end,
        kind,
        pid,
        flags,
    } = *ask;
    let (kind, pid, flags) = (u64::from(kind), u64::from(pid), u64::from(flags));
    push_numbers(text, &[fh, owner, start, end, kind, pid, flags]);
}

/// What a lock request asks for; none if it has any other spelling.
pub fn read_lock_ask(text: &str) -> Option<LockAsk>
    ensures fits { IfSome result FitsLock }
    ensures spelled { IfSome result (λ ask. text.now ≡ lock_ask_text ask) }
    ensures only { (ask : LockAsk) → FitsLock ask → text.now ≡ lock_ask_text ask → IsSome result }
{
    let (fh, rest) = u64_word(text)?;
    let (owner, rest) = u64_word(rest)?;
    let (start, rest) = u64_word(rest)?;
    let (end, rest) = u64_word(rest)?;
    let (kind, rest) = u32_word(rest)?;
    let (pid, rest) = u32_word(rest)?;
    let flags = u32_number(rest)?;
    Some(LockAsk {
        fh,
        owner,
        start,
        end,
        kind,
        pid,
        flags,
    })
}
