//! The agreement at the start of a session: what an INIT results in, and the reply to it.

ghost use Rattle.std.specs.Prelude.{◌≡◌, ◌+◌, ◌≤◌, ◌++◌, length, IsOk, OnErr, OnOk, vec_len, vec_capacity};
ghost use Rattle.fl_wire.specs.Append.{Appends};
ghost use Rattle.fl_wire.specs.Init.{again_bytes, agreed_bytes, init_spelling, init_step};
ghost use Rattle.fl_wire.specs.Spell.{IsReply};

use crate::append::{make_room, push_u16, push_u32, push_zeros};
use crate::frame::Frame;
use crate::layout::u32_at;
use crate::writing::{push_header, write_error};
use fl_order::{Errno, NoMemory};

// The version that is spoken: protocol 7.31 of `fuse.h`.
const MAJOR: u32 = 7;

const MINOR: u32 = 31;

// What is offered of INIT's flags: FUSE_POSIX_LOCKS and FUSE_FLOCK_LOCKS.
const OFFERED: u32 = 1 << 1 | 1 << 10;

// What an agreement tells the kernel besides: requests in the background, and from how many on it holds
// back; the most bytes of a write; the grain of times, in nanoseconds.
const MAX_BACKGROUND: u16 = 16;

const CONGESTION_THRESHOLD: u16 = 12;

const MAX_WRITE: u32 = 4096;

const TIME_GRAN: u32 = 1;

/// What an INIT results in.
#[derive(Clone, Copy, Debug, PartialEq, Eq)]
pub enum InitStep {
    /// It is answered with this error, and another INIT has to come.
    Refused(Errno),
    /// The kernel speaks a higher major version: the reply says 7.31, and it asks again.
    Again,
    /// The session begins. `flags` are those of the kernel's that are offered.
    Agreed {
        /// How many bytes the kernel reads ahead at most, as it asked.
        max_readahead: u32,
        /// The kernel's INIT flags (`FUSE_POSIX_LOCKS` and the like) that are offered too.
        flags: u32,
    },
}

/// What a message results in, read as an INIT: EINVAL if its body is shorter than 16 bytes, EPROTO for
/// a version below 7.31.
pub fn read_init(frame: &Frame) -> InitStep
    ensures { result ≡ init_step frame.now }
{
    let bytes = frame.as_bytes();
    if bytes.len() < 56 {
        return InitStep::Refused(Errno::EINVAL);
    }
    let major = u32_at(bytes, 40);
    if major < MAJOR {
        return InitStep::Refused(Errno::EPROTO);
    }
    if major > MAJOR {
        return InitStep::Again;
    }
    if u32_at(bytes, 44) < MINOR {
        return InitStep::Refused(Errno::EPROTO);
    }
    InitStep::Agreed {
        max_readahead: u32_at(bytes, 48),
        flags: u32_at(bytes, 52) & OFFERED,
    }
}

/// Appends the reply to an INIT: at most 80 bytes. An `Err` changes nothing, and doesn't come if there is
/// room for 80 more bytes; no memory is taken then.
pub fn write_init(unique: u64, step: &InitStep, out: &mut Vec<u8>) -> Result<(), NoMemory>
    ensures ok { OnOk result (out.new.items ≡ out.old.items ++ init_spelling unique step.now) }
    ensures reply { IsReply (init_spelling unique step.now) }
    ensures most { length (init_spelling unique step.now) ≤ 160 }
    ensures err { OnErr result (out.new.items ≡ out.old.items) }
    ensures room { vec_len out.old + 80 ≤ vec_capacity out.old → IsOk result }
    ensures in_place { vec_len out.old + 80 ≤ vec_capacity out.old → vec_capacity out.new ≡ vec_capacity out.old }
    ensures capacity { vec_capacity out.old ≤ vec_capacity out.new }
{
    match *step {
        InitStep::Refused(e) => return write_error(unique, e, out),
        InitStep::Again => {
            make_room(out, 80)?;
            push_header(out, 64, 0, unique);
            push_version(out);
        }
        InitStep::Agreed {
            max_readahead,
            flags,
        } => {
            make_room(out, 80)?;
            push_header(out, 64, 0, unique);
            push_agreed(out, max_readahead, flags);
        }
    }
    Ok(())
}

// Appends the version alone, and zeros.
fn push_version(out: &mut Vec<u8>)
    requires { vec_len out.old + 64 ≤ vec_capacity out.old }
    ensures items { Appends out.old.items again_bytes out.new.items }
    ensures capacity { vec_capacity out.new ≡ vec_capacity out.old }
{
    push_u32(out, MAJOR);
    push_u32(out, MINOR);
    push_zeros(out, 56);
}

// Appends what was agreed.
fn push_agreed(out: &mut Vec<u8>, max_readahead: u32, flags: u32)
    requires { vec_len out.old + 64 ≤ vec_capacity out.old }
    ensures items { Appends out.old.items (agreed_bytes max_readahead flags) out.new.items }
    ensures capacity { vec_capacity out.new ≡ vec_capacity out.old }
{
    push_u32(out, MAJOR);
    push_u32(out, MINOR);
    push_u32(out, max_readahead);
    push_u32(out, flags);
    push_u16(out, MAX_BACKGROUND);
    push_u16(out, CONGESTION_THRESHOLD);
    push_u32(out, MAX_WRITE);
    push_u32(out, TIME_GRAN);
    push_zeros(out, 36);
}
