//! The writing of a reply: its header and what stands behind it, as bytes.

ghost use Rattle.std.specs.Prelude.{◌≡◌, ◌+◌, ◌≤◌, ◌++◌, length, IsOk, OnErr, OnOk, vec_len, vec_capacity};
ghost use Rattle.fl_wire.specs.Append.{Appends};
ghost use Rattle.fl_wire.specs.Spell.{answer_bytes, attr_bytes, entry_bytes, header_bytes, lock_bytes, minus};
ghost use Rattle.fl_wire.specs.Spell.{open_bytes, reply_bytes, statfs_bytes, statfs_spelling, spelling_of, IsReply};

use crate::append::{make_room, push_u32, push_u64, push_zeros};
use fl_order::{Answer, Attr, Errno, NoMemory, Told};

// The size of blocks that attributes tell, in bytes.
const BLOCK_SIZE: u32 = 4096;

// The most bytes of a name.
const NAME_BYTES: u32 = 255;

/// Appends the bytes of a reply: at most 160. An `Err` changes nothing, and doesn't come if there is
/// room for 160 more bytes; no memory is taken then.
pub fn write_told(told: &Told, out: &mut Vec<u8>) -> Result<(), NoMemory>
    ensures ok { OnOk result (out.new.items ≡ out.old.items ++ spelling_of told.now) }
    ensures reply { IsReply (spelling_of told.now) }
    ensures most { length (spelling_of told.now) ≤ 160 }
    ensures err { OnErr result (out.new.items ≡ out.old.items) }
    ensures room { vec_len out.old + 160 ≤ vec_capacity out.old → IsOk result }
    ensures in_place { vec_len out.old + 160 ≤ vec_capacity out.old → vec_capacity out.new ≡ vec_capacity out.old }
    ensures capacity { vec_capacity out.old ≤ vec_capacity out.new }
{
    match told.result {
        Ok(answer) => write_answer(told.unique, &answer, out),
        Err(e) => write_error(told.unique, e, out),
    }
}

// Appends the reply with this answer.
fn write_answer(unique: u64, answer: &Answer, out: &mut Vec<u8>) -> Result<(), NoMemory>
    ensures ok { OnOk result (out.new.items ≡ out.old.items ++ reply_bytes unique (Ok answer.now)) }
    ensures err { OnErr result (out.new.items ≡ out.old.items) }
    ensures room { vec_len out.old + 160 ≤ vec_capacity out.old → IsOk result }
    ensures in_place { vec_len out.old + 160 ≤ vec_capacity out.old → vec_capacity out.new ≡ vec_capacity out.old }
    ensures capacity { vec_capacity out.old ≤ vec_capacity out.new }
{
    let body = body_len(answer);
    make_room(out, 16 + body as usize)?;
    push_header(out, body, 0, unique);
    push_answer(out, answer);
    Ok(())
}

/// Appends the reply that is this error: a header alone.
pub(crate) fn write_error(unique: u64, e: Errno, out: &mut Vec<u8>) -> Result<(), NoMemory>
    ensures ok { OnOk result (out.new.items ≡ out.old.items ++ reply_bytes unique (Err e)) }
    ensures err { OnErr result (out.new.items ≡ out.old.items) }
    ensures room { vec_len out.old + 16 ≤ vec_capacity out.old → IsOk result }
    ensures in_place { vec_len out.old + 16 ≤ vec_capacity out.old → vec_capacity out.new ≡ vec_capacity out.old }
    ensures capacity { vec_capacity out.old ≤ vec_capacity out.new }
{
    make_room(out, 16)?;
    push_header(out, 0, minus(e), unique);
    Ok(())
}

/// Appends the reply to a STATFS: how many files there may be, and how many of these are free. An `Err` changes
/// nothing, and doesn't come if there is room for 96 more bytes; no memory is taken then.
pub fn write_statfs(unique: u64, files: u64, free: u64, out: &mut Vec<u8>) -> Result<(), NoMemory>
    ensures ok { OnOk result (out.new.items ≡ out.old.items ++ statfs_spelling unique files free) }
    ensures reply { IsReply (statfs_spelling unique files free) }
    ensures most { length (statfs_spelling unique files free) ≤ 160 }
    ensures err { OnErr result (out.new.items ≡ out.old.items) }
    ensures room { vec_len out.old + 96 ≤ vec_capacity out.old → IsOk result }
    ensures in_place { vec_len out.old + 96 ≤ vec_capacity out.old → vec_capacity out.new ≡ vec_capacity out.old }
    ensures capacity { vec_capacity out.old ≤ vec_capacity out.new }
{
    make_room(out, 96)?;
    push_header(out, 80, 0, unique);
    push_statfs(out, files, free);
    Ok(())
}

// Minus the number of an error, as a number of 32 bits in two's complement.
fn minus(e: Errno) -> u32
    ensures { result ≡ minus e }
{
    e.number().wrapping_neg()
}

/// Appends a reply's header, for a body of this many bytes.
pub(crate) fn push_header(out: &mut Vec<u8>, body: u32, error: u32, unique: u64)
    requires small { body ≤ 8192 }
    requires room { vec_len out.old + 16 ≤ vec_capacity out.old }
    ensures items { Appends out.old.items (header_bytes body error unique) out.new.items }
    ensures len { vec_len out.new ≡ vec_len out.old + 16 }
    ensures capacity { vec_capacity out.new ≡ vec_capacity out.old }
{
    push_u32(out, 16 + body);
    push_u32(out, error);
    push_u64(out, unique);
}

// How many bytes an answer has behind its header.
#[tactic(auto, using(crate::proofs::Appending::part_lengths))]
fn body_len(answer: &Answer) -> u32
    ensures value { result ≡ length (answer_bytes answer.now) }
    ensures most { result ≤ 144 }
{
    match answer {
        Answer::Done => 0,
        Answer::Entry(_) => 128,
        Answer::Attr(_) => 104,
        Answer::Open(_) => 16,
        Answer::Made(_, _) => 144,
        Answer::Lock { .. } => 24,
    }
}

// Appends what stands behind the header.
#[tactic(auto, using(crate::proofs::Appending::part_lengths))]
fn push_answer(out: &mut Vec<u8>, answer: &Answer)
    requires { vec_len out.old + length (answer_bytes answer.now) ≤ vec_capacity out.old }
    ensures items { Appends out.old.items (answer_bytes answer.now) out.new.items }
    ensures capacity { vec_capacity out.new ≡ vec_capacity out.old }
{
    match *answer {
        Answer::Done => {}
        Answer::Entry(attr) => push_entry(out, attr),
        Answer::Attr(attr) => {
            push_zeros(out, 16);
            push_attr(out, attr);
        }
        Answer::Open(fh) => push_open(out, fh),
        Answer::Made(attr, fh) => {
            push_entry(out, attr);
            push_open(out, fh);
        }
        Answer::Lock {
            start,
            end,
            kind,
            pid,
        } => push_lock(out, start, end, kind, pid),
    }
}

// Appends a lock record.
fn push_lock(out: &mut Vec<u8>, start: u64, end: u64, kind: u32, pid: u32)
    requires { vec_len out.old + 24 ≤ vec_capacity out.old }
    ensures items { Appends out.old.items (lock_bytes start end kind pid) out.new.items }
    ensures capacity { vec_capacity out.new ≡ vec_capacity out.old }
{
    push_u64(out, start);
    push_u64(out, end);
    push_u32(out, kind);
    push_u32(out, pid);
}

// Appends a name that was looked up.
fn push_entry(out: &mut Vec<u8>, attr: Attr)
    requires { vec_len out.old + 128 ≤ vec_capacity out.old }
    ensures items { Appends out.old.items (entry_bytes attr) out.new.items }
    ensures len { vec_len out.new ≡ vec_len out.old + 128 }
    ensures capacity { vec_capacity out.new ≡ vec_capacity out.old }
{
    push_u64(out, attr.node);
    push_zeros(out, 32);
    push_attr(out, attr);
}

// Appends an open file.
fn push_open(out: &mut Vec<u8>, fh: u64)
    requires { vec_len out.old + 16 ≤ vec_capacity out.old }
    ensures items { Appends out.old.items (open_bytes fh) out.new.items }
    ensures len { vec_len out.new ≡ vec_len out.old + 16 }
    ensures capacity { vec_capacity out.new ≡ vec_capacity out.old }
{
    push_u64(out, fh);
    push_zeros(out, 8);
}

// Appends attributes. The words between the node and the mode are sizes and times.
fn push_attr(out: &mut Vec<u8>, attr: Attr)
    requires { vec_len out.old + 88 ≤ vec_capacity out.old }
    ensures items { Appends out.old.items (attr_bytes attr) out.new.items }
    ensures len { vec_len out.new ≡ vec_len out.old + 88 }
    ensures capacity { vec_capacity out.new ≡ vec_capacity out.old }
{
    push_u64(out, attr.node);
    push_zeros(out, 52);
    push_u32(out, attr.mode);
    push_u32(out, attr.nlink);
    push_u32(out, attr.uid);
    push_u32(out, attr.gid);
    push_zeros(out, 4);
    push_u32(out, BLOCK_SIZE);
    push_zeros(out, 4);
}

// Appends the room of a STATFS's reply. There are no blocks.
fn push_statfs(out: &mut Vec<u8>, files: u64, free: u64)
    requires { vec_len out.old + 80 ≤ vec_capacity out.old }
    ensures items { Appends out.old.items (statfs_bytes files free) out.new.items }
    ensures capacity { vec_capacity out.new ≡ vec_capacity out.old }
{
    push_zeros(out, 24);
    push_u64(out, files);
    push_u64(out, free);
    push_u32(out, BLOCK_SIZE);
    push_u32(out, NAME_BYTES);
    push_u32(out, BLOCK_SIZE);
    push_zeros(out, 28);
}
