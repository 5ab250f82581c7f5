//! The reply to a READDIR, which is laid out entry by entry: its header's length is told at the end.

ghost use Rattle.std.specs.Prelude.{◌≡◌, ◌↔◌, ◌+◌, ◌≤◌, [], ◌++◌, false, true, length, IsTrue};
ghost use Rattle.std.specs.Prelude.{vec_len, vec_capacity};
ghost use Rattle.fl_wire.specs.Append.{Appends};
ghost use Rattle.fl_wire.specs.Listing.{dirent_of, dirent_bytes, dirent_fields, EndsList, FitsBehind};
ghost use Rattle.fl_wire.specs.Spell.{header_bytes, IsReply};

use crate::append::{push_bytes, push_u32, push_u64, push_zeros};
use crate::writing::push_header;
use byteorder::{ByteOrder, LittleEndian};

// The bytes of a reply's header, and those of an entry's fields.
const HEADER_BYTES: usize = 16;

const FIELD_BYTES: usize = 24;

/// Begins a reply without entries, whose header doesn't tell its length yet. No memory is taken.
pub fn begin_list(unique: u64, out: &mut Vec<u8>)
    requires empty { out.old.items ≡ [] }
    requires room { 4112 ≤ vec_capacity out.old }
    ensures items { out.new.items ≡ header_bytes 0 0 unique }
    ensures capacity { vec_capacity out.new ≡ vec_capacity out.old }
{
    push_header(out, 0, 0, unique);
}

/// Appends an entry, if the entries then have at most `most` bytes together, and says whether it did. The kind of file
/// in its mode is told. No memory is taken.
pub fn append_dirent(
    node: u64,
    cookie: u64,
    mode: u32,
    name: &[u8],
    most: u32,
    out: &mut Vec<u8>,
) -> bool
    requires short { length name.now ≤ 255 }
    requires most { most ≤ 4096 }
    requires room { 4112 ≤ vec_capacity out.old }
    ensures fits { IsTrue result ↔ FitsBehind out.old.items most (dirent_of node cookie mode name.now) }
    ensures done { result ≡ true → out.new.items ≡ out.old.items ++ dirent_bytes (dirent_of node cookie mode name.now) }
    ensures full { result ≡ false → out.new.items ≡ out.old.items }
    ensures capacity { vec_capacity out.new ≡ vec_capacity out.old }
{
    let padding = (8 - name.len() % 8) % 8;
    let len = FIELD_BYTES + name.len() + padding;
    if out.len() + len > HEADER_BYTES + most as usize {
        return false;
    }
    push_fields(out, node, cookie, mode, name);
    push_bytes(out, name);
    push_zeros(out, padding);
    true
}

// Appends what stands before an entry's name.
fn push_fields(out: &mut Vec<u8>, node: u64, cookie: u64, mode: u32, name: &[u8])
    requires short { length name.now ≤ 255 }
    requires room { vec_len out.old + 24 ≤ vec_capacity out.old }
    ensures items { Appends out.old.items (dirent_fields (dirent_of node cookie mode name.now)) out.new.items }
    ensures len { vec_len out.new ≡ vec_len out.old + 24 }
    ensures capacity { vec_capacity out.new ≡ vec_capacity out.old }
{
    push_u64(out, node);
    push_u64(out, cookie);
    push_u32(out, name.len() as u32);
    push_u32(out, mode >> 12);
}

/// Ends the reply: its header tells its length. No memory is taken.
pub fn end_list(out: &mut Vec<u8>)
    requires header { 16 ≤ length out.old.items }
    requires bounded { length out.old.items ≤ 4112 }
    ensures ends { EndsList out.old.items out.new.items }
    ensures reply { IsReply out.new.items }
    ensures capacity { vec_capacity out.new ≡ vec_capacity out.old }
{
    let len = out.len() as u32;
    LittleEndian::write_u32(out, len);
}
