//! Room for a reply, and numbers appended to it, with the lowest byte first.

ghost use Rattle.std.specs.Prelude.{◌≡◌, ◌+◌, ◌≤◌, ◌++◌, length, replicate, IsOk, OnOk, vec_len, vec_capacity};
ghost use Rattle.fl_wire.specs.Append.{Appends};
ghost use Rattle.byteorder.specs.Endian.{little_bytes};

use byteorder::{ByteOrder, LittleEndian};
use fl_order::NoMemory;

/// Makes room for this many bytes more; if it is there, nothing changes. An `Err` changes nothing.
pub(crate) fn make_room(out: &mut Vec<u8>, count: usize) -> Result<(), NoMemory>
    ensures items { out.new.items ≡ out.old.items }
    ensures len { vec_len out.new ≡ vec_len out.old }
    ensures ok { OnOk result (vec_len out.new + count ≤ vec_capacity out.new) }
    ensures capacity { vec_capacity out.old ≤ vec_capacity out.new }
    ensures room { vec_len out.old + count ≤ vec_capacity out.old → IsOk result }
    ensures in_place { vec_len out.old + count ≤ vec_capacity out.old → vec_capacity out.new ≡ vec_capacity out.old }
{
    if out.capacity() - out.len() < count {
        out.try_reserve(count)?;
    }
    Ok(())
}

/// Appends bytes.
pub(crate) fn push_bytes(out: &mut Vec<u8>, bytes: &[u8])
    requires { vec_len out.old + length bytes.now ≤ vec_capacity out.old }
    ensures items { out.new.items ≡ out.old.items ++ bytes.now }
    ensures len { vec_len out.new ≡ vec_len out.old + length bytes.now }
    ensures capacity { vec_capacity out.new ≡ vec_capacity out.old }
{
    for &byte in bytes {
        out.push_reserved(byte);
    }
}

/// Appends a number of two bytes.
pub(crate) fn push_u16(out: &mut Vec<u8>, n: u16)
    requires { vec_len out.old + 2 ≤ vec_capacity out.old }
    ensures items { Appends out.old.items (little_bytes 2 n) out.new.items }
    ensures len { vec_len out.new ≡ vec_len out.old + 2 }
    ensures capacity { vec_capacity out.new ≡ vec_capacity out.old }
{
    let mut bytes = [0; 2];
    LittleEndian::write_u16(&mut bytes, n);
    push_bytes(out, &bytes);
}

/// Appends a number of four bytes.
pub(crate) fn push_u32(out: &mut Vec<u8>, n: u32)
    requires { vec_len out.old + 4 ≤ vec_capacity out.old }
    ensures items { Appends out.old.items (little_bytes 4 n) out.new.items }
    ensures len { vec_len out.new ≡ vec_len out.old + 4 }
    ensures capacity { vec_capacity out.new ≡ vec_capacity out.old }
{
    let mut bytes = [0; 4];
    LittleEndian::write_u32(&mut bytes, n);
    push_bytes(out, &bytes);
}

/// Appends a number of eight bytes.
pub(crate) fn push_u64(out: &mut Vec<u8>, n: u64)
    requires { vec_len out.old + 8 ≤ vec_capacity out.old }
    ensures items { Appends out.old.items (little_bytes 8 n) out.new.items }
    ensures len { vec_len out.new ≡ vec_len out.old + 8 }
    ensures capacity { vec_capacity out.new ≡ vec_capacity out.old }
{
    let mut bytes = [0; 8];
    LittleEndian::write_u64(&mut bytes, n);
    push_bytes(out, &bytes);
}

/// Appends zeros.
pub(crate) fn push_zeros(out: &mut Vec<u8>, count: usize)
    requires few { count ≤ 64 }
    requires room { vec_len out.old + count ≤ vec_capacity out.old }
    ensures items { Appends out.old.items (replicate count 0) out.new.items }
    ensures len { vec_len out.new ≡ vec_len out.old + count }
    ensures capacity { vec_capacity out.new ≡ vec_capacity out.old }
{
    push_bytes(out, &[0; 64][..count]);
}
