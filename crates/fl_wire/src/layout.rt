//! Numbers at places of a message, with the lowest byte first.

ghost use Rattle.std.specs.Prelude.{◌≡◌, ◌+◌, ◌≤◌, length};
ghost use Rattle.fl_wire.specs.Layout.{number_at};

use byteorder::{ByteOrder, LittleEndian};

/// The four bytes from `start` on, as a number.
#[tactic(auto, unfolding(crate::specs::Layout::number_at))]
pub(crate) fn u32_at(bytes: &[u8], start: usize) -> u32
    requires { start + 4 ≤ length bytes.now }
    ensures { result ≡ number_at 4 start bytes.now }
{
    LittleEndian::read_u32(&bytes[start..])
}

/// The eight bytes from `start` on, as a number.
#[tactic(auto, unfolding(crate::specs::Layout::number_at))]
pub(crate) fn u64_at(bytes: &[u8], start: usize) -> u64
    requires { start + 8 ≤ length bytes.now }
    ensures { result ≡ number_at 8 start bytes.now }
{
    LittleEndian::read_u64(&bytes[start..])
}
