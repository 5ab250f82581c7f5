//! One reply, read from a stream.
ghost use Rattle.std.specs.Prelude.{◌≡◌, ℕ, ◌+◌, ◌<◌, ◌≤◌, List, length, take, drop, IfOk, OnOk, IfErr, OnErr};
ghost use Rattle.std.specs.Io.KnownBytes.{Consumes, IsAtEnd, Keeps};
ghost use Rattle.fl_wire.specs.Layout.{len_of};
ghost use Rattle.lockd_drive.specs.Drive.{IsFramed};
ghost use Rattle.lockd_drive.specs.Drive.Inside.{IsShortBy, IsStopped};

use byteorder::{ByteOrder, LittleEndian};
use lockd_faults::CommandFault;
use std::io;
use std::io::Read;

/// The most bytes of a reply.
pub(crate) const MOST_BYTES: usize = 8192;

// So many bytes say a reply's length.
const HEAD: usize = 4;

/// Reads the next reply of a stream to the front of a room, and tells its length, which its first four bytes say: 16 to
/// 8192 bytes.
pub(crate) fn read_reply<R: Read>(input: &mut R, room: &mut [u8]) -> Result<usize, CommandFault>
    requires { length room.old ≡ 8192 }
    ensures framed { IfOk result (λ len. IsFramed (take len room.new)) }
    ensures read { IfOk result (λ len. Consumes (R.remaining input.old) (R.remaining input.new) (take len room.new)) }
    ensures within { IfOk result (λ len. len ≤ length room.new) }
    ensures stopped { IfErr result (λ fault. IsStopped fault (R.remaining input.old) (R.remaining input.new)) }
{
    fill(input, room, 0, HEAD)?;
    let len = said_len(room);
    if len < 16 || len > MOST_BYTES {
        return Err(CommandFault::BadReply);
    }
    fill(input, room, HEAD, len)?;
    Ok(len)
}

// The length that the first four bytes of a reply say.
#[tactic(auto, unfolding(fl_wire::specs::Layout::number_at))]
fn said_len(head: &[u8]) -> usize
    requires { 4 ≤ length head.now }
    ensures { result ≡ len_of head.now }
{
    LittleEndian::read_u32(head) as usize
}

// Fills a room from one place to another.
fn fill<R: Read>(input: &mut R, room: &mut [u8], from: usize, to: usize) -> Result<(), CommandFault>
    requires order { from ≤ to }
    requires within { to ≤ length room.old }
    ensures front { take from room.new ≡ take from room.old }
    ensures read { OnOk result
        (Consumes (R.remaining input.old) (R.remaining input.new) (drop from (take to room.new))) }
    ensures stopped { IfErr result (λ fault.
        IsShortBy fault from to room.new (R.remaining input.old) (R.remaining input.new)) }
{
    let mut at = from;
    while at < to {
        match read_between(input, room, at, to) {
            Ok(0) => return Err(CommandFault::Cut),
            Ok(n) => at += n,
            Err(_) => return Err(CommandFault::Read),
        }
    }
    Ok(())
}

// Reads once, from one place of a room up to another.
fn read_between<R: Read>(
    input: &mut R,
    room: &mut [u8],
    from: usize,
    to: usize,
) -> io::Result<usize>
    requires order { from ≤ to }
    requires within { to ≤ length room.old }
    ensures front { take from room.new ≡ take from room.old }
    ensures within { IfOk result (λ n. from + n ≤ to) }
    ensures read { IfOk result (λ n.
        Consumes (R.remaining input.old) (R.remaining input.new) (take n (drop from room.new))) }
    ensures end { IfOk result (λ n. n ≡ 0 → from < to → IsAtEnd (R.remaining input.new)) }
    ensures failed { OnErr result (Keeps (R.remaining input.old) (R.remaining input.new)) }
{
    input.read(&mut room[from..to])
}
