//! What a client sends, and what it prints of what comes back.
ghost use Rattle.std.specs.Prelude.{◌≡◌, ◌≢◌, [], length, map, OnOk, IfErr};
ghost use Rattle.lockd_drive.specs.Drive.{awaited_by};
ghost use Rattle.lockd_drive.specs.Drive.Inside.{said_by, HasReceived, HasFallenShort, HasDone, HasStopped};
ghost use Rattle.lockd_drive.specs.Drive.Inside.{HasBegun};
ghost use Rattle.lockd_faults.specs.declared.fault.CommandFault.TheVariants.{Write as WriteFailed};

use crate::actions::Action;
use crate::reply::read_reply;
use lockd_faults::{CommandFault, push_line, write_all};
use std::alloc::Global;
use std::io::{Read, Write};

/// Does what these actions say, in turn: writes to `requests`, reads from `replies`, and writes each reply that is
/// waited for as a line of hex to `output`. Each is read in the room, which has place for the longest.
pub(crate) fn drive_over<R: Read, W: Write, O: Write>(
    alloc: Global,
    actions: &[Action],
    room: &mut [u8],
    replies: &mut R,
    requests: &mut W,
    output: &mut O,
) -> Result<(), CommandFault>
    requires { length room.old ≡ 8192 }
    ensures done { OnOk result (HasDone (map said_by actions.now) (R.remaining replies.old) (R.remaining replies.new)
        (W.contents requests.old) (W.contents requests.new) (O.contents output.old) (O.contents output.new)) }
    ensures stopped { IfErr result (λ fault. fault ≢ WriteFailed →
        HasStopped (map said_by actions.now) fault (R.remaining replies.old) (R.remaining replies.new)
        (W.contents requests.old) (W.contents requests.new) (O.contents output.old) (O.contents output.new)) }
    ensures begun { IfErr result (λ _. HasBegun (awaited_by (map said_by actions.now)) (R.remaining replies.old)
        (R.remaining replies.new) (O.contents output.old) (O.contents output.new)) }
{
    for action in actions {
        match action {
            Action::Send(bytes) => write_all(requests, bytes)?,
            Action::Receive(count) => print_next(alloc, *count, room, replies, output)?,
        }
    }
    Ok(())
}

// Prints the next replies, so many.
fn print_next<R: Read, O: Write>(
    alloc: Global,
    count: u32,
    room: &mut [u8],
    replies: &mut R,
    output: &mut O,
) -> Result<(), CommandFault>
    requires { length room.old ≡ 8192 }
    ensures done { OnOk result (HasReceived count [] (R.remaining replies.old) (R.remaining replies.new)
        (O.contents output.old) (O.contents output.new)) }
    ensures stopped { IfErr result (λ fault. fault ≢ WriteFailed →
        HasFallenShort count fault (R.remaining replies.old) (R.remaining replies.new)
        (O.contents output.old) (O.contents output.new)) }
    ensures begun { IfErr result (λ _. HasBegun count (R.remaining replies.old) (R.remaining replies.new)
        (O.contents output.old) (O.contents output.new)) }
{
    for _ in 0..count {
        print_reply(alloc, room, replies, output)?;
    }
    Ok(())
}

// Prints the next reply.
fn print_reply<R: Read, O: Write>(
    alloc: Global,
    room: &mut [u8],
    replies: &mut R,
    output: &mut O,
) -> Result<(), CommandFault>
    requires { length room.old ≡ 8192 }
    ensures done { OnOk result (HasReceived 1 [] (R.remaining replies.old) (R.remaining replies.new)
        (O.contents output.old) (O.contents output.new)) }
    ensures stopped { IfErr result (λ fault. fault ≢ WriteFailed →
        HasFallenShort 1 fault (R.remaining replies.old) (R.remaining replies.new)
        (O.contents output.old) (O.contents output.new)) }
    ensures begun { IfErr result (λ _. HasBegun 1 (R.remaining replies.old) (R.remaining replies.new)
        (O.contents output.old) (O.contents output.new)) }
{
    let len = read_reply(replies, room)?;
    let mut line = Vec::new(alloc);
    push_line(alloc, &mut line, &room[..len])?;
    write_all(output, &line)
}
