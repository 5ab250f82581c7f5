//! Replies that stand one after another, as lines of hex.
ghost use Rattle.std.specs.Prelude.{◌≡◌, ◌≤◌, ◌++◌, All, ℕ, List, length, IfOk, IfErr};
ghost use Rattle.std.specs.List.{concat};
ghost use Rattle.fl_wire.specs.Spell.{IsReply};
ghost use Rattle.fl_wire.specs.Layout.{len_of};
ghost use Rattle.lockd_commands.specs.Bytes.Inside.{AreReplies};
ghost use Rattle.lockd_faults.specs.declared.fault.CommandFault.TheVariants.{NoMemory};
ghost use Rattle.lockd_faults.specs.HexLines.{hex_lines};

use byteorder::{ByteOrder, LittleEndian};
use lockd_faults::{CommandFault, push_line};
use std::alloc::Global;

/// Each of the replies in these bytes, as a line of lower case hex.
pub(crate) fn print_replies(alloc: Global, sent: &[u8]) -> Result<Vec<u8>, CommandFault>
    requires { AreReplies sent.now }
    ensures lines { IfOk result (λ lines. (replies : List (List ℕ)) → All IsReply replies → sent.now ≡ concat replies
        → lines.items ≡ hex_lines replies) }
    ensures error { IfErr result (λ fault. fault ≡ NoMemory) }
{
    let mut lines = Vec::new(alloc);
    let mut rest = sent;
    while !rest.is_empty() {
        let (reply, after) = first_reply(rest);
        push_line(alloc, &mut lines, reply)?;
        rest = after;
    }
    Ok(lines)
}

// The first reply, and what stands behind it.
#[tactic(auto, unfolding(fl_wire::specs::Layout::number_at))]
fn first_reply(replies: &[u8]) -> (&[u8], &[u8])
    requires header { 16 ≤ len_of replies.now }
    requires whole { len_of replies.now ≤ length replies.now }
    ensures parts { replies.now ≡ result.0.now ++ result.1.now }
    ensures said { length result.0.now ≡ len_of replies.now }
{
    let len = LittleEndian::read_u32(replies) as usize;
    (&replies[..len], &replies[len..])
}
