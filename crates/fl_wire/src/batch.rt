//! BATCH_FORGET: several FORGETs in one message.

ghost use Rattle.std.specs.Prelude.{◌≡◌, ◌<◌, ◌≤◌, length, slice_get, Some};
ghost use Rattle.fl_wire.specs.Batch.{batch_in};
ghost use Rattle.fl_wire.specs.Frame.{IsMessage};
ghost use Rattle.fl_wire.specs.Layout.{opcode_of};

use crate::layout::{u32_at, u64_at};
use fl_order::{Op, OpKind, Order};
use std::marker::Model;

// The bytes of a pair, and those of a batch that stand before its first pair.
const PAIR_BYTES: usize = 16;

const BEFORE_PAIRS: usize = 48;

/// A message that is several FORGETs: a BATCH_FORGET with as many pairs as it says (`struct fuse_batch_forget_in` of
/// `fuse.h`). Contracts see it as the list of its orders.
#[derive(Drop)]
pub struct Batch<'a> {
    bytes: &'a [u8],
}

impl<'a> Model for Batch<'a> {
    ghost use Rattle.std.specs.Prelude.{◌≡◌, ◌≤◌, ◌+◌, ◌*◌, List, length};
    ghost use Rattle.fl_order.specs.declared.order.Order.{Order};
    ghost use Rattle.fl_wire.specs.Batch.{forgets_in, pairs_said};

    ghost Value = { List Order };

    ghost view = { λ b. forgets_in b.bytes.now };

    ghost invariant = { λ b. (length b.bytes.now ≡ 48 + 16 * pairs_said b.bytes.now) × (length b.bytes.now ≤ 8192) };
}

impl<'a> Batch<'a> {
    // The batch that this message of this kind is, if it is one.
    pub(crate) fn of(opcode: u32, bytes: &'a [u8]) -> Option<Batch<'a>>
        requires message { IsMessage bytes.now }
        requires opcode { opcode ≡ opcode_of bytes.now }
        ensures { result ≡ batch_in bytes.now }
    {
        if opcode != OpKind::BatchForget.opcode() || bytes.len() < BEFORE_PAIRS {
            return None;
        }
        let count = u32_at(bytes, 40) as usize;
        if bytes.len() != BEFORE_PAIRS + PAIR_BYTES * count {
            return None;
        }
        Some(Batch { bytes })
    }

    /// How many orders it has, at most 509.
    pub fn count(&self) -> u32
        ensures count { result ≡ length self.now }
        ensures few { result ≤ 509 }
    {
        u32_at(self.bytes, 40)
    }

    /// Order `i`, counted from 0: a FORGET of the pair's node and lookups, with the message's unique, uid, gid and pid.
    pub fn order(&self, i: u32) -> Order
        requires { i < length self.now }
        ensures { slice_get self.now i ≡ Some result }
    {
        let bytes = self.bytes;
        let start = BEFORE_PAIRS + PAIR_BYTES * i as usize;
        Order {
            unique: u64_at(bytes, 8),
            node: u64_at(bytes, start),
            uid: u32_at(bytes, 24),
            gid: u32_at(bytes, 28),
            pid: u32_at(bytes, 32),
            op: Op::Forget(u64_at(bytes, start + 8)),
        }
    }
}
