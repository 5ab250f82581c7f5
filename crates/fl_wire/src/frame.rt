//! One whole message as it stands in a stream, and the fields of its header that all messages have.

ghost use Rattle.std.specs.Prelude.{◌≡◌, ◌↔◌, Err, IsSome};
ghost use Rattle.fl_wire.specs.Batch.{batch_in};
ghost use Rattle.fl_wire.specs.Frame.{IsMessage};
ghost use Rattle.fl_wire.specs.Layout.{opcode_of, unique_of};
ghost use Rattle.fl_wire.specs.Message.{BatchReadsBack, ReadsBack};
ghost use Rattle.fl_wire.specs.Says.{said};

use crate::batch::Batch;
use crate::layout::{u32_at, u64_at};
use crate::single::Single;
use fl_order::Refusal;
use std::marker::Model;

/// One whole message, of 40 to 8192 bytes: as many as its first field says. Contracts see it as the list of
/// its bytes.
#[derive(Drop)]
pub struct Frame<'a> {
    pub(crate) bytes: &'a [u8],
}

impl<'a> Model for Frame<'a> {
    ghost use Rattle.std.specs.Prelude.{List, ℕ};
    ghost use Rattle.fl_wire.specs.Frame.{IsMessage};

    ghost Value = { List ℕ };

    ghost view = { λ f. f.bytes.now };

    ghost invariant = { λ f. IsMessage f.bytes.now };
}

impl<'a> Frame<'a> {
    /// What kind of message it is (`enum fuse_opcode` of `fuse.h`).
    pub fn opcode(&self) -> u32
        ensures { result ≡ opcode_of self.now }
    {
        u32_at(self.bytes, 4)
    }

    /// The number by which its reply is known.
    pub fn unique(&self) -> u64
        ensures { result ≡ unique_of self.now }
    {
        u64_at(self.bytes, 8)
    }

    /// The orders that it is, if it is several: a BATCH_FORGET with as many pairs as it says.
    pub fn batch(&self) -> Option<Batch<'a>>
        ensures batch { result ≡ batch_in self.now }
        ensures said { IsSome result ↔ (said self.now ≡ Err Refusal.Batch) }
        ensures back { BatchReadsBack self.now result }
    {
        Batch::of(self.opcode(), self.bytes)
    }

    /// The order that it says, or how it is refused: EPROTO for an INIT, ENOSYS for a kind that isn't served, EINVAL for
    /// a body of another length than its kind's or a name that no zero byte ends, and ENAMETOOLONG for a name of more
    /// than 255 bytes. A FORGET or BATCH_FORGET of another length has no reply, so it is refused silently. A
    /// BATCH_FORGET with as many pairs as it says is refused as a batch, whose orders `Frame::batch` gives.
    pub fn single(&self) -> Result<Single<'a>, Refusal>
        ensures said { result ≡ said self.now }
        ensures back { ReadsBack self.now result }
    {
        Single::of(Frame { bytes: self.bytes })
    }

    /// Its bytes, the header first.
    pub fn as_bytes(&self) -> &[u8]
        ensures bytes { result.now ≡ self.now }
        ensures message { IsMessage self.now }
    {
        self.bytes
    }
}
