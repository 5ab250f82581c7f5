//! What messages ask that whole sessions alone answer.

ghost use Rattle.std.specs.Prelude.{◌≡◌, ◌≢◌, ◌≤◌, true, length, Err, IsSome};
ghost use Rattle.fl_order.specs.declared.errno.Errno.TheVariants.{ENOSYS};
ghost use Rattle.fl_order.specs.declared.refusal.Refusal.TheVariants.{Answer, Destroy};
ghost use Rattle.fl_wire.specs.Layout.{opcode_of};
ghost use Rattle.fl_wire.specs.Says.{said};
ghost use Rattle.fl_wire.specs.Whole.{is_for_whole, list_ask, whole_ask};

use crate::frame::Frame;
use crate::layout::{u32_at, u64_at};
use fl_order::Errno;

// The kinds of message, with the numbers of `enum fuse_opcode` (Linux `fuse.h`).
const SYMLINK: u32 = 6;

const MKNOD: u32 = 8;

const MKDIR: u32 = 9;

const RMDIR: u32 = 11;

const RENAME: u32 = 12;

const LINK: u32 = 13;

const READ: u32 = 15;

const WRITE: u32 = 16;

const STATFS: u32 = 17;

const READDIR: u32 = 28;

const RENAME2: u32 = 45;

/// What a message asks that whole sessions alone answer.
#[derive(Clone, Copy, Debug)]
pub enum WholeAsk {
    /// READDIR: entries behind one of them.
    List {
        /// The directory.
        node: u64,
        /// The cookie of the entry behind which the list begins; 0 for a list from the first on.
        cookie: u64,
        /// How many bytes the entries have at most.
        size: u32,
    },
    /// STATFS: how many files there may be.
    Statfs,
    /// READ: no byte, since files are empty.
    Read,
    /// It is refused with this error.
    Refused(Errno),
}

impl<'a> Frame<'a> {
    /// Whether whole sessions alone take it as an order: MKNOD, MKDIR and RMDIR.
    pub fn is_for_whole(&self) -> bool
        ensures is { result ≡ is_for_whole self.now }
        ensures no_end { result ≡ true → said self.now ≢ Err Destroy }
    {
        matches!(self.opcode(), MKNOD | MKDIR | RMDIR)
    }

    /// What it asks that is no order, and that whole sessions answer: READDIR (EINVAL for a body of another length),
    /// STATFS and READ; also LINK and SYMLINK (EPERM), RENAME and RENAME2 (EOPNOTSUPP) and WRITE (EFBIG). None for any
    /// other kind.
    pub fn whole(&self) -> Option<WholeAsk>
        ensures ask { result ≡ whole_ask self.now }
        ensures no_order { IsSome result → said self.now ≡ Err (Answer ENOSYS) }
    {
        match self.opcode() {
            SYMLINK | LINK => Some(WholeAsk::Refused(Errno::EPERM)),
            RENAME | RENAME2 => Some(WholeAsk::Refused(Errno::EOPNOTSUPP)),
            READ => Some(WholeAsk::Read),
            WRITE => Some(WholeAsk::Refused(Errno::EFBIG)),
            STATFS => Some(WholeAsk::Statfs),
            READDIR => Some(list_ask(self.as_bytes())),
            _ => None,
        }
    }
}

// What a READDIR asks.
fn list_ask(bytes: &[u8]) -> WholeAsk
    requires { 40 ≤ length bytes.now }
    ensures { result ≡ list_ask bytes.now }
{
    if bytes.len() != 80 {
        return WholeAsk::Refused(Errno::EINVAL);
    }
    WholeAsk::List {
        node: u64_at(bytes, 16),
        cookie: u64_at(bytes, 48),
        size: u32_at(bytes, 56),
    }
}
