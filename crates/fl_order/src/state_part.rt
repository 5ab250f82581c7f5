//! The lines of a *head*, which tell a state: what it begins with, its parts one after another, and its end.

use crate::name::Name;
use crate::order::LockAsk;

/// A line of a head. A head tells the state that a history goes on from.
#[derive(Clone, Copy, Debug, PartialEq, Eq)]
pub enum StateLine {
    /// The first line.
    Head(Head),
    /// A part of the state.
    Part(StatePart),
    /// The last line: the state is whole.
    Go,
}

/// What a head begins with: where it stands, and the rules and numbers of its state.
#[derive(Clone, Copy, Debug, PartialEq, Eq)]
pub struct Head {
    /// How many lines the history before it has, without those of heads.
    pub lines: u64,
    /// Whether a request for a record lock also waits behind an older one that waits.
    pub fair: bool,
    /// The most runs of locked bytes.
    pub runs: u32,
    /// The most parked requests at once.
    pub parked: u32,
    /// The most files at once.
    pub files: u32,
    /// The most open files at once.
    pub open_files: u32,
    /// The number of the node that is made next.
    pub node: u64,
    /// The number of the file that is opened next.
    pub fh: u64,
}

/// A part of a state: a file, an open file, a run of bytes with a lock, or a request that waits.
#[derive(Clone, Copy, Debug, PartialEq, Eq)]
pub enum StatePart {
    /// A file.
    Node {
        /// The node's number.
        number: u64,
        /// How often it was looked up and not yet forgotten.
        lookups: u64,
        /// Whether it still has its name.
        linked: bool,
        /// The file type and the permissions, as `st_mode` of POSIX.1-2017 `sys/stat.h`.
        mode: u32,
        /// The user who made it.
        uid: u32,
        /// The group of who made it.
        gid: u32,
        /// The name under which it was made.
        name: Name,
    },
    /// An open file.
    File {
        /// The number under which it is open.
        fh: u64,
        /// The node on which it is open.
        node: u64,
    },
    /// A run of bytes with a lock. The run is exact for a whole-file lock, too.
    Lock {
        /// The node whose bytes they are.
        node: u64,
        /// The lock's owner.
        owner: u64,
        /// The first byte.
        start: u64,
        /// The last byte, which is included.
        end: u64,
        /// Whether it is a write lock, and no read lock.
        write: bool,
        /// The process that is named as the holder.
        pid: u32,
        /// Whether it is a whole-file lock, and no record lock.
        flock: bool,
    },
    /// A request that waits.
    Wait {
        /// The unique of its order.
        unique: u64,
        /// The node whose bytes it asks for.
        node: u64,
        /// What it asks.
        ask: LockAsk,
    },
}
