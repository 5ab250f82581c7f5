//! Replies: the answers to orders.

use crate::errno::Errno;

/// A reply: the unique of the order that it answers, and the answer.
#[derive(Clone, Copy, Debug, PartialEq, Eq)]
pub struct Told {
    /// The unique of the order that it answers.
    pub unique: u64,
    /// The answer, or the error.
    pub result: Result<Answer, Errno>,
}

/// What a reply says if there is no error.
#[derive(Clone, Copy, Debug, PartialEq, Eq)]
pub enum Answer {
    /// It is done.
    Done,
    /// A name was looked up, or made, and isn't open.
    Entry(Attr),
    /// A node's attributes.
    Attr(Attr),
    /// A file is open under this number.
    Open(u64),
    /// A file is made, or was there, and is open under this number.
    Made(Attr, u64),
    /// A lock record (`struct fuse_file_lock`), whose end is its last byte.
    Lock {
        /// The first byte.
        start: u64,
        /// The last byte, which is included.
        end: u64,
        /// 0 for a read lock, 1 for a write lock, 2 for none.
        kind: u32,
        /// The process that is named as the holder.
        pid: u32,
    },
}

/// A node's attributes.
#[derive(Clone, Copy, Debug, PartialEq, Eq)]
pub struct Attr {
    /// The node's number.
    pub node: u64,
    /// The file type and the permissions, as `st_mode` of POSIX.1-2017 `sys/stat.h`.
    pub mode: u32,
    /// How many links it has: a file one while it has its name, and a folder two.
    pub nlink: u32,
    /// The user who owns it.
    pub uid: u32,
    /// The group that owns it.
    pub gid: u32,
}
