//! The bodies of messages, and their layouts.

use crate::name::Name;
use crate::order::LockAsk;

/// What stands behind a message's header, or behind the word of a trace's line: several kinds of order say the
/// same things in the same layout.
#[derive(Clone, Copy, Debug, PartialEq, Eq)]
pub enum Body {
    /// A lock request (`struct fuse_lk_in`).
    Lock(LockAsk),
    /// The fields of a CREATE that are read, and a name (`struct fuse_create_in`).
    Create {
        /// `O_EXCL` of the open flags: an error if there is a file of this name.
        excl: bool,
        /// The permission bits, 0 to 511 (octal 777).
        mode: u32,
        /// The file's name.
        name: Name,
    },
    /// A mode with its file type, and a name (`struct fuse_mknod_in`, `struct fuse_mkdir_in`).
    Make {
        /// The mode, as it was sent.
        mode: u32,
        /// The name of what is made.
        name: Name,
    },
    /// A name alone.
    Name(Name),
    /// One number (`struct fuse_forget_in`).
    Number(u64),
    /// The fields of a FLUSH that are read (`struct fuse_flush_in`).
    Flush {
        /// The open file of which a descriptor was closed.
        fh: u64,
        /// Whose record locks go.
        owner: u64,
    },
    /// The fields of a RELEASE that are read (`struct fuse_release_in`).
    Release {
        /// The open file that is closed.
        fh: u64,
        /// `FUSE_RELEASE_FLOCK_UNLOCK`: the owner's whole-file lock goes.
        drop: bool,
        /// Who owns that lock.
        owner: u64,
    },
    /// Fields that aren't read (`struct fuse_getattr_in`).
    Getattr,
    /// Fields that aren't read (`struct fuse_open_in`).
    Open,
}

/// The layouts of bodies, one for each variant of [`Body`].
#[derive(Clone, Copy, Debug, PartialEq, Eq)]
pub enum Shape {
    /// 48 bytes, `struct fuse_lk_in`.
    Lock,
    /// 16 bytes, `struct fuse_create_in`, and then a name with a zero byte.
    Create,
    /// 16 bytes, `struct fuse_mknod_in`, or for a MKDIR eight, `struct fuse_mkdir_in`, and then a name with a zero
    /// byte.
    Make,
    /// A name with a zero byte: at least one byte.
    Name,
    /// Eight bytes.
    Number,
    /// 24 bytes, `struct fuse_flush_in`.
    Flush,
    /// 24 bytes, `struct fuse_release_in`.
    Release,
    /// 16 bytes, `struct fuse_getattr_in`.
    Getattr,
    /// Eight bytes, `struct fuse_open_in`.
    Open,
}
