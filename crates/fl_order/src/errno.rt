//! The errors of answers, with Linux's numbers (`errno.h`).

ghost use Rattle.std.specs.Prelude.{◌≡◌};

/// An error of an answer, named as in Linux's `errno.h`.
#[derive(Clone, Copy, Debug, PartialEq, Eq)]
pub enum Errno {
    /// Operation not permitted.
    EPERM,
    /// No such file or directory.
    ENOENT,
    /// Interrupted.
    EINTR,
    /// No such open file.
    EBADF,
    /// The lock is held by another owner; also an INTERRUPT that finds nothing, or for which memory ran out.
    EAGAIN,
    /// Out of memory.
    ENOMEM,
    /// The file exists.
    EEXIST,
    /// Not a directory.
    ENOTDIR,
    /// Is a directory.
    EISDIR,
    /// Invalid argument.
    EINVAL,
    /// Too many open files.
    ENFILE,
    /// The file would be too large.
    EFBIG,
    /// No space is left for a file.
    ENOSPC,
    /// The wait would close a circle.
    EDEADLK,
    /// The name is longer than 255 bytes.
    ENAMETOOLONG,
    /// No room is left for a lock.
    ENOLCK,
    /// No such message.
    ENOSYS,
    /// The message comes at the wrong time.
    EPROTO,
    /// The file system can't do this.
    EOPNOTSUPP,
}

impl Errno {
    ghost use Rattle.fl_order.specs.Errno.{number_of};

    /// The number of Linux, positive.
    pub const fn number(self) -> u32
        ensures { result ≡ number_of self }
    {
        match self {
            Errno::EPERM => 1,
            Errno::ENOENT => 2,
            Errno::EINTR => 4,
            Errno::EBADF => 9,
            Errno::EAGAIN => 11,
            Errno::ENOMEM => 12,
            Errno::EEXIST => 17,
            Errno::ENOTDIR => 20,
            Errno::EISDIR => 21,
            Errno::EINVAL => 22,
            Errno::ENFILE => 23,
            Errno::EFBIG => 27,
            Errno::ENOSPC => 28,
            Errno::EDEADLK => 35,
            Errno::ENAMETOOLONG => 36,
            Errno::ENOLCK => 37,
            Errno::ENOSYS => 38,
            Errno::EPROTO => 71,
            Errno::EOPNOTSUPP => 95,
        }
    }
}
