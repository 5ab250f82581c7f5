//! The lock that is named to one who asks for another.

use crate::lock::Mark;

/// A lock that is held, as F_GETLK names it (POSIX.1-2017 `fcntl`).
#[derive(Clone, Copy, Debug, PartialEq, Eq)]
pub struct Held {
    /// Who holds it.
    pub owner: u64,
    /// The first byte.
    pub start: u64,
    /// The last byte, 2^63 - 1 at most.
    pub end: u64,
    /// Its kind, and the process that is named as the holder.
    pub mark: Mark,
}
