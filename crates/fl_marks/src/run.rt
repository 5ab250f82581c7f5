//! One run of bytes.

use crate::lock::{Key, Mark};

/// A lock that is held: bytes of one key in a row with one mark, as long as it can be.
#[derive(Clone, Copy, Debug, PartialEq, Eq)]
pub struct Run {
    /// Whose lock it is, of which class, and on which node.
    pub key: Key,
    /// The first byte.
    pub start: u64,
    /// The last byte, which is included; 2^63 - 1 at most.
    pub end: u64,
    /// Its kind, and the process that is named as the holder.
    pub mark: Mark,
}
