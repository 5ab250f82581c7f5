//! Keys, marks and ranges: what a lock consists of.

ghost use Rattle.std.specs.Prelude.{◌≡◌, ◌≤◌, ◌<◌, ◌^◌, IfSome, is_some};
ghost use Rattle.fl_marks.specs.Bytes.{is_range};

/// Which locks meet: record locks (POSIX.1-2017 `fcntl`) with record locks, whole-file locks
/// (Linux `flock(2)`) with whole-file locks.
#[derive(Clone, Copy, Debug, PartialEq, Eq)]
pub enum Class {
    /// A record lock, of a range of bytes.
    Record,
    /// A whole-file lock.
    Flock,
}

/// Shared or exclusive.
#[derive(Clone, Copy, Debug, PartialEq, Eq)]
pub enum Kind {
    /// Shared: it conflicts with write locks (F_RDLCK of POSIX.1-2017 `fcntl`).
    Read,
    /// Exclusive: it conflicts with every other lock (F_WRLCK).
    Write,
}

/// Whose lock it is, of which class, and on which node.
#[derive(Clone, Copy, Debug, PartialEq, Eq)]
pub struct Key {
    /// Which locks it meets.
    pub class: Class,
    /// The number of the node whose bytes are locked.
    pub node: u64,
    /// Who holds it, a number that the client chooses.
    pub owner: u64,
}

/// What a locked byte carries.
#[derive(Clone, Copy, Debug, PartialEq, Eq)]
pub struct Mark {
    /// Shared or exclusive.
    pub kind: Kind,
    /// The process that is named as the holder.
    pub pid: u32,
}

/// The greatest byte of a range, 2^63 - 1 (`OFFSET_MAX` of Linux).
pub const LAST_BYTE: u64 = 0x7fff_ffff_ffff_ffff;

/// A range of bytes, both ends included.
#[derive(Clone, Copy, Debug)]
pub struct Range {
    /// The first byte.
    pub start: u64,
    /// The last byte, which is included; 2^63 - 1 at most.
    pub end: u64,
    ghost ordered: { start ≤ end },
    ghost in_range: { end ≤ 9223372036854775807 },
}

impl Range {
    /// All bytes.
    pub fn whole() -> Range
        ensures start { result.start ≡ 0 }
        ensures end { result.end ≡ LAST_BYTE }
    {
        Range {
            start: 0,
            end: LAST_BYTE,
        }
    }

    /// The bytes from one to another, both included; none if they are no range.
    pub fn of(start: u64, end: u64) -> Option<Range>
        ensures is { is_some result ≡ is_range start end }
        ensures range { IfSome result (λ range. (range.start ≡ start) × (range.end ≡ end)) }
    {
        if start > end || end > LAST_BYTE {
            return None;
        }
        Some(Range { start, end })
    }
}
