//! One span.
ghost use Rattle.std.specs.Prelude.{◌≡◌};
ghost use Rattle.fl_spans.specs.Inside.Walk.{is_mark, reaches, begins_by};

/// The greatest byte of a span, 2^63 - 1 (`OFFSET_MAX` of Linux).
pub const LAST_BYTE: u64 = 0x7fff_ffff_ffff_ffff;

/// Bytes in a row that carry one mark, both ends included.
#[derive(Clone, Copy, Debug, PartialEq, Eq)]
pub struct Span<M> {
    /// The first byte.
    pub start: u64,
    /// The last byte, which is included; 2^63 - 1 at most.
    pub end: u64,
    /// What its bytes carry.
    pub mark: M,
}

// Whether there is a mark to set, and it is this one.
pub(crate) fn is_mark<M: Copy + Eq>(mark: &Option<M>, other: &M) -> bool
    ensures { result ≡ is_mark M.eq mark.now other.now }
{
    match mark {
        Some(mark) => *mark == *other,
        None => false,
    }
}

// Whether a span has a byte from the start on, or ends right before it with the mark that is set.
pub(crate) fn reaches<M: Copy + Eq>(span: &Span<M>, start: u64, mark: &Option<M>) -> bool
    ensures { result ≡ reaches M.eq start mark.now span.now }
{
    start <= span.end || (span.end + 1 == start && is_mark(mark, &span.mark))
}

// Whether a span begins up to the end, or right behind it with the mark that is set.
pub(crate) fn begins_by<M: Copy + Eq>(span: &Span<M>, end: u64, mark: &Option<M>) -> bool
    ensures { result ≡ begins_by M.eq end mark.now span.now }
{
    span.start <= end || (span.start - 1 == end && is_mark(mark, &span.mark))
}
