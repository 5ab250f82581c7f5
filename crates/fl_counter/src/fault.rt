//! Why an order is refused, and why nothing is shown.

/// Why an order is refused.
#[derive(Clone, Copy, Debug, PartialEq, Eq)]
pub enum HandFault {
    /// Out of memory.
    NoMemory,
    /// The history doesn't begin with all that the worker handed in or was shown, has 2^62 orders, or isn't all that
    /// was logged.
    NoView,
}

/// Nothing could be shown to a worker: it can't enter what is published, or what is published is shorter than what
/// the worker handed in or was shown.
#[derive(Clone, Copy, Debug, PartialEq, Eq)]
pub struct NoView;
