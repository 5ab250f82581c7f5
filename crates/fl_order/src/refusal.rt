//! How a message is refused that is no order.

use crate::errno::Errno;

/// Why a message is no order.
#[derive(Clone, Copy, Debug, PartialEq, Eq)]
pub enum Refusal {
    /// It is answered with this error.
    Answer(Errno),
    /// No reply is owed.
    Silent,
    /// It is several orders, to which no reply is owed.
    Batch,
    /// It ends the session.
    Destroy,
}
