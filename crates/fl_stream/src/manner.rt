//! What a stream does without its writer.

/// What a stream does when a write fails.
#[derive(Clone, Copy, Debug, PartialEq, Eq)]
pub enum WhenWriterFails {
    /// Orders go on, and the rest of the trace is lost: nothing more is written.
    GoOn,
    /// No order is taken from then on until a write succeeds, and no reply leaves before the lines of its order are
    /// stored. What isn't written is kept, and tried again.
    Refuse,
    /// The session ends: no reply leaves before the lines of its order are stored. What isn't written is kept, and
    /// tried again.
    End,
}
