//! How `lockd serve` serves.

use fl_core::Rules;
use fl_stream::WhenWriterFails;

/// Where the trace of a session goes.
#[derive(Drop)]
pub enum TraceTo<T> {
    /// It is kept in memory, and printed once the session is over.
    Output,
    /// Nowhere: no line is kept, so that memory doesn't grow.
    Nowhere,
    /// To this writer, which has nothing yet, as orders come. Memory doesn't grow.
    Writer(T),
}

/// How a connection is served.
#[derive(Drop)]
pub struct ServeOptions<T> {
    /// How many workers, 1 to 16.
    pub workers: u32,
    /// By which rules requests wait.
    pub rules: Rules,
    /// Where the trace goes.
    pub trace: TraceTo<T>,
    /// What happens to orders when the trace's writer can't be written. `Refuse` wants two workers or more: while one
    /// waits for its lines to be written, another refuses orders. The session of one alone would end.
    pub when_full: WhenWriterFails,
}
