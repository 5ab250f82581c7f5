//! What a resumed server tells of itself, beside what each server does.

use fl_audit::Details;
use lockd_faults::{Observer, Status};
use std::alloc::Global;

/// Is told what became of the lines of the trace's file, too.
pub trait ResumeObserver: Observer {
    /// The lines of the trace's file were read, and it goes on behind them.
    fn resumed(&mut self);

    /// The lines of the trace's file were read, and it doesn't go on behind them. The fault of this status was told,
    /// and these are the details of the lines.
    fn unresumed(&mut self, alloc: Global, status: Status, details: &Details);
}
