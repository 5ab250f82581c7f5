//! What a command runs on.

use std::alloc::Global;

/// The runtime, and whether `--verbose` adds lines on standard error.
#[derive(Clone, Copy)]
pub struct Host<'a> {
    pub rt: &'a HostRuntime,
    pub verbose: bool,
}

impl Host<'_> {
    /// Memory for what is to be kept of an input, if more is to be said of it.
    pub(crate) fn memory(self) -> Option<Global> {
        if self.verbose {
            Some(self.rt.alloc())
        } else {
            None
        }
    }
}
