//! Sessions with workers.

mod alone;
mod bursts;

use fl_serve::Fault;
use std::process::Abort;

// These are the bytes that are wanted.
fn are_bytes(rt: &impl Abort, found: &[u8], wanted: &[u8]) {
    assert_eq!(rt; found, wanted);
}

// A session ended with the fault that is wanted.
fn fault_is(rt: &impl Abort, found: Option<Fault>, wanted: Option<Fault>) {
    assert_eq!(rt; found, wanted);
}
