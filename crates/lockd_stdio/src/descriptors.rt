//! The descriptors of the standard streams, if the program was started with some of them closed.

use std::fs::{File, OpenOptions};
use std::io;
use std::os::fd::{AsRawFd, IntoRawFd};

// What holds the place of a stream that is closed.
const NULL_DEVICE: &str = "/dev/null";

/// Keeps sockets off the numbers 0, 1 and 2, where they would be taken for a standard stream. A file that is opened
/// gets the least number that is free. So the null device takes the place of each stream that is closed, the wrong way
/// round: an input from there, and an output to it, fail as they would on a closed stream. If it can't be opened,
/// nothing changes.
pub fn hold_closed_streams(rt: &HostRuntime) {
    for _ in 0..3 {
        match hold_next(rt) {
            Ok(true) => {}
            Ok(false) | Err(_) => return,
        }
    }
}

// Holds the least number that is free, if a standard stream has it.
fn hold_next(rt: &HostRuntime) -> io::Result<bool> {
    let source = File::open(rt, NULL_DEVICE)?;
    match source.as_raw_fd() {
        0 => hold_input(rt, source),
        1 | 2 => {
            let _ = source.into_raw_fd();
            Ok(true)
        }
        _ => Ok(false),
    }
}

// Holds the number that this file has, with one that is written and not read.
fn hold_input(rt: &HostRuntime, source: File) -> io::Result<bool> {
    drop(source);
    let sink = OpenOptions::new().write(true).open(rt, NULL_DEVICE)?;
    let _ = sink.into_raw_fd();
    Ok(true)
}
