//! The file of a trace that begins and ends with its server.

ghost use Rattle.std.specs.Prelude.{◌≡◌, ◌≢◌, true, false};
ghost use Rattle.std.specs.Io.KnownBytes.{Keeps};
ghost use Rattle.lockd_faults.specs.Faults.{IsTold};
ghost use Rattle.lockd_faults.specs.declared.fault.CommandFault.{CommandFault};

use lockd_faults::{CommandFault, Observer, Status, end_without_file};
use lockd_streams::{Announcing, PlacedFile, TracePath, TraceWriter, new_first_piece};
use std::fs::File;
use std::io;
use std::io::Write;

/// A new file for a trace at a path, which is locked, so that no other server goes on in it. `notices` gets what it, and
/// `Announcing`, tell. The observer is told that it was made, and why it can't be locked, if it can't.
pub fn new_file<'a, N: Write + Copy + Drop, O: Observer>(
    at: TracePath<'a>,
    notices: N,
    observer: &mut O,
) -> io::Result<TraceWriter<'a, N>> {
    let made = new_first_piece(at.rt, at.name)?;
    observer.traced();
    lock(&made, observer);
    let placed = PlacedFile::new(at, made, 0, notices);
    Ok(Announcing::new(placed, at.name, notices))
}

// Locks a new file.
fn lock<O: Observer>(made: &File, observer: &mut O) {
    if let Err(error) = made.try_lock() {
        observer.unlocked(&io::Error::from(error));
    }
}

/// The status of a server that ended with this one, and whose trace's file was kept at its path, or wasn't. If it wasn't,
/// that is told, and the observer, too.
pub fn end_traced_to<F: Write, O: Observer>(
    kept: bool,
    status: Status,
    faults: &mut F,
    observer: &mut O,
) -> Status
    ensures kept { kept ≡ true → (result ≡ status) × Keeps (F.contents faults.old) (F.contents faults.new) }
    ensures good { kept ≡ false → status ≡ Status.Good → result ≡ Status.Faulted CommandFault.TraceFailed }
    ensures bad { status ≢ Status.Good → result ≡ status }
    ensures told { kept ≡ false → status ≢ Status.Faulted CommandFault.TraceFailed
        → IsTold CommandFault.TraceFailed (F.contents faults.old) (F.contents faults.new) }
    ensures untold { kept ≡ false → status ≡ Status.Faulted CommandFault.TraceFailed
        → Keeps (F.contents faults.old) (F.contents faults.new) }
{
    if kept {
        return status;
    }
    let status = end_without_file(faults, status);
    observer.lost();
    status
}
