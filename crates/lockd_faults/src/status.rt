//! How a command ended, and its exit status.

ghost use Rattle.std.specs.Prelude.{◌≡◌, ◌≢◌, IfErr, OnOk};
ghost use Rattle.std.specs.Io.KnownBytes.{Keeps};
ghost use Rattle.lockd_faults.specs.Faults.{IsTold};

use crate::fault::{CommandFault, print_fault};
use std::io::Write;

/// How a command ended.
#[derive(Clone, Copy, Debug, PartialEq, Eq)]
pub enum Status {
    /// It did what was asked.
    Good,
    /// It did what was asked, and the trace that it judged isn't legal.
    Different,
    /// It gave up, for this reason.
    Faulted(CommandFault),
}

impl Status {
    ghost use Rattle.lockd_faults.specs.Status.{exit_code_of};

    /// The exit status of the process: 0 is good, 1 a trace that differs, and 2 a fault.
    pub fn exit_code(self) -> u8
        ensures { result ≡ exit_code_of self }
    {
        match self {
            Status::Good => 0,
            Status::Different => 1,
            Status::Faulted(_) => 2,
        }
    }
}

/// Ends a command: prints the fault by which it gave up, if it did.
pub fn end<F: Write>(faults: &mut F, done: Result<(), CommandFault>) -> Status
    ensures good { OnOk done ((result ≡ Status.Good) × Keeps (F.contents faults.old) (F.contents faults.new)) }
    ensures faulted { IfErr done (λ fault. (result ≡ Status.Faulted fault)
        × IsTold fault (F.contents faults.old) (F.contents faults.new)) }
{
    match done {
        Ok(()) => Status::Good,
        Err(fault) => {
            print_fault(faults, fault);
            Status::Faulted(fault)
        }
    }
}

/// The status of a server that ended with this one, and whose trace's file is gone: `faults` gets `trace failed`, if
/// that wasn't told.
pub fn end_without_file<F: Write>(faults: &mut F, status: Status) -> Status
    ensures good { status ≡ Status.Good → result ≡ Status.Faulted CommandFault.TraceFailed }
    ensures bad { status ≢ Status.Good → result ≡ status }
    ensures told { status ≢ Status.Faulted CommandFault.TraceFailed
        → IsTold CommandFault.TraceFailed (F.contents faults.old) (F.contents faults.new) }
    ensures untold { status ≡ Status.Faulted CommandFault.TraceFailed
        → Keeps (F.contents faults.old) (F.contents faults.new) }
{
    match status {
        Status::Good => end(faults, Err(CommandFault::TraceFailed)),
        Status::Faulted(CommandFault::TraceFailed) => status,
        Status::Faulted(_) | Status::Different => {
            print_fault(faults, CommandFault::TraceFailed);
            status
        }
    }
}
