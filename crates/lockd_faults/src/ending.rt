//! How `lockd serve` ends once its session is over: which faults are told.

ghost use Rattle.std.specs.Prelude.{◌≡◌, ◌≢◌, ◌&&◌, ℕ, List, Option, None, Some, IsTrue};
ghost use Rattle.fl_transport.specs.declared.fault.Fault.{Fault as SessionFault};
ghost use Rattle.lockd_faults.specs.declared.fault.CommandFault.{CommandFault};
ghost use Rattle.lockd_faults.specs.Ending.{Ends, EndsBehind, EndsUntraced, told_of};

use crate::fault::{CommandFault, print_fault};
use crate::observer::{Observer, Untraced};
use crate::status::{Status, end, end_without_file};
use fl_transport::Fault;
use std::io;
use std::io::Write;

/// Ends a server to which no connection came: tells that, and the observer why.
pub fn end_unheard<F: Write, O: Observer>(
    faults: &mut F,
    observer: &mut O,
    why: io::Error,
) -> Status
    ensures { Ends (Some CommandFault.Listen) (record {
      status = result;
      told = F.contents faults.old;
      told_now = F.contents faults.new;
    }) }
{
    let status = end(faults, Err(CommandFault::Listen));
    observer.unheard(why);
    status
}

/// Ends a server that has no file for its trace: tells that, and the observer why.
pub fn end_unopened<F: Write, O: Observer>(
    faults: &mut F,
    observer: &mut O,
    why: Untraced,
) -> Status
    ensures { Ends (Some CommandFault.Trace) (record {
      status = result;
      told = F.contents faults.old;
      told_now = F.contents faults.new;
    }) }
{
    let status = end(faults, Err(CommandFault::Trace));
    observer.untraced(why);
    status
}

/// Ends a session behind a trace whose file is said to be whole or not.
pub fn end_resumed<F: Write>(faults: &mut F, fault: Option<Fault>, whole: bool) -> Status
    ensures ends { EndsBehind fault whole (record {
      status = result;
      told = F.contents faults.old;
      told_now = F.contents faults.new;
    }) }
    ensures good { result ≡ Status.Good → (fault ≡ None) × IsTrue whole }
    ensures memory { result ≡ Status.Faulted CommandFault.NoMemory → fault ≡ Some SessionFault.NoMemory }
{
    if !whole {
        return end_untraced(faults, fault);
    }
    end_session(faults, fault)
}

/// Ends a session of which no more is to be told than its fault, if it has one.
pub fn end_session<F: Write>(faults: &mut F, fault: Option<Fault>) -> Status
    ensures ends { Ends (told_of fault) (record {
      status = result;
      told = F.contents faults.old;
      told_now = F.contents faults.new;
    }) }
    ensures good { result ≡ Status.Good → fault ≡ None }
    ensures memory { result ≡ Status.Faulted CommandFault.NoMemory → fault ≡ Some SessionFault.NoMemory }
    ensures stored { result ≡ Status.Faulted CommandFault.TraceFailed → fault ≡ Some SessionFault.Unstored }
    ensures heard { result ≢ Status.Faulted CommandFault.Listen }
{
    match fault {
        None => Status::Good,
        Some(fault) => end(faults, Err(CommandFault::from(fault))),
    }
}

/// Ends a session whose trace failed: prints its fault, if it has another, and then that.
pub fn end_untraced<F: Write>(faults: &mut F, fault: Option<Fault>) -> Status
    ensures ends { EndsUntraced (told_of fault) (record {
      status = result;
      told = F.contents faults.old;
      told_now = F.contents faults.new;
    }) }
    ensures bad { result ≢ Status.Good }
    ensures memory { result ≡ Status.Faulted CommandFault.NoMemory → fault ≡ Some SessionFault.NoMemory }
    ensures heard { result ≢ Status.Faulted CommandFault.Listen }
{
    match fault {
        None | Some(Fault::Unstored) => end(faults, Err(CommandFault::TraceFailed)),
        Some(_) => {
            let status = end_session(faults, fault);
            print_fault(faults, CommandFault::TraceFailed);
            status
        }
    }
}

/// Ends a server with this status, whose trace's file was whole or not. If it was whole, and isn't there any more, that
/// is told.
pub fn end_at<F: Write>(faults: &mut F, status: Status, whole: bool, there: bool) -> Status
    ensures { (fault : Option SessionFault) (told : Option (List ℕ))
        → EndsBehind fault whole (record { status = status; told = told; told_now = F.contents faults.old })
        → EndsBehind fault (whole && there) (record {
          status = result;
          told = told;
          told_now = F.contents faults.new;
        }) }
{
    if !whole {
        return status;
    }
    if there {
        return status;
    }
    end_without_file(faults, status)
}
