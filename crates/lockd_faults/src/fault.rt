//! Why a command gives up, and the line that says so.
ghost use Rattle.std.specs.Prelude.{◌≡◌};
ghost use Rattle.lockd_faults.specs.Faults.{IsTold};

use crate::line_buffer::LineBuffer;
use crate::streams::begin;
use fl_order::NoMemory;
use std::alloc::{AllocError, AllocFailed};
use std::error::Error;
use std::fmt;
use std::fmt::{Display, Formatter};
use std::io::Write;

/// Why a command gave up. Its text is the line on standard error.
#[derive(Clone, Copy, Debug, PartialEq, Eq)]
pub enum CommandFault {
    /// This line of the input, from 1, is the first that is wrong.
    BadLine(usize),
    /// Out of memory.
    NoMemory,
    /// A worker got no reader of what the board publishes, or the board couldn't tell its history.
    NoReader,
    /// No connection came at the socket's path: it can't be bound, or accepting failed.
    Listen,
    /// The input can't be read.
    Read,
    /// The output can't be written.
    Write,
    /// The stream of messages ended inside one.
    Cut,
    /// A message says this length, which none has: it is outside 40 to 8192 bytes.
    BadLength(u32),
    /// There is no connection to a server at the path.
    Connect,
    /// A reply says a length that none has, outside 16 to 8192 bytes.
    BadReply,
    /// A file is at the trace's path already, or none can be made there.
    Trace,
    /// The trace's file lacks lines: it can't be written.
    TraceFailed,
    /// The trace to go on from begins no legal one: this line, from 1, is the first that breaks the rules.
    Differs(usize),
}

impl Display for CommandFault {
    ghost use Rattle.std.specs.Prelude.{Some};
    ghost use Rattle.lockd_faults.specs.Faults.{fault_text};

    ghost output = { λ fault. Some (fault_text fault) };

    fn fmt<W: fmt::Write>(&self, f: &mut Formatter<W>) -> fmt::Result {
        match self {
            CommandFault::BadLine(n) => write!(f, "bad line {n}"),
            CommandFault::NoMemory => f.write_str("no memory"),
            CommandFault::NoReader => f.write_str("no reader"),
            CommandFault::Listen => f.write_str("cannot listen"),
            CommandFault::Read => f.write_str("read failed"),
            CommandFault::Write => f.write_str("write failed"),
            CommandFault::Cut => f.write_str("cut"),
            CommandFault::BadLength(n) => write!(f, "bad length {n}"),
            CommandFault::Connect => f.write_str("cannot connect"),
            CommandFault::BadReply => f.write_str("bad reply"),
            CommandFault::Trace => f.write_str("cannot trace"),
            CommandFault::TraceFailed => f.write_str("trace failed"),
            CommandFault::Differs(n) => write!(f, "differs {n}"),
        }
    }
}

impl Error for CommandFault {}

/// Tells a fault as one line, and takes no memory for it.
pub fn print_fault<F: Write>(faults: &mut F, fault: CommandFault)
    ensures { IsTold fault (F.contents faults.old) (F.contents faults.new) }
{
    let mut line = LineBuffer::new();
    if writeln!(line, "{fault}").is_ok() {
        begin(faults, line.as_bytes());
    }
}

impl From<NoMemory> for CommandFault {
    ghost use Rattle.lockd_faults.specs.declared.fault.CommandFault.TheVariants.{NoMemory};

    ghost from_gives = { λ _ fault. fault ≡ NoMemory };

    fn from(_e: NoMemory) -> CommandFault {
        CommandFault::NoMemory
    }
}

impl<T: Drop> From<AllocFailed<T>> for CommandFault {
    ghost use Rattle.lockd_faults.specs.declared.fault.CommandFault.TheVariants.{NoMemory};

    ghost from_gives = { λ _ fault. fault ≡ NoMemory };

    fn from(_e: AllocFailed<T>) -> CommandFault {
        CommandFault::NoMemory
    }
}

impl From<fl_transport::Fault> for CommandFault {
    ghost use Rattle.lockd_faults.specs.Causes.{fault_of};

    ghost from_gives = { λ told fault. fault ≡ fault_of told };

    fn from(told: fl_transport::Fault) -> CommandFault {
        match told {
            fl_transport::Fault::Cut => CommandFault::Cut,
            fl_transport::Fault::BadLength(len) => CommandFault::BadLength(len),
            fl_transport::Fault::Read => CommandFault::Read,
            fl_transport::Fault::Write => CommandFault::Write,
            fl_transport::Fault::NoMemory => CommandFault::NoMemory,
            fl_transport::Fault::NoReader => CommandFault::NoReader,
            fl_transport::Fault::Unstored => CommandFault::TraceFailed,
        }
    }
}

impl From<AllocError> for CommandFault {
    ghost use Rattle.lockd_faults.specs.declared.fault.CommandFault.TheVariants.{NoMemory};

    ghost from_gives = { λ _ fault. fault ≡ NoMemory };

    fn from(_e: AllocError) -> CommandFault {
        CommandFault::NoMemory
    }
}
