//! When the trace's file has nothing to say.

ghost use Rattle.std.specs.Prelude.{◌↔◌, IsTrue};
ghost use Rattle.lockd_serve.specs.Unserved.{ServesNobody};

use lockd_faults::{CommandFault, Status};

/// Whether a server that ended so served nobody, so that the file that was made for its trace is of no use. The file
/// of a session that was served is kept, however it ended.
pub fn is_unused(status: Status) -> bool
    ensures { IsTrue result ↔ ServesNobody status }
{
    matches!(
        status,
        Status::Faulted(CommandFault::Listen | CommandFault::NoMemory)
    )
}
