//! All that is there, told part by part.

ghost use Rattle.std.specs.Prelude.{◌≡◌, true, IsTrue};
ghost use Rattle.fl_marks.specs.Conflict.{IsLawful};
ghost use Rattle.fl_state.specs.Telling.{Tells};

use crate::rows::tell_locks;
use crate::sink::StateSink;
use crate::walk::{tell_all, tell_chain};
use fl_core::Core;

/// Tells all that is there: the nodes, the open files, the locks, and the waiting requests from the oldest on. False
/// says that the sink refused a part; what it was told then is left open.
pub fn tell_state<S: StateSink>(core: &Core, sink: &mut S) -> bool
    ensures infallible { IsTrue S.infallible → result ≡ true }
    ensures kept { S.kept sink.new ≡ S.kept sink.old }
    ensures told { result ≡ true → IsLawful core.now.marking → Tells core.now (S.told sink.old) (S.told sink.new) }
{
    let arenas = core.arenas();
    let directory = &arenas.directory;
    if !tell_all(directory.nodes, directory.node_chains, sink) {
        return false;
    }
    if !tell_all(directory.files, directory.file_chains, sink) {
        return false;
    }
    if !tell_locks(arenas.locks, sink) {
        return false;
    }
    tell_chain(arenas.parked, 0, sink)
}
