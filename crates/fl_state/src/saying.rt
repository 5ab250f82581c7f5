//! What stands in the arenas of a core, as parts that are told.

ghost use Rattle.std.specs.Prelude.{◌≡◌};
ghost use Rattle.fl_order.specs.declared.state_part.StatePart.{StatePart};
ghost use Rattle.fl_state.specs.Inside.Saying.{file_part, lock_part, node_part, wait_part};

use fl_dir::Slot;
use fl_marks::{Class, Kind, Run};
use fl_order::StatePart;
use fl_waiting::Claim;

/// What can be told as a part.
pub(crate) trait Says {
    /// The part that it is.
    ghost said: { Self → StatePart };

    /// The part that it is.
    fn part(&self) -> StatePart
        ensures { result ≡ said self.now };
}

/// A node under its number.
impl Says for (u64, Slot) {
    ghost said = { node_part };

    fn part(&self) -> StatePart {
        let node = &self.1.node;
        StatePart::Node {
            number: self.0,
            lookups: node.lookups,
            linked: node.linked,
            mode: node.mode,
            uid: node.uid,
            gid: node.gid,
            name: node.name,
        }
    }
}

/// The node of an open file, under its fh.
impl Says for (u64, u64) {
    ghost said = { file_part };

    fn part(&self) -> StatePart {
        StatePart::File {
            fh: self.0,
            node: self.1,
        }
    }
}

/// A request that waits.
impl Says for Claim {
    ghost said = { wait_part };

    fn part(&self) -> StatePart {
        let request = &self.request;
        StatePart::Wait {
            unique: request.unique,
            node: request.node,
            ask: request.ask,
        }
    }
}

/// A run of bytes with a lock.
pub(crate) fn lock_part(run: &Run) -> StatePart
    ensures { result ≡ lock_part run.now }
{
    StatePart::Lock {
        node: run.key.node,
        owner: run.key.owner,
        start: run.start,
        end: run.end,
        write: run.mark.kind == Kind::Write,
        pid: run.mark.pid,
        flock: run.key.class == Class::Flock,
    }
}
