//! The arenas that hold a core.

use crate::state::Core;
use fl_dir::DirArenas;
use fl_marks::{Key, Mark};
use fl_ranges::{Rows, Span};
use fl_waiting::{Arena, Claim};

/// The arenas that hold what is there: six, since the rows of locks have two.
#[derive(Clone, Copy)]
pub struct Arenas<'a> {
    /// Those of nodes, names and open files.
    pub directory: DirArenas<'a>,
    /// Those of the locks.
    pub locks: &'a Rows<Key, Span<Mark>>,
    /// That of the parked requests, in the order of asking.
    pub parked: &'a Arena<Claim>,
}

impl Core {
    ghost use Rattle.fl_core.specs.Arenas.{AreCounted, AreLinked, Hold, Keep};

    /// The arenas that hold it.
    pub fn arenas(&self) -> Arenas<'_>
        ensures hold { Hold result self.now }
        ensures kept { Keep result self.now }
        ensures counted { AreCounted result }
        ensures linked { AreLinked result }
    {
        let parts = &self.parts;
        Arenas {
            directory: parts.directory.arenas(),
            locks: parts.locks.rows(),
            parked: parts.parked.arena(),
        }
    }
}
