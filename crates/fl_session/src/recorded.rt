//! The result of a session whose lines went to a journal.

ghost use Rattle.std.specs.Prelude.{◌≡◌, ℕ, List, [], Option, None, Some, false};
ghost use Rattle.std.specs.Io.KnownBytes.{Keeps};
ghost use Rattle.fl_session.specs.Recorded.{done_of};
ghost use Rattle.fl_transport.specs.Ending.{IsRead};
ghost use Rattle.fl_waiting.specs.declared.rules.Rules.{Rules};

use crate::done::Done;
use fl_history::{History, Lines};
use fl_transport::Fault;
use std::alloc::Global;

/// The result of a session whose lines went to a journal.
#[derive(Drop)]
pub struct Recorded<K> {
    /// Where its lines went: the orders that it took and their replies. It is there, except at `NoMemory` and
    /// `NoReader`, when it was dropped.
    pub journal: Option<K>,
    /// Why it ended early, if it did: the reader's fault before the writer's.
    pub fault: Option<Fault>,
    /// Some order was refused: memory ran out, or a board couldn't tell its history.
    pub refused: bool,
}

impl<K> Recorded<K> {
    /// The result of a session that ends with this fault and has no journal.
    pub fn nothing(alloc: Global, fault: Fault) -> Recorded<K>
        ensures journal { result.journal ≡ None }
        ensures fault { result.fault ≡ Some fault }
        ensures refused { result.refused ≡ false }
        ensures read { (left left_now : Option (List ℕ)) → Keeps left left_now → IsRead left left_now [] [] }
    {
        let Done { fault, refused, .. } = Done::nothing(alloc, fault);
        Recorded {
            journal: None,
            fault,
            refused,
        }
    }
}

impl Recorded<Lines> {
    /// The same, with the lines as its history.
    pub fn into_done(self, alloc: Global) -> Done
        ensures is { result ≡ done_of (λ lines. lines.items) self }
    {
        let Recorded {
            journal,
            fault,
            refused,
        } = self;
        let history = match journal {
            Some(lines) => History::of(lines),
            None => History::new(alloc),
        };
        Done {
            history,
            fault,
            refused,
        }
    }
}
