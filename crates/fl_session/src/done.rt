//! The result of a session.

ghost use Rattle.std.specs.Prelude.{◌≡◌, ℕ, List, [], Option, Some, false};
ghost use Rattle.std.specs.Io.KnownBytes.{Keeps};
ghost use Rattle.fl_desk.specs.Legal.{IsLegal};
ghost use Rattle.fl_transport.specs.Ending.{IsRead};
ghost use Rattle.fl_waiting.specs.declared.rules.Rules.{Rules};

use fl_history::History;
use fl_transport::Fault;
use std::alloc::Global;

/// The result of a session.
#[derive(Debug, Drop)]
pub struct Done {
    /// The orders that it took and their replies.
    pub history: History,
    /// Why it ended early, if it did: the reader's fault before the writer's.
    pub fault: Option<Fault>,
    /// Some order was refused: memory ran out, or a board couldn't tell its history.
    pub refused: bool,
}

impl Done {
    /// The result of a session that ends with this fault and has no history.
    #[tactic(auto, using(crate::proofs::ServedLemmas::nothing_legal, crate::proofs::ServedLemmas::nothing_read))]
    pub fn nothing(alloc: Global, fault: Fault) -> Done
        ensures history { result.history ≡ [] }
        ensures legal { (rules : Rules) → IsLegal rules result.history }
        ensures fault { result.fault ≡ Some fault }
        ensures refused { result.refused ≡ false }
        ensures read { (left left_now : Option (List ℕ)) → Keeps left left_now → IsRead left left_now [] [] }
    {
        Done {
            history: History::new(alloc),
            fault: Some(fault),
            refused: false,
        }
    }
}
