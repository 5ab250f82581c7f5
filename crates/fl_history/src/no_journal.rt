//! Lines that nothing keeps.

ghost use Rattle.std.specs.Prelude.{◌≡◌, [], true};

use crate::history::Line;
use crate::journal::Journal;
use crate::past::Past;
use fl_order::{NoMemory, Order, Told};
use std::marker::Model;

/// Lines that go nowhere: they take no memory, and there is always room. Contracts see them all the same, as their
/// list.
#[derive(Drop)]
pub struct NoJournal {
    past: Past<Line>,
}

impl Model for NoJournal {
    ghost use Rattle.std.specs.Prelude.{List};
    ghost use Rattle.fl_history.specs.declared.history.Line.{Line};

    ghost Value = { List Line };

    ghost view = { λ f. f.past.items };
}

impl NoJournal {
    /// No lines.
    pub fn new() -> NoJournal
        ensures { result ≡ [] }
    {
        NoJournal { past: Past::new() }
    }
}

impl Journal for NoJournal {
    ghost lines = { λ lines. lines };

    ghost stored = { λ lines. lines };

    ghost room = { λ _. 2048 };

    ghost piece = { λ lines. lines };

    ghost draft = { λ _. [] };

    ghost infallible = { true };

    #[tactic(auto, using(crate::proofs::Prefixes::of_itself))]
    fn reserve(&mut self, _count: usize) -> Result<(), NoMemory> {
        Ok(())
    }

    #[tactic(auto, using(crate::proofs::Prefixes::of_one_more))]
    fn push_asked(&mut self, worker: u32, order: &Order) {
        let line = Line::Asked {
            worker,
            order: *order,
        };
        self.past = self.past.and(&line);
    }

    #[tactic(auto, using(crate::proofs::Prefixes::of_one_more))]
    fn push_told(&mut self, told: &Told) {
        self.past = self.past.and(&Line::Told(*told));
    }

    #[tactic(auto, using(crate::proofs::Prefixes::of_itself))]
    fn store_all(&mut self) -> bool {
        true
    }

    #[tactic(auto, using(crate::proofs::Prefixes::of_itself))]
    fn store_if_due(&mut self) -> bool {
        true
    }
}
