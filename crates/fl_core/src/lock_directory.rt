//! A core is a lock directory, which replicas follow.

ghost use Rattle.fl_core.specs.State.{opening, snapshot_of};
ghost use Rattle.fl_core.specs.Step.{next, replies};

use crate::state::Core;
use fl_counter::{LockDirectory, Tolds};
use fl_order::{Answer, Errno, NoMemory, Order};
use fl_waiting::Rules;
use std::alloc::Global;

impl LockDirectory for Core {
    ghost rules = { λ s. s.rules };

    ghost opening = { λ rules. snapshot_of (opening rules) };

    ghost next = { next };

    ghost replies = { replies };

    fn rules(&self) -> Rules {
        Core::rules(self)
    }

    fn try_clone(&self, alloc: Global) -> Result<Core, NoMemory> {
        Core::try_clone(self, alloc)
    }

    fn step(&mut self, order: &Order, tolds: &mut Tolds) {
        Core::step(self, order, tolds);
    }

    fn replay(&mut self, order: &Order, reply: &Option<Result<Answer, Errno>>, tolds: &mut Tolds) {
        Core::replay(self, order, reply, tolds);
    }

    fn answer(&self, order: &Order) -> Option<Result<Answer, Errno>> {
        Core::answer(self, order)
    }
}
