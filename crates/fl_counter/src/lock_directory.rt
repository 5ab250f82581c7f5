//! What replicas need of a lock directory.

ghost use Rattle.std.specs.Prelude.{◌≡◌, ◌↔◌, true, List, IfOk, IsSome};
ghost use Rattle.fl_counter.specs.Tolds.{HasRoom, own_replies};
ghost use Rattle.fl_order.specs.Order.{only_reads};
ghost use Rattle.fl_order.specs.declared.order.Order.{Order};
ghost use Rattle.fl_order.specs.declared.told.Told.{Told};
ghost use Rattle.fl_waiting.specs.declared.rules.Rules.{Rules};

use crate::tolds::Tolds;
use fl_order::{Answer, Errno, NoMemory, Order};
use fl_waiting::Rules;
use std::alloc::Global;

/// A lock directory that can be copied, and whose copies follow it by taking the same orders.
pub trait LockDirectory: Drop {
    /// By which rules requests wait.
    ghost rules: { Self → Rules };

    /// What is there before the first order, under these rules.
    ghost opening: { Rules → Self };

    /// What is there after an order.
    ghost next: { Self → Order → Self };

    /// The replies that an order gives.
    ghost replies: { Self → Order → List Told };

    /// By which rules requests wait.
    fn rules(&self) -> Rules
        ensures { result ≡ rules self.now };

    /// The same once more. It fails only if memory runs out.
    fn try_clone(&self, alloc: Global) -> Result<Self, NoMemory>
        ensures { IfOk result (λ copy. copy ≡ self.now) };

    /// Takes an order. What `tolds` has afterwards is left open; its room stays.
    fn step(&mut self, order: &Order, tolds: &mut Tolds)
        requires { HasRoom (rules self.old) tolds.old }
        ensures next { self.new ≡ next self.old order.now }
        ensures rules { rules self.new ≡ rules self.old }
        ensures room { tolds.new.room ≡ tolds.old.room };

    /// Takes an order that was told this itself, a reply or none yet, and nobody else anything. What `tolds` has
    /// afterwards is left open; its room stays.
    fn replay(&mut self, order: &Order, reply: &Option<Result<Answer, Errno>>, tolds: &mut Tolds)
        requires alone { replies self.old order.now ≡ own_replies order.now reply.now }
        requires room { HasRoom (rules self.old) tolds.old }
        ensures next { self.new ≡ next self.old order.now }
        ensures rules { rules self.new ≡ rules self.old }
        ensures room { tolds.new.room ≡ tolds.old.room };

    /// What an order that only reads, GETLK or GETATTR, is answered; none for any other.
    fn answer(&self, order: &Order) -> Option<Result<Answer, Errno>>
        ensures reads { IsSome result ↔ (only_reads order.now.op ≡ true) }
        ensures replies { IsSome result → replies self.now order.now ≡ own_replies order.now result }
        ensures unchanged { IsSome result → next self.now order.now ≡ self.now };
}
