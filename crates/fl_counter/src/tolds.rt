//! The list of replies that one order gives, with room for all of them.

ghost use Rattle.std.specs.Prelude.{◌≡◌, ◌<◌, ◌↔◌, [], ◌∷◌, ◌++◌, length, IfOk, Option, Some, Result};
ghost use Rattle.fl_counter.specs.Tolds.{HasRoom, own_replies};
ghost use Rattle.fl_order.specs.declared.errno.Errno.{Errno};
ghost use Rattle.fl_order.specs.declared.told.Answer.{Answer};

use fl_order::{Answer, Errno, NoMemory, Order, Told};
use fl_waiting::Rules;
use std::alloc::Global;
use std::marker::Model;

/// The replies that one order gives, with room for all that one gives under the rules that it was made by. Contracts
/// see their list and the room.
pub struct Tolds {
    tolds: Vec<Told>,
}

impl Model for Tolds {
    ghost use Rattle.std.specs.Prelude.{vec_capacity};
    ghost use Rattle.fl_counter.specs.Tolds.{Replies};

    ghost Value = { Replies };

    ghost view = { λ t. record { told = t.tolds.items; room = vec_capacity t.tolds } };
}

impl Drop for Tolds {
    // One call for an owner, and not a step for each part.
    fn drop(self) {
        let Tolds { tolds: _tolds } = self;
    }
}

impl Tolds {
    /// No replies, with room for those of one order under these rules: 257 by the standard ones.
    pub fn new(alloc: Global, rules: Rules) -> Result<Tolds, NoMemory>
        ensures none { IfOk result (λ tolds. tolds.told ≡ []) }
        ensures room { IfOk result (λ tolds. HasRoom rules tolds) }
    {
        Ok(Tolds {
            tolds: Vec::with_capacity(alloc, rules.parked as usize + 1)?,
        })
    }

    /// The replies, in their order.
    pub fn as_slice(&self) -> &[Told]
        ensures { result.now ≡ self.now.told }
    {
        &self.tolds
    }

    /// What this order was told itself, a reply or none yet, if nobody else was told anything.
    pub fn own_alone(&self, order: &Order) -> Option<Option<Result<Answer, Errno>>>
        ensures { (reply : Option (Result Answer Errno)) →
            (result ≡ Some reply) ↔ (self.now.told ≡ own_replies order.now reply) }
    {
        match self.tolds.as_slice() {
            [] => Some(None),
            [told] if told.unique == order.unique => Some(Some(told.result)),
            _ => None,
        }
    }

    /// Forgets all replies. The room stays.
    pub fn clear(&mut self)
        ensures told { self.new.told ≡ [] }
        ensures room { self.new.room ≡ self.old.room }
    {
        self.tolds.clear();
    }

    /// One reply more, after the others.
    pub fn push(&mut self, told: Told)
        requires { length self.old.told < self.old.room }
        ensures told { self.new.told ≡ self.old.told ++ (told ∷ []) }
        ensures room { self.new.room ≡ self.old.room }
    {
        self.tolds.push_reserved(told);
    }
}
