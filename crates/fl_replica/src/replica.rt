//! The copies of the directory that looks read.

ghost use Rattle.std.specs.Prelude.{◌≡◌, ◌↔◌, true, Some, IfOk, IfSome, IsSome};
ghost use Rattle.fl_counter.specs.Tolds.{own_replies};
ghost use Rattle.fl_replica.specs.Asks.{present_after};
ghost use Rattle.fl_order.specs.Order.{only_reads};

use crate::board_name::BoardName;
use fl_counter::{LockDirectory, Tolds};
use fl_log::{Ask, Beginning};
use fl_order::{Answer, Errno, NoMemory, Order};
use left_right::{Absorb, ReadHandle};
use std::alloc::{AllocError, Global};
use std::marker::{Model, PhantomData};

/// An order to be published, with what it was told itself if nobody else was told anything, and with the beginnings of
/// the log before it and with it.
pub struct Update<L: BoardName, C: LockDirectory> {
    order: Order,
    alone: Option<Option<Result<Answer, Errno>>>,
    before: Beginning<L, Ask>,
    after: Beginning<L, Ask>,
    of: PhantomData<C>,
}

impl<L: BoardName, C: LockDirectory> Model for Update<L, C> {
    ghost use Rattle.std.specs.Prelude.{◌≡◌, IfSome};
    ghost use Rattle.fl_counter.specs.Tolds.{own_replies};
    ghost use Rattle.fl_replica.specs.Asks.{Extension, present_after};

    ghost Value = { Extension };

    ghost view = { λ u. record { order = u.order; before = u.before; after = u.after } };

    ghost invariant = { λ u. (present_after C.next (C.opening L.rules) u.after
        ≡ C.next (present_after C.next (C.opening L.rules) u.before) u.order)
        × IfSome u.alone (λ reply.
        C.replies (present_after C.next (C.opening L.rules) u.before) u.order ≡ own_replies u.order reply) };
}

impl<L: BoardName, C: LockDirectory> Drop for Update<L, C> {
    // One call for an owner, and not a step for each part.
    fn drop(self) {
        let Update {
            order: _,
            alone: _,
            before: _before,
            after: _after,
            of: _,
        } = self;
    }
}

impl<L: BoardName, C: LockDirectory> Update<L, C> {
    // An update by this order, which stands behind the asks of `before`. Those of `after` are they and the order.
    pub(crate) fn new(
        order: &Order,
        alone: Option<Option<Result<Answer, Errno>>>,
        before: &Beginning<L, Ask>,
        after: &Beginning<L, Ask>,
    ) -> Update<L, C>
        requires next { present_after C.next (C.opening L.rules) after.now
            ≡ C.next (present_after C.next (C.opening L.rules) before.now) order.now }
        requires alone { IfSome alone (λ reply.
            C.replies (present_after C.next (C.opening L.rules) before.now) order.now ≡ own_replies order.now reply) }
        ensures { (result.before ≡ before.now) × (result.after ≡ after.now) × (result.order ≡ order.now) }
    {
        Update {
            order: *order,
            alone,
            before: before.again(),
            after: after.again(),
            of: PhantomData,
        }
    }
}

/// A copy of the directory. Contracts see it as the asks that led to it.
pub struct Replica<L: BoardName, C: LockDirectory> {
    core: C,
    asks: Beginning<L, Ask>,
    // Room for the replies of an order that it takes.
    tolds: Tolds,
}

impl<L: BoardName, C: LockDirectory> Model for Replica<L, C> {
    ghost use Rattle.std.specs.Prelude.{◌≡◌, List};
    ghost use Rattle.fl_counter.specs.Tolds.{HasRoom};
    ghost use Rattle.fl_log.specs.Asked.{Ask};
    ghost use Rattle.fl_replica.specs.Asks.{present_after};

    ghost Value = { List Ask };

    ghost view = { λ p. p.asks };

    ghost invariant = { λ p. (p.core ≡ present_after C.next (C.opening L.rules) p.asks)
        × HasRoom (C.rules p.core) p.tolds };
}

impl<L: BoardName, C: LockDirectory> Drop for Replica<L, C> {
    // One call for an owner, and not a step for each part.
    fn drop(self) {
        let Replica {
            core: _core,
            asks: _asks,
            tolds: _tolds,
        } = self;
    }
}

impl<L: BoardName, C: LockDirectory> Replica<L, C> {
    /// A copy of a directory that these asks led to.
    pub(crate) fn of(
        alloc: Global,
        core: &C,
        asks: &Beginning<L, Ask>,
    ) -> Result<Replica<L, C>, NoMemory>
        requires core { core.now ≡ present_after C.next (C.opening L.rules) asks.now }
        ensures { IfOk result (λ replica. replica ≡ asks.now) }
    {
        let tolds = Tolds::new(alloc, core.rules())?;
        let core = core.try_clone(alloc)?;
        Ok(Replica {
            core,
            asks: asks.again(),
            tolds,
        })
    }

    // The asks that led to it.
    fn asks(&self) -> Beginning<L, Ask>
        ensures { result ≡ self.now }
    {
        self.asks.again()
    }

    // What an order that only reads is answered.
    fn answer(&self, order: &Order) -> Option<Result<Answer, Errno>>
        ensures reads { IsSome result ↔ (only_reads order.now.op ≡ true) }
        ensures replies { IsSome result
            → C.replies (present_after C.next (C.opening L.rules) self.now) order.now ≡ own_replies order.now result }
    {
        self.core.answer(order)
    }
}

impl<L: BoardName, C: LockDirectory> Absorb<Update<L, C>> for Replica<L, C> {
    ghost use Rattle.fl_replica.specs.Inside.Updates.{extended};

    type State = Beginning<L, Ask>;

    ghost state = { λ p. p };

    ghost applied = { extended };

    ghost never_fails = { Unit {0} };

    fn absorb_first(
        &mut self,
        operation: &Update<L, C>,
        _other: &Replica<L, C>,
    ) -> Result<(), AllocError> {
        if self.asks.is(&operation.before) {
            match &operation.alone {
                Some(reply) => self.core.replay(&operation.order, reply, &mut self.tolds),
                None => self.core.step(&operation.order, &mut self.tolds),
            }
            self.asks = operation.after.again();
        }
        Ok(())
    }
}

/// What a worker reads the copy that is published through.
pub struct ReplicaReader<L: BoardName, C: LockDirectory> {
    pub(crate) handle: ReadHandle<Replica<L, C>>,
}

impl<L: BoardName, C: LockDirectory> Drop for ReplicaReader<L, C> {
    // One call for an owner, and not a step for each part.
    fn drop(self) {
        let ReplicaReader { handle: _handle } = self;
    }
}

/// What an order that only reads is answered by what is published, and the asks that led to that. None if no copy
/// could be entered.
pub fn look_at<L: BoardName, C: LockDirectory>(
    reader: &mut ReplicaReader<L, C>,
    order: &Order,
) -> Option<(Beginning<L, Ask>, Result<Answer, Errno>)>
    requires { only_reads order.now.op ≡ true }
    ensures { IfSome result (λ shown.
        C.replies (present_after C.next (C.opening L.rules) shown.0) order.now ≡ own_replies order.now (Some shown.1)) }
{
    let guard = reader.handle.enter()?;
    let replica: &Replica<L, C> = &guard;
    let asks = replica.asks();
    let Some(answer) = replica.answer(order) else {
        unreachable!();
    };
    Some((asks, answer))
}
