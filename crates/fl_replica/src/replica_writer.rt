//! The writer of what looks read.

ghost use Rattle.std.specs.Prelude.{◌≡◌, ◌<◌, ◌^◌, ◌⊎◌, ◌↔◌, [], true, None, Some, IfOk, IfSome, IsSome, OnOk, OnErr};
ghost use Rattle.left_right.specs.Handles.{published, pending};
ghost use Rattle.fl_counter.specs.Tolds.{own_replies};
ghost use Rattle.fl_replica.specs.Asks.{present_after};
ghost use Rattle.fl_replica.specs.Inside.Updates.{in_the_end};

use crate::board_name::BoardName;
use crate::replica::{Replica, ReplicaReader, Update};
use fl_counter::LockDirectory;
use fl_log::{Ask, Beginning};
use fl_order::{Answer, Errno, NoMemory, Op, Order};
use left_right::{Absorb, WriteHandle};
use std::alloc::{AllocError, Global};
use std::marker::Model;
use std::sync::Wait;

/// The writer of both copies. Contracts see the asks that were added, and those that led to what is published. If
/// memory for an update runs out, or the copies are let go, readers find nothing until new ones are made. Letting them
/// go waits for readers that are in a copy.
pub struct ReplicaWriter<L: BoardName, C: LockDirectory, R: Wait + Drop + Copy>
where
    Replica<L, C>: Absorb<Update<L, C>, State = Beginning<L, Ask>>,
{
    // None if there are no copies.
    writer: Option<WriteHandle<Replica<L, C>, Update<L, C>, R>>,
    asks: Beginning<L, Ask>,
    making: Making<R>,
}

// With what copies are made: what waits for readers, the places for these, and how many updates come between two
// publications.
#[derive(Drop)]
struct Making<R: Wait + Drop + Copy> {
    rt: R,
    readers: usize,
    most: usize,
    ghost some: { (0 < readers) × (readers < 2 ^ 32) },
}

impl<L: BoardName, C: LockDirectory, R: Wait + Drop + Copy> Model for ReplicaWriter<L, C, R>
where
    Replica<L, C>: Absorb<Update<L, C>, State = Beginning<L, Ask>>,
{
    ghost use Rattle.std.specs.Prelude.{◌≡◌, IfSome, option_map};
    ghost use Rattle.fl_replica.specs.Asks.{Publication};
    ghost use Rattle.fl_replica.specs.Inside.Updates.{in_the_end};
    ghost use Rattle.left_right.specs.Handles.{published, pending};

    ghost Value = { Publication };

    ghost view = { λ p. record { asks = p.asks; shown = option_map (λ w. published w) p.writer } };

    ghost invariant = { λ p. IfSome p.writer (λ w. in_the_end (published w) (pending w) ≡ p.asks) };
}

impl<L: BoardName, C: LockDirectory, R: Wait + Drop + Copy> Drop for ReplicaWriter<L, C, R> {
    fn drop(self) {
        let Self {
            writer: _writer,
            asks: _asks,
            making: _making,
        } = self;
    }
}

impl<L: BoardName, C: LockDirectory, R: Wait + Drop + Copy> ReplicaWriter<L, C, R> {
    /// A writer of a directory that took no ask so far, with a place for so many readers. Updates take no memory if no
    /// more than `most` are added between two publications.
    pub fn new(
        alloc: Global,
        rt: R,
        core: &C,
        none: &Beginning<L, Ask>,
        readers: usize,
        most: usize,
    ) -> Result<ReplicaWriter<L, C, R>, NoMemory>
        requires none { none.now ≡ [] }
        requires readers { (0 < readers) × (readers < 2 ^ 32) }
        requires core { core.now ≡ present_after C.next (C.opening L.rules) [] }
        ensures { IfOk result (λ writer. writer ≡ record { asks = []; shown = Some [] }) }
    {
        let making = Making { rt, readers, most };
        let writer = making.writer(alloc, core, none)?;
        Ok(ReplicaWriter {
            writer: Some(writer),
            asks: none.again(),
            making,
        })
    }

    /// A reader of what is published. It is refused if memory runs out, or if each place for a reader is taken.
    pub fn reader(&self) -> Result<ReplicaReader<L, C>, AllocError> {
        let Some(writer) = &self.writer else {
            return Err(AllocError);
        };
        let handle = writer.handle()?;
        Ok(ReplicaReader { handle })
    }

    /// Keeps an order to be published, which stands behind the asks of `before`. Those of `after` are they and the
    /// order. If it is known what the order was told alone (`Tolds::own_alone`), a copy tests less. If memory runs out,
    /// the copies are let go.
    pub fn add(
        &mut self,
        order: &Order,
        alone: Option<Option<Result<Answer, Errno>>>,
        before: &Beginning<L, Ask>,
        after: &Beginning<L, Ask>,
    )
        requires before { before.now ≡ self.old.asks }
        requires next { present_after C.next (C.opening L.rules) after.now
            ≡ C.next (present_after C.next (C.opening L.rules) before.now) order.now }
        requires alone { IfSome alone (λ reply.
            C.replies (present_after C.next (C.opening L.rules) before.now) order.now ≡ own_replies order.now reply) }
        ensures asks { self.new.asks ≡ after.now }
        ensures shown { (self.new.shown ≡ None) ⊎ (self.new.shown ≡ self.old.shown) }
    {
        self.asks = after.again();
        let kept = match &mut self.writer {
            Some(writer) => keep(writer, order, alone, before, after),
            None => true,
        };
        if !kept {
            self.writer = None;
        }
    }

    /// Lets both copies go, once no reader is in one. Nothing is published from here on, until `warm`.
    pub fn cool(&mut self)
        ensures asks { self.new.asks ≡ self.old.asks }
        ensures shown { self.new.shown ≡ None }
    {
        self.writer = None;
    }

    /// Makes two copies of the directory that all asks led to, and publishes it, if there are none. A refusal changes
    /// nothing.
    pub fn warm(&mut self, alloc: Global, core: &C) -> Result<(), NoMemory>
        requires core { core.now ≡ present_after C.next (C.opening L.rules) self.old.asks }
        ensures asks { self.new.asks ≡ self.old.asks }
        ensures shown { OnOk result ((self.new.shown ≡ Some self.old.asks)
            ⊎ (IsSome self.old.shown × (self.new.shown ≡ self.old.shown))) }
        ensures refused { OnErr result (self.new ≡ self.old) }
    {
        if self.writer.is_none() {
            let writer = self.making.writer(alloc, core, &self.asks)?;
            self.writer = Some(writer);
        }
        Ok(())
    }

    /// Publishes all updates, once no reader is in the copy that was published before the last one.
    pub fn publish(&mut self)
        ensures asks { self.new.asks ≡ self.old.asks }
        ensures shown { IfSome self.new.shown (λ asks. asks ≡ self.old.asks) }
        ensures kept { IsSome self.new.shown ↔ IsSome self.old.shown }
    {
        if let Some(writer) = &mut self.writer {
            let _ = writer.publish();
        }
    }
}

impl<R: Wait + Drop + Copy> Making<R> {
    // A writer of two copies of a directory that these asks led to.
    fn writer<L: BoardName, C: LockDirectory>(
        &self,
        alloc: Global,
        core: &C,
        asks: &Beginning<L, Ask>,
    ) -> Result<WriteHandle<Replica<L, C>, Update<L, C>, R>, NoMemory>
        requires core { core.now ≡ present_after C.next (C.opening L.rules) asks.now }
        ensures published { IfOk result (λ w. published w ≡ asks.now) }
        ensures end { IfOk result (λ w. in_the_end (published w) (pending w) ≡ asks.now) }
    {
        let first = Replica::of(alloc, core, asks)?;
        let second = Replica::of(alloc, core, asks)?;
        let mut writer = WriteHandle::new(alloc, self.rt, first, second, self.readers)?;
        grow(&mut writer, core, asks, self.most)?;
        Ok(writer)
    }
}

// Keeps an order to be published, and says whether there was memory for it.
fn keep<L: BoardName, C: LockDirectory, R: Wait + Drop + Copy>(
    writer: &mut WriteHandle<Replica<L, C>, Update<L, C>, R>,
    order: &Order,
    alone: Option<Option<Result<Answer, Errno>>>,
    before: &Beginning<L, Ask>,
    after: &Beginning<L, Ask>,
) -> bool
    requires before { in_the_end (published writer.old) (pending writer.old) ≡ before.now }
    requires next { present_after C.next (C.opening L.rules) after.now
        ≡ C.next (present_after C.next (C.opening L.rules) before.now) order.now }
    requires alone { IfSome alone (λ reply.
        C.replies (present_after C.next (C.opening L.rules) before.now) order.now ≡ own_replies order.now reply) }
    ensures shown { published writer.new ≡ published writer.old }
    ensures end { result ≡ true → in_the_end (published writer.new) (pending writer.new) ≡ after.now }
{
    let update = Update::new(order, alone, before, after);
    writer.append(update).is_ok()
}

// The writer's list of updates grows to the size that it keeps, so that no later update wants memory: it has those of
// two publications, each of at most so many. The directory is what is published and what will be, after these asks.
fn grow<L: BoardName, C: LockDirectory, R: Wait + Drop + Copy>(
    writer: &mut WriteHandle<Replica<L, C>, Update<L, C>, R>,
    core: &C,
    asks: &Beginning<L, Ask>,
    most: usize,
) -> Result<(), AllocError>
    requires core { core.now ≡ present_after C.next (C.opening L.rules) asks.now }
    requires end { in_the_end (published writer.old) (pending writer.old) ≡ asks.now }
    ensures end { OnOk result (in_the_end (published writer.new) (pending writer.new) ≡ asks.now) }
    ensures shown { OnOk result (published writer.new ≡ asks.now) }
{
    add_nothing(writer, core, asks, most)?;
    writer.publish()?;
    add_nothing(writer, core, asks, most)?;
    writer.publish()
}

// Adds so many updates that change nothing.
#[tactic(auto, using(crate::proofs::Nothing::changes_nothing))]
fn add_nothing<L: BoardName, C: LockDirectory, R: Wait + Drop + Copy>(
    writer: &mut WriteHandle<Replica<L, C>, Update<L, C>, R>,
    core: &C,
    asks: &Beginning<L, Ask>,
    count: usize,
) -> Result<(), AllocError>
    requires core { core.now ≡ present_after C.next (C.opening L.rules) asks.now }
    requires end { in_the_end (published writer.old) (pending writer.old) ≡ asks.now }
    ensures end { OnOk result (in_the_end (published writer.new) (pending writer.new) ≡ asks.now) }
{
    for _ in 0..count {
        writer.append(nothing(core, asks)).map_err(|_| AllocError)?;
    }
    Ok(())
}

// An update that changes nothing: it asks for the root's attributes, after these asks.
fn nothing<L: BoardName, C: LockDirectory>(core: &C, asks: &Beginning<L, Ask>) -> Update<L, C>
    requires { core.now ≡ present_after C.next (C.opening L.rules) asks.now }
    ensures { (result.before ≡ asks.now) × (result.after ≡ asks.now) }
{
    let order = Order {
        // Greater than that of any request that is parked, but for one of a client that chose it: none is looked for.
        unique: u64::MAX,
        node: 1,
        uid: 0,
        gid: 0,
        pid: 0,
        op: Op::Getattr,
    };
    let answer = core.answer(&order);
    Update::new(&order, Some(answer), asks, asks)
}
