//! What lies in the queue for an order. It has room for no name: that is written into a box, and only for those orders
//! that have one. So an entry takes two lines of a processor's cache, where an order takes five.
//!
//! Nothing is allocated on the way. The boxes are made once and go round: whoever puts an order takes a free one for
//! its name, and whoever takes the order copies the name out and sets the box free.

ghost use Rattle.std.specs.Prelude.{◌≡◌, IfSome};
ghost use Rattle.fl_intake.specs.Inside.Boxed.{about, unboxed};

use crate::intake::MOST_JOBS;
use crossbeam_queue::ArrayQueue;
use fl_order::{LockAsk, Name, NoMemory, Op, Order};
use std::alloc::Global;
use std::marker::Model;
use std::sync::Wait;

/// An order, with its name, if it has one, in a box. Contracts see the order.
#[derive(Drop)]
pub struct Entry {
    unique: u64,
    node: u64,
    uid: u32,
    gid: u32,
    pid: u32,
    op: BoxedOp,
}

impl Model for Entry {
    ghost use Rattle.fl_order.specs.declared.order.Order.{Order};

    ghost Value = { Order };

    ghost use Rattle.fl_intake.specs.Inside.Boxed.{unboxed};

    ghost view = { λ e. record {
      unique = e.unique;
      node = e.node;
      uid = e.uid;
      gid = e.gid;
      pid = e.pid;
      op = unboxed e.op;
    } };
}

// A slot of the queue is of the size of two lines at most. It has 96 bytes, of which an entry takes 88. An order takes
// 296.
const _: () = prove!(size_of::<Option<Entry>>() <= 128);

/// An [`Op`] whose name is boxed.
#[derive(Drop)]
pub enum BoxedOp {
    Named(Naming, Box<Name>),
    Forget(u64),
    Getattr,
    Open,
    Release { fh: u64, drop: bool, owner: u64 },
    Flush { fh: u64, owner: u64 },
    Getlk(LockAsk),
    Setlk(LockAsk),
    Setlkw(LockAsk),
    Interrupt(u64),
}

/// What is asked about a name.
#[derive(Clone, Copy)]
pub enum Naming {
    Lookup,
    Mknod { mode: u32 },
    Mkdir { mode: u32 },
    Unlink,
    Rmdir,
    Create { excl: bool, mode: u32 },
}

/// The boxes that hold no name. What is still in one is the name of an earlier order.
#[derive(Drop)]
pub(crate) struct FreeBoxes {
    boxes: ArrayQueue<Box<Name>>,
}

impl FreeBoxes {
    /// Boxes enough for an intake with so many ends that take: one for each job inside, one for each of these ends, and
    /// one for the end that puts.
    pub(crate) fn new(alloc: Global, takers: u32) -> Result<FreeBoxes, NoMemory> {
        let many = MOST_JOBS + takers as usize + 1;
        let mut boxes = ArrayQueue::new(alloc, many)?;
        let Some(none) = Name::new(b"") else {
            unreachable!()
        };
        for _ in 0..many {
            let boxed = Box::new(alloc, none)?;
            let _ = boxes.push_mut(boxed);
        }
        Ok(FreeBoxes { boxes })
    }

    /// The entry of an order; none if it has a name and no box is free.
    pub(crate) fn entry_of<R: Wait>(&self, rt: &R, order: &Order) -> Option<Entry>
        ensures { IfSome result (λ entry. entry ≡ order.now) }
    {
        let op = self.boxed(rt, &order.op)?;
        Some(Entry {
            unique: order.unique,
            node: order.node,
            uid: order.uid,
            gid: order.gid,
            pid: order.pid,
            op,
        })
    }

    // The same op, with its name in a box; none if it has a name and no box is free.
    fn boxed<R: Wait>(&self, rt: &R, op: &Op) -> Option<BoxedOp>
        ensures { IfSome result (λ boxed. unboxed boxed ≡ op.now) }
    {
        Some(match op {
            Op::Lookup(name) => self.named(rt, Naming::Lookup, name)?,
            Op::Forget(n) => BoxedOp::Forget(*n),
            Op::Getattr => BoxedOp::Getattr,
            Op::Mknod { mode, name } => self.named(rt, Naming::Mknod { mode: *mode }, name)?,
            Op::Mkdir { mode, name } => self.named(rt, Naming::Mkdir { mode: *mode }, name)?,
            Op::Unlink(name) => self.named(rt, Naming::Unlink, name)?,
            Op::Rmdir(name) => self.named(rt, Naming::Rmdir, name)?,
            Op::Open => BoxedOp::Open,
            Op::Release { fh, drop, owner } => BoxedOp::Release {
                fh: *fh,
                drop: *drop,
                owner: *owner,
            },
            Op::Flush { fh, owner } => BoxedOp::Flush {
                fh: *fh,
                owner: *owner,
            },
            Op::Create { excl, mode, name } => {
                let (excl, mode) = (*excl, *mode);
                self.named(rt, Naming::Create { excl, mode }, name)?
            }
            Op::Getlk(ask) => BoxedOp::Getlk(*ask),
            Op::Setlk(ask) => BoxedOp::Setlk(*ask),
            Op::Setlkw(ask) => BoxedOp::Setlkw(*ask),
            Op::Interrupt(unique) => BoxedOp::Interrupt(*unique),
        })
    }

    // The op that asks this about a name, which is written into a free box; none if no box is free.
    fn named<R: Wait>(&self, rt: &R, asked: Naming, name: &Name) -> Option<BoxedOp>
        ensures { IfSome result (λ op. unboxed op ≡ about asked name.now) }
    {
        let mut boxed = self.boxes.pop(rt)?;
        *boxed = *name;
        Some(BoxedOp::Named(asked, boxed))
    }

    /// The order of an entry. Its box, if it has one, is free again.
    pub(crate) fn order_of<R: Wait>(&self, rt: &R, entry: Entry) -> Order
        ensures { result ≡ entry }
    {
        let Entry {
            unique,
            node,
            uid,
            gid,
            pid,
            op,
        } = entry;
        Order {
            unique,
            node,
            uid,
            gid,
            pid,
            op: self.unboxed(rt, op),
        }
    }

    // The same op, with its name taken out of its box, which is free again.
    fn unboxed<R: Wait>(&self, rt: &R, op: BoxedOp) -> Op
        ensures { result ≡ unboxed op }
    {
        match op {
            BoxedOp::Named(asked, boxed) => self.about(rt, asked, boxed),
            BoxedOp::Forget(n) => Op::Forget(n),
            BoxedOp::Getattr => Op::Getattr,
            BoxedOp::Open => Op::Open,
            BoxedOp::Release { fh, drop, owner } => Op::Release { fh, drop, owner },
            BoxedOp::Flush { fh, owner } => Op::Flush { fh, owner },
            BoxedOp::Getlk(ask) => Op::Getlk(ask),
            BoxedOp::Setlk(ask) => Op::Setlk(ask),
            BoxedOp::Setlkw(ask) => Op::Setlkw(ask),
            BoxedOp::Interrupt(unique) => Op::Interrupt(unique),
        }
    }

    // The op that asks this about the name in a box, which is free again. It stands apart, so that room for a name is
    // only made ready where there is one.
    fn about<R: Wait>(&self, rt: &R, asked: Naming, boxed: Box<Name>) -> Op
        ensures { result ≡ about asked boxed.value }
    {
        let op = match asked {
            Naming::Lookup => Op::Lookup(*boxed),
            Naming::Mknod { mode } => Op::Mknod { mode, name: *boxed },
            Naming::Mkdir { mode } => Op::Mkdir { mode, name: *boxed },
            Naming::Unlink => Op::Unlink(*boxed),
            Naming::Rmdir => Op::Rmdir(*boxed),
            Naming::Create { excl, mode } => Op::Create {
                excl,
                mode,
                name: *boxed,
            },
        };
        self.set_free(rt, boxed);
        op
    }

    // There is room for all boxes. One for which there were none would go back to the heap.
    fn set_free<R: Wait>(&self, rt: &R, boxed: Box<Name>) {
        let _ = self.boxes.push(rt, boxed);
    }
}
