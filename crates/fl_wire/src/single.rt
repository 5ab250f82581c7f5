//! A message that says one order.

ghost use Rattle.std.specs.Prelude.{◌≡◌, None, Ok};
ghost use Rattle.fl_order.specs.Sayable.{FitsLock, IsSayable};
ghost use Rattle.fl_order.specs.declared.body.Body.TheVariants as body;
ghost use Rattle.fl_order.specs.declared.body.Shape.TheVariants as shape;
ghost use Rattle.fl_wire.specs.Says.{body_in, said};
ghost use Rattle.fl_wire.specs.Single.{fault_of};

use crate::frame::Frame;
use crate::layout::{u32_at, u64_at};
use crate::reading::{fault_in, lock_ask, order_in};
use fl_order::{Errno, LockAsk, Op, OpKind, Order, Refusal};
use std::marker::Model;

/// A place for an order, for [`Single::read`] to write one into.
pub const BLANK: Order = Order {
    unique: 0,
    node: 0,
    uid: 0,
    gid: 0,
    pid: 0,
    op: Op::Getattr,
};

/// A message that says one order. Contracts see it as the order. An order has room for a name, and whoever hands it on
/// by value clears and copies all of that: so it is read into its place.
#[derive(Drop)]
pub struct Single<'a> {
    frame: Frame<'a>,
    kind: OpKind,
}

impl<'a> Model for Single<'a> {
    ghost use Rattle.std.specs.Prelude.{◌≡◌, Ok, Some};
    ghost use Rattle.fl_order.specs.OpKind.{kind_of_opcode};
    ghost use Rattle.fl_order.specs.declared.order.Order.{Order};
    ghost use Rattle.fl_wire.specs.Layout.{opcode_of};
    ghost use Rattle.fl_wire.specs.Says.{said};
    ghost use Rattle.fl_wire.specs.Single.{said_order};

    ghost Value = { Order };

    ghost view = { λ s. said_order (said s.frame) };

    ghost invariant = { λ s. (said s.frame ≡ Ok (said_order (said s.frame)))
        × (kind_of_opcode (opcode_of s.frame) ≡ Some s.kind) };
}

impl<'a> Single<'a> {
    // What a message says as one order.
    pub(crate) fn of(frame: Frame<'a>) -> Result<Single<'a>, Refusal>
        ensures { result ≡ said frame.entry }
    {
        if frame.batch().is_some() {
            return Err(Refusal::Batch);
        }
        let Some(kind) = OpKind::of_opcode(frame.opcode()) else {
            return Err(Refusal::Answer(Errno::ENOSYS));
        };
        let shape = kind.shape()?;
        match fault_in(shape, frame.as_bytes()) {
            Some(e) => Err(kind.refusal(e)),
            None => Ok(Single { frame, kind }),
        }
    }

    /// Writes the order into a place.
    pub fn read(&self, order: &mut Order)
        ensures is { order.new ≡ self.now }
        ensures sayable { IsSayable order.new }
    {
        let frame = &self.frame;
        let op = match self.kind {
            OpKind::Getlk => Op::Getlk(ask_in(frame)),
            OpKind::Setlk => Op::Setlk(ask_in(frame)),
            OpKind::Setlkw => Op::Setlkw(ask_in(frame)),
            _ => {
                *order = self.other();
                return;
            }
        };
        let bytes = frame.as_bytes();
        order.unique = frame.unique();
        order.node = u64_at(bytes, 16);
        order.uid = u32_at(bytes, 24);
        order.gid = u32_at(bytes, 28);
        order.pid = u32_at(bytes, 32);
        order.op = op;
    }

    // The order, whatever it asks. Apart, since room for names is cleared in it.
    #[inline(never)]
    fn other(&self) -> Order
        ensures is { result ≡ self.now }
        ensures sayable { IsSayable result }
    {
        match order_in(&self.frame) {
            Ok(order) => order,
            Err(_) => unreachable!(),
        }
    }
}

// What a message asks for that has the body of a lock request.
fn ask_in(frame: &Frame) -> LockAsk
    requires { fault_of (body_in shape.Lock frame.now) ≡ None }
    ensures value { body_in shape.Lock frame.now ≡ Ok (body.Lock result) }
    ensures fits { FitsLock result }
{
    match lock_ask(frame.as_bytes()) {
        Ok(ask) => ask,
        Err(_) => unreachable!(),
    }
}
