//! A counter in memory, whose seats keep what is handed in at them.

ghost use Rattle.std.specs.Prelude.{◌≡◌, ◌≤◌, ◌+◌, ◌++◌, [], length, OnErr, OnOk};
ghost use Rattle.fl_counter.specs.Answered.{step_lines};

use super::came::Came;
use fl_core::{Core, Rules, Tolds};
use fl_desk::{Counter, HandFault, NoView, Outgoing, ToldLists};
use fl_history::Lines;
use fl_order::{Answer, Errno, Op, Order, Told};
use fl_workers::Failures;
use std::alloc::Global;
use std::process::Abort;
use std::sync::Wait;

// The most replies to an order under the standard rules.
const MOST_TOLDS: usize = 257;

// The most lines of an order: its own, and one for each reply.
const MOST_LINES: usize = 258;

/// Which of the orders that are handed in at a seat are refused.
#[derive(Clone, Copy)]
pub(super) enum Refuses {
    Nothing,
    /// The third, the sixth and so on.
    EachThird,
    /// The one of this number, from 1.
    One(u64),
}

impl Refuses {
    // It refuses the order of this number.
    fn holds(self, number: u64) -> bool {
        match self {
            Refuses::Nothing => false,
            Refuses::EachThird => number % 3 == 0,
            Refuses::One(one) => number == one,
        }
    }
}

/// A counter in memory. Each of its seats answers its orders as if there were no other seat.
#[derive(Clone, Copy)]
pub(super) struct Tally {
    /// Orders that are handed in and refused.
    pub refuses: Refuses,
    /// A look is shown something.
    pub shows: bool,
}

/// A counter that refuses nothing and shows all.
pub(super) const WILLING: Tally = Tally {
    refuses: Refuses::Nothing,
    shows: true,
};

/// A counter that shows nothing.
pub(super) const DARK: Tally = Tally {
    refuses: Refuses::Nothing,
    shows: false,
};

/// A worker's place.
#[derive(Drop)]
pub(super) struct Seat {
    pub worker: u32,
    /// The orders that were handed in, the oldest first.
    pub orders: Vec<Order>,
    /// How many orders were handed in together each time, with those that weren't taken then.
    pub batches: Vec<u64>,
    /// The uniques of the orders that were looked for and shown, the oldest first.
    pub looks: Vec<u64>,
    tries: u64,
    core: Core,
    // The orders with what they were answered. A look shows them all.
    lines: Lines,
    ghost parked: { core.rules.parked ≡ 256 },
}

impl Seat {
    /// A place at which nothing was handed in.
    pub(super) fn new(rt: &impl Abort, alloc: Global, worker: u32) -> Seat
        ensures { result.orders.items ≡ [] }
    {
        Seat {
            worker,
            orders: Vec::new(alloc),
            batches: Vec::new(alloc),
            looks: Vec::new(alloc),
            tries: 0,
            core: Core::new(alloc, Rules::standard()).expect(rt, "memory"),
            lines: Lines::new(alloc),
        }
    }

    /// What came of orders at it, of which the worker told this.
    pub(super) fn came(self, failures: Failures) -> Came {
        let Seat {
            orders,
            batches,
            looks,
            ..
        } = self;
        Came {
            handed: orders,
            batches,
            looked: looks,
            failures,
        }
    }

    // Takes an order, or refuses it if it is one that is to be refused.
    fn hand_in(
        &mut self,
        refuses: Refuses,
        order: &Order,
        tolds: &mut Tolds,
    ) -> Result<(), HandFault>
        requires { 257 ≤ tolds.old.room }
        ensures room { tolds.new.room ≡ tolds.old.room }
        ensures same { self.new.worker ≡ self.old.worker }
        ensures taken { OnOk result ((length self.new.orders.items ≡ length self.old.orders.items + 1)
            × (self.new.lines.items ≡ self.old.lines.items ++ step_lines self.old.worker order.now tolds.new.told)) }
        ensures fits { OnOk result (length tolds.new.told ≤ 257) }
        ensures refused { OnErr result ((length self.new.orders.items ≡ length self.old.orders.items)
            × (self.new.lines.items ≡ self.old.lines.items)) }
    {
        self.tries = self.tries.wrapping_add(1);
        if refuses.holds(self.tries) {
            return Err(HandFault::NoMemory);
        }
        if self.lines.reserve(MOST_LINES).is_err() {
            return Err(HandFault::NoMemory);
        }
        // The prover has to be told of the op's type.
        let op: Op = order.op;
        if self.orders.push(Order { op, ..*order }).is_err() {
            return Err(HandFault::NoMemory);
        }
        self.core.step(order, tolds);
        append(&mut self.lines, self.worker, order, tolds.as_slice());
        Ok(())
    }
}

// Adds an order and its replies to the lines.
fn append(lines: &mut Lines, worker: u32, order: &Order, tolds: &[Told])
    requires { 1 + length tolds.now ≤ lines.old.room }
    ensures { lines.new.items ≡ lines.old.items ++ step_lines worker order.now tolds.now }
{
    lines.push_asked(worker, order);
    for told in tolds {
        lines.push_told(told);
    }
}

impl Counter for Tally {
    ghost use Rattle.std.specs.Prelude.{length};
    ghost use Rattle.fl_counter.specs.Answered.{answered_by};

    type Seat = Seat;

    ghost count = { λ seat. length seat.orders.items };

    ghost worker = { λ seat. seat.worker };

    ghost answered = { λ seat. answered_by seat.worker seat.lines.items };

    ghost front = { λ seat. seat.lines.items };

    ghost stored = { λ seat. seat.lines.items };

    ghost shows = { λ lines order result. Unit {0} };

    ghost most_tolds = { 257 };

    fn hand_in_all<R: Wait, O: Outgoing>(
        &self,
        _rt: &R,
        _outgoing: &O,
        seat: &mut Seat,
        orders: &[Order],
        tolds: &mut Tolds,
        lists: &mut ToldLists,
    ) -> Result<(), HandFault> {
        lists.clear();
        if !orders.is_empty() && seat.batches.push(orders.len() as u64).is_err() {
            return Err(HandFault::NoMemory);
        }
        for order in orders {
            if !lists.has_room(MOST_TOLDS) {
                break;
            }
            seat.hand_in(self.refuses, order, tolds)?;
            lists.push(tolds.as_slice());
        }
        Ok(())
    }

    fn hand_in_one<R: Wait, O: Outgoing>(
        &self,
        _rt: &R,
        _outgoing: &O,
        seat: &mut Seat,
        order: &Order,
        tolds: &mut Tolds,
    ) -> Result<(), HandFault> {
        if seat.batches.push(1).is_err() {
            return Err(HandFault::NoMemory);
        }
        seat.hand_in(self.refuses, order, tolds)
    }

    #[tactic(auto, using(crate::proofs::SeatLemmas::begin_themselves))]
    fn look(&self, seat: &mut Seat, order: &Order) -> Result<Result<Answer, Errno>, NoView> {
        if !self.shows || seat.looks.push(order.unique).is_err() {
            return Err(NoView);
        }
        seat.core.answer(order).ok_or(NoView)
    }

    fn warm<R: Wait>(&self, _rt: &R, _seat: &mut Self::Seat) {}

    fn pause<R: Wait>(&self, _rt: &R) {}
}
