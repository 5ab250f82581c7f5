//! Where the receiver's orders go.

ghost use Rattle.std.specs.Prelude.{◌≡◌, [], ◌∷◌, false, IfSome};
ghost use Rattle.fl_workers.specs.Dispatched.{DispatchesMore};

use crate::inline::InlineWorker;
use crate::readable::Readable;
use crate::sender::{SharedSender, WriterName};
use crate::worker::flush;
use fl_counter::{Counter, Gate};
use fl_intake::{Intake, PutEnd};
use fl_wire::{BLANK, Batch};
use std::io::Write;
use std::sync::{Mutex, Wait};

/// Where the receiver's orders go: to the inline worker, if there is one, while no other worker has an order; else into
/// the intake.
#[derive(Drop)]
pub struct Dispatcher<'a, 'w, R, C: Counter, G, W: Write, N: WriterName> {
    /// The right to wait.
    pub rt: &'a R,
    /// Where orders are handed in.
    pub counter: &'a C,
    /// The hook that is called for each order and reply.
    pub gate: &'a G,
    /// Where orders wait for other workers.
    pub intake: &'a Intake,
    /// The writer that all workers share.
    pub sender: &'a Mutex<SharedSender<'w, W, N>>,
    /// The intake's end that puts.
    pub put: PutEnd,
    /// The worker in the receiver's thread.
    pub inline: Option<InlineWorker<C, N>>,
    ghost mine: { put.of ≡ intake.now },
    ghost open: { put.closed ≡ false },
}

impl<'a, 'w, R: Wait, C: Counter, G: Gate, W: Write, N: WriterName> Dispatcher<
    'a,
    'w,
    R,
    C,
    G,
    W,
    N,
> {
    // Dispatches the orders of a batch, one after another.
    pub(crate) fn put_all(&mut self, orders: &Batch)
        ensures same { (self.new.put.of ≡ self.old.put.of) × (self.new.put.takers ≡ self.old.put.takers) }
        ensures dispatched { DispatchesMore C.shows self.old.put.put self.old.inline self.new.put.put self.new.inline
            orders.now }
    {
        for i in 0..orders.count() {
            self.put(&orders.order(i));
        }
    }

    // Dispatches an order.
    pub(crate) fn put<O: Readable>(&mut self, order: &O)
        ensures same { (self.new.put.of ≡ self.old.put.of) × (self.new.put.takers ≡ self.old.put.takers) }
        ensures dispatched { DispatchesMore C.shows self.old.put.put self.old.inline self.new.put.put self.new.inline
            (O.said order.now ∷ []) }
    {
        if !self.intake.is_at_rest() {
            self.enqueue(order);
            return;
        }
        match &mut self.inline {
            Some(worker) => worker.take(self.rt, self.counter, self.gate, self.sender, order),
            None => self.enqueue(order),
        }
    }

    // Puts an order into the intake, behind the others. Apart, since room for names is cleared in it.
    #[inline(never)]
    fn enqueue<O: Readable>(&mut self, order: &O)
        ensures same { (self.new.put.of ≡ self.old.put.of) × (self.new.put.takers ≡ self.old.put.takers) }
        ensures dispatched { DispatchesMore C.shows self.old.put.put self.old.inline self.new.put.put self.new.inline
            (O.said order.now ∷ []) }
    {
        let mut place = BLANK;
        order.read(&mut place);
        let Ok(()) = self.intake.put(self.rt, &mut self.put, &place) else {
            unreachable!()
        };
    }

    // Handles the orders that wait for the worker in this thread.
    pub(crate) fn handle(&mut self)
        ensures same { self.new.put ≡ self.old.put }
        ensures none { IfSome self.new.inline (λ worker. worker.waiting ≡ []) }
        ensures dispatched { DispatchesMore C.shows self.old.put.put self.old.inline self.new.put.put self.new.inline
            [] }
    {
        if let Some(worker) = &mut self.inline {
            worker.handle(self.rt, self.counter, self.gate, self.sender);
        }
    }

    // Leaves nothing undone here before the receiver reads: orders that wait are handled, replies are sent, and the
    // counter is told. Before that, so that nobody sleeps for long over orders in the intake, it may call a worker.
    pub(crate) fn settle(&mut self)
        ensures same { (self.new.put.of ≡ self.old.put.of) × (self.new.put.takers ≡ self.old.put.takers) }
        ensures dispatched { DispatchesMore C.shows self.old.put.put self.old.inline self.new.put.put self.new.inline
            [] }
    {
        self.intake.call_one_more();
        self.handle();
        if self.inline.is_some() {
            flush(self.rt, self.sender);
            self.counter.pause(self.rt);
        }
    }
}
