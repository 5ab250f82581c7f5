//! A worker in the thread of the receiver.

ghost use Rattle.std.specs.Prelude.{◌≡◌, ◌<◌, ◌++◌, ◌∷◌, [], false, length};
ghost use Rattle.fl_workers.specs.Dispatched.{HandlesMore};
ghost use Rattle.fl_workers.specs.Room.{HasBatchFor};
ghost use Rattle.fl_workers.specs.Worked.{standing};

use crate::readable::Readable;
use crate::room::BatchRoom;
use crate::sender::{SharedSender, WriterName};
use crate::worker::{Failures, Post, handle_all};
use fl_counter::{Counter, Gate};
use fl_intake::{Intake, TakeEnd};
use fl_wire::BLANK;
use std::io::Write;
use std::marker::Model;
use std::sync::{Mutex, Wait};

/// A worker in the thread of the receiver, which takes orders before they go to others. Contracts see where it stands,
/// its end of the intake, through which it takes none, the orders that wait for it, at most 16, and what went wrong with
/// those before.
#[derive(Drop)]
pub struct InlineWorker<C: Counter, N: WriterName> {
    post: Post<C::Seat, N>,
    end: TakeEnd,
    room: BatchRoom,
    failures: Failures,
}

impl<C: Counter, N: WriterName> Model for InlineWorker<C, N> {
    ghost use Rattle.std.specs.Prelude.{◌<◌, vec_capacity};
    ghost use Rattle.fl_workers.specs.Dispatched.{Inline};
    ghost use Rattle.fl_workers.specs.Room.{HasRoomFor};
    ghost use Rattle.fl_workers.specs.Worked.{standing};

    ghost Value = { Inline };

    ghost view = { λ w. record {
      standing = standing C.worker C.count C.answered C.front C.stored w.post.seat w.post.own;
      end = w.end;
      waiting = w.room.batch.items;
      places = vec_capacity w.room.batch;
      refused = w.failures.refused;
      lost = w.failures.lost;
    } };

    ghost invariant = { λ w. (0 < vec_capacity w.room.batch) × HasRoomFor C.most_tolds w.room.replies };
}

impl<C: Counter, N: WriterName> InlineWorker<C, N> {
    /// A worker at this post, for which no order waits. Its end of the intake rests.
    pub fn new(
        intake: &Intake,
        post: Post<C::Seat, N>,
        end: TakeEnd,
        room: BatchRoom,
    ) -> InlineWorker<C, N>
        requires room { HasBatchFor C.most_tolds room }
        ensures standing { result.standing ≡ standing C.worker C.count C.answered C.front C.stored post.seat post.own }
        ensures end { result.end ≡ end }
        ensures waiting { result.waiting ≡ [] }
        ensures failures { (result.refused ≡ false) × (result.lost ≡ false) }
    {
        intake.rest(&end);
        InlineWorker {
            post,
            end,
            room,
            failures: Failures::none(),
        }
    }

    /// Its post, its end of the intake, and what went wrong with its orders.
    pub fn into_parts(self) -> (Post<C::Seat, N>, TakeEnd, Failures)
        ensures standing { standing C.worker C.count C.answered C.front C.stored result.0.seat result.0.own
            ≡ self.standing }
        ensures end { result.1 ≡ self.end }
        ensures failures { (result.2.refused ≡ self.refused) × (result.2.lost ≡ self.lost) }
    {
        let InlineWorker {
            post,
            end,
            failures,
            ..
        } = self;
        (post, end, failures)
    }

    // Takes an order behind those that wait. If no more may, these are handled first.
    pub(crate) fn take<R: Wait, G: Gate, W: Write, O: Readable>(
        &mut self,
        rt: &R,
        counter: &C,
        gate: &G,
        sender: &Mutex<SharedSender<'_, W, N>>,
        order: &O,
    )
        ensures { HandlesMore C.shows self.old self.new (O.said order.now ∷ []) }
    {
        if self.is_full() {
            self.handle(rt, counter, gate, sender);
        }
        self.push(order);
    }

    // Whether no more orders may wait.
    fn is_full(&self) -> bool
        ensures { result ≡ false → length self.now.waiting < self.now.places }
    {
        self.room.batch.len() == self.room.batch.capacity()
    }

    // One order more waits, which is read into its place.
    fn push<O: Readable>(&mut self, order: &O)
        requires room { length self.old.waiting < self.old.places }
        ensures { self.new ≡ record self.old { waiting = self.old.waiting ++ O.said order.now ∷ [] } }
    {
        let batch = &mut self.room.batch;
        let last = batch.len();
        batch.push_reserved(BLANK);
        order.read(&mut batch[last]);
    }

    // Handles the orders that wait.
    pub(crate) fn handle<R: Wait, G: Gate, W: Write>(
        &mut self,
        rt: &R,
        counter: &C,
        gate: &G,
        sender: &Mutex<SharedSender<'_, W, N>>,
    )
        ensures none { self.new.waiting ≡ [] }
        ensures room { length self.new.waiting < self.new.places }
        ensures handled { HandlesMore C.shows self.old self.new [] }
    {
        let InlineWorker {
            post,
            room,
            failures,
            ..
        } = self;
        let BatchRoom { batch, replies } = room;
        let more = handle_all(rt, counter, gate, sender, post, replies, batch);
        *failures = failures.or(more);
        batch.clear();
    }
}
