//! What a session does with each message, apart from reading it.

ghost use Rattle.std.specs.Prelude.{◌≡◌, [], ◌∷◌, ◌++◌, drop, map, false, None, Some, IfSome, IsSome, is_some};
ghost use Rattle.fl_counter.specs.Tolds.{HasRoom};
ghost use Rattle.fl_counter.specs.Answered.{step_lines};
ghost use Rattle.fl_session.specs.Again.{order_under, unmarked};
ghost use Rattle.fl_session.specs.Inside.Serving.{IsFresh, IsReady, recalled_at, with_lines};
ghost use Rattle.fl_session.specs.Inside.UnderWay.{IsAnswered, TakesAgain, TakesMany, TakesOne};
ghost use Rattle.fl_transport.specs.Collecting.{outgoing};
ghost use Rattle.fl_transport.specs.Outbox.{writer_of};
ghost use Rattle.fl_wire.specs.Layout.{unique_of};

use crate::again::{order_under, response_under, unmarked};
use crate::replying::Replying;
use fl_core::Tolds;
use fl_desk::Desk;
use fl_history::{Journal, Line, Past, Recalled, Recent};
use fl_order::{NoMemory, Order, Told};
use fl_transport::{Handshake, Incoming, Response};
use fl_wire::{BLANK, Batch, Frame};
use std::io::Write;

/// The lock directory of a session, and how far the session is. Its lines go to a journal.
#[derive(Drop)]
pub(crate) struct Server<J: Journal> {
    pub desk: Desk<J>,
    /// The last lines, if messages that are sent again are known.
    pub recent: Option<Recent>,
    /// The lines that were heard before those of the desk, for proofs alone.
    pub heard: Past<Line>,
    pub tolds: Tolds,
    pub handshake: Handshake,
    /// Some order was refused because memory ran out.
    pub refused: bool,
}

impl<J: Journal> Server<J> {
    /// No message came yet. There is room for an order's replies, and the last lines are those heard, then the desk's.
    pub(crate) fn new(
        desk: Desk<J>,
        heard: Past<Line>,
        recent: Option<Recent>,
        tolds: Tolds,
    ) -> Server<J>
        requires recent { IfSome recent (λ lines. lines ≡ heard.items ++ desk.lines) }
        requires room { HasRoom desk.present.rules tolds }
        ensures fresh { IsFresh result }
        ensures desk { result.desk ≡ desk }
        ensures heard { result.heard.items ≡ heard.items }
        ensures recent { result.recent ≡ recent }
    {
        Server {
            desk,
            recent,
            heard,
            tolds,
            handshake: Handshake::new(),
            refused: false,
        }
    }

    /// Answers a message of a session that isn't over.
    pub(crate) fn answer<W: Write>(&mut self, replying: &mut Replying<'_, W, J>, frame: &Frame)
        requires live { self.old.handshake.over ≡ false }
        requires ready { IsReady self.old }
        ensures ready { IsReady self.new }
        ensures same { (writer_of replying.new.batch.out).ghost_name ≡ (writer_of replying.old.batch.out).ghost_name }
        ensures answered { IsAnswered self.old self.new (outgoing W.contents replying.old.batch)
            (outgoing W.contents replying.new.batch) frame.now }
    {
        match unmarked(self.recent.is_some(), frame.unique()) {
            None => self.answer_new(replying, frame),
            Some(unique) => self.answer_again(replying, frame, unique),
        }
    }

    // Answers a message that is new.
    fn answer_new<W: Write>(&mut self, replying: &mut Replying<'_, W, J>, frame: &Frame)
        requires live { self.old.handshake.over ≡ false }
        requires ready { IsReady self.old }
        requires new { unmarked (is_some self.old.recent) (unique_of frame.now) ≡ None }
        ensures ready { IsReady self.new }
        ensures same { (writer_of replying.new.batch.out).ghost_name ≡ (writer_of replying.old.batch.out).ghost_name }
        ensures answered { IsAnswered self.old self.new (outgoing W.contents replying.old.batch)
            (outgoing W.contents replying.new.batch) frame.now }
    {
        let whole = self.desk.present().rules().whole;
        match &self.handshake.receive(frame, whole) {
            Incoming::Order(single) => {
                let mut order = BLANK;
                single.read(&mut order);
                self.take(replying, &order);
            }
            Incoming::Batch(orders) => self.take_all(replying, orders),
            Incoming::Response(response) => replying.respond(&mut self.desk, response),
        }
    }

    // Answers a message that is sent again, which had this unique.
    fn answer_again<W: Write>(
        &mut self,
        replying: &mut Replying<'_, W, J>,
        frame: &Frame,
        unique: u64,
    )
        requires live { self.old.handshake.over ≡ false }
        requires ready { IsReady self.old }
        requires again { unmarked (is_some self.old.recent) (unique_of frame.now) ≡ Some unique }
        ensures ready { IsReady self.new }
        ensures same { (writer_of replying.new.batch.out).ghost_name ≡ (writer_of replying.old.batch.out).ghost_name }
        ensures answered { IsAnswered self.old self.new (outgoing W.contents replying.old.batch)
            (outgoing W.contents replying.new.batch) frame.now }
    {
        let whole = self.desk.present().rules().whole;
        match &self.handshake.receive(frame, whole) {
            Incoming::Order(single) => {
                let mut order = BLANK;
                single.read(&mut order);
                self.take_again(replying, &order_under(unique, &order));
            }
            Incoming::Batch(orders) => self.take_rest(replying, orders, unique),
            Incoming::Response(response) => {
                replying.respond(&mut self.desk, &response_under(unique, response));
            }
        }
    }

    // What the lines say of a unique, unless a request of it is parked.
    fn recalled(&self, unique: u64) -> Option<Recalled>
        requires ready { IsReady self.now }
        requires known { IsSome self.now.recent }
        ensures { result ≡ recalled_at self.now.desk.present.rules self.now.heard.items self.now.desk.lines unique }
    {
        if self.desk.has_parked(unique) {
            return None;
        }
        match &self.recent {
            Some(recent) => Some(recent.recall(unique)),
            None => None,
        }
    }

    // Takes an order that is sent again, if no request of its unique is parked, and the lines don't have it.
    fn take_again<W: Write>(&mut self, replying: &mut Replying<'_, W, J>, order: &Order)
        requires ready { IsReady self.old }
        requires known { IsSome self.old.recent }
        ensures ready { IsReady self.new }
        ensures same { (writer_of replying.new.batch.out).ghost_name ≡ (writer_of replying.old.batch.out).ghost_name }
        ensures taken { TakesAgain self.old self.new (outgoing W.contents replying.old.batch)
            (outgoing W.contents replying.new.batch) order.now.unique (order.now ∷ []) }
    {
        match self.recalled(order.unique) {
            None => {}
            Some(Recalled::Told(told)) => replying.collect(&mut self.desk, &Response::One(told)),
            Some(Recalled::Asked(count)) => {
                if count == 0 {
                    self.take(replying, order);
                }
            }
        }
    }

    // The same of a batch, of whose orders the lines may have the first.
    fn take_rest<W: Write>(
        &mut self,
        replying: &mut Replying<'_, W, J>,
        orders: &Batch,
        unique: u64,
    )
        requires ready { IsReady self.old }
        requires known { IsSome self.old.recent }
        ensures ready { IsReady self.new }
        ensures same { (writer_of replying.new.batch.out).ghost_name ≡ (writer_of replying.old.batch.out).ghost_name }
        ensures taken { TakesAgain self.old self.new (outgoing W.contents replying.old.batch)
            (outgoing W.contents replying.new.batch) unique (map (order_under unique) orders.now) }
    {
        match self.recalled(unique) {
            None => {}
            Some(Recalled::Told(told)) => replying.collect(&mut self.desk, &Response::One(told)),
            Some(Recalled::Asked(count)) => self.take_from(replying, orders, unique, count),
        }
    }

    // Takes the orders of a batch from one on, under this unique.
    fn take_from<W: Write>(
        &mut self,
        replying: &mut Replying<'_, W, J>,
        orders: &Batch,
        unique: u64,
        start: u32,
    )
        requires { IsReady self.old }
        ensures ready { IsReady self.new }
        ensures same { (writer_of replying.new.batch.out).ghost_name ≡ (writer_of replying.old.batch.out).ghost_name }
        ensures taken { TakesMany self.old self.new (outgoing W.contents replying.old.batch)
            (outgoing W.contents replying.new.batch) (drop start (map (order_under unique) orders.now)) [] }
    {
        for i in start..orders.count() {
            self.take_one_of(replying, &order_under(unique, &orders.order(i)));
        }
    }

    // Takes orders of worker 0, each whatever became of those before it, and keeps their replies.
    fn take_all<W: Write>(&mut self, replying: &mut Replying<'_, W, J>, orders: &Batch)
        requires { IsReady self.old }
        ensures ready { IsReady self.new }
        ensures same { (writer_of replying.new.batch.out).ghost_name ≡ (writer_of replying.old.batch.out).ghost_name }
        ensures taken { TakesMany self.old self.new (outgoing W.contents replying.old.batch)
            (outgoing W.contents replying.new.batch) orders.now [] }
    {
        for i in 0..orders.count() {
            self.take_one_of(replying, &orders.order(i));
        }
    }

    // Takes an order of worker 0, and keeps its replies.
    fn take_one_of<W: Write>(&mut self, replying: &mut Replying<'_, W, J>, order: &Order)
        requires { IsReady self.old }
        ensures ready { IsReady self.new }
        ensures same { (writer_of replying.new.batch.out).ghost_name ≡ (writer_of replying.old.batch.out).ghost_name }
        ensures held { W.contents (writer_of replying.new.batch.out).now ≡ W.contents (writer_of replying.old.batch.out).now }
        ensures taken { TakesOne self.old self.new (outgoing W.contents replying.old.batch)
            (outgoing W.contents replying.new.batch) order.now }
    {
        match self.desk.take(0, order, &mut self.tolds) {
            Ok(()) => {
                recall(&mut self.recent, order, self.tolds.as_slice());
                replying.keep(&Response::Replies(self.tolds.as_slice()));
            }
            Err(NoMemory) => {
                self.refused = true;
                replying.keep(&Response::lost(order.op.kind(), order.unique));
            }
        }
    }

    // Takes an order of worker 0, and collects its replies.
    fn take<W: Write>(&mut self, replying: &mut Replying<'_, W, J>, order: &Order)
        requires { IsReady self.old }
        ensures ready { IsReady self.new }
        ensures same { (writer_of replying.new.batch.out).ghost_name ≡ (writer_of replying.old.batch.out).ghost_name }
        ensures taken { TakesOne self.old self.new (outgoing W.contents replying.old.batch)
            (outgoing W.contents replying.new.batch) order.now }
    {
        let Server {
            desk,
            recent,
            tolds,
            refused,
            ..
        } = self;
        match desk.take(0, order, tolds) {
            Ok(()) => {
                recall(recent, order, tolds.as_slice());
                replying.collect(desk, &Response::Replies(tolds.as_slice()));
            }
            Err(NoMemory) => {
                *refused = true;
                replying.collect(desk, &Response::lost(order.op.kind(), order.unique));
            }
        }
    }
}

// Adds the lines of an order of worker 0 to the last lines, if these are kept.
fn recall(recent: &mut Option<Recent>, order: &Order, tolds: &[Told])
    ensures { recent.new ≡ with_lines recent.old (step_lines 0 order.now tolds.now) }
{
    if let Some(recent) = recent {
        push_lines(recent, order, tolds);
    }
}

// Adds the lines of an order of worker 0 to the last lines.
fn push_lines(recent: &mut Recent, order: &Order, tolds: &[Told])
    ensures { recent.new ≡ recent.old ++ step_lines 0 order.now tolds.now }
{
    recent.push_asked(0, order);
    for told in tolds {
        recent.push_told(told);
    }
}
