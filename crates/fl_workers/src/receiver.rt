//! How the receiver of a session with workers reads its stream.

ghost use Rattle.std.specs.Prelude.{◌≡◌, ◌≢◌, ◌∷◌, [], IfSome, Some, true, false};
ghost use Rattle.fl_counter.specs.Asked.{Orders};
ghost use Rattle.fl_transport.specs.Handshake.{advanced, incoming_of, opening};
ghost use Rattle.fl_transport.specs.Inbox.{IsUnread};
ghost use Rattle.fl_transport.specs.Response.{goodbye_to};
ghost use Rattle.fl_transport.specs.Said.{orders_in};
ghost use Rattle.fl_workers.specs.Dispatched.{AreDispatched, DispatchesMore};
ghost use Rattle.fl_workers.specs.Inside.Receiving.{HasGiven, given_now};
ghost use Rattle.fl_workers.specs.Received.{HasReceived, own_answer_in};

use crate::dispatcher::Dispatcher;
use crate::entry::ReplyEntry;
use crate::inline::InlineWorker;
use crate::sender::WriterName;
use fl_counter::{Counter, Gate};
use fl_intake::PutEnd;
use fl_log::Appender;
use fl_transport::{Fault, Filled, Handshake, Inbox, Incoming, Response};
use fl_wire::{Frame, Step};
use std::io::{Read, Write};
use std::sync::Wait;

/// How the receiver of a session ended.
#[derive(Drop)]
pub struct Received<'g, N: WriterName> {
    /// The end at which it put orders.
    pub put: PutEnd,
    /// Its fault, if any.
    pub fault: Option<Fault>,
    /// What the message that ended the session, if one did, is answered once all orders are.
    pub goodbye: Response<'g>,
    /// Through this it gave its answers to be sent.
    pub own: Appender<N, ReplyEntry>,
    /// Some answer could not be given to the sender, and nobody sends it.
    pub lost: bool,
}

/// Reads until the session ends: orders are dispatched, and other messages are answered at once, through the writer
/// that the workers share. It ends at the stream's end, at a fault of the stream and at a DESTROY, which it leaves to
/// be answered. Before each read, and at the end, all orders that went to the inline worker are handled. This worker comes
/// back, if there is one.
pub fn receive_all<'g, R: Wait, C: Counter, G: Gate, W: Write, N: WriterName, I: Read>(
    orders: Dispatcher<'_, '_, R, C, G, W, N>,
    own: Appender<N, ReplyEntry>,
    r: &mut I,
    inbox: &mut Inbox,
) -> (Received<'g, N>, Option<InlineWorker<C, N>>)
    requires none { orders.put.put ≡ [] }
    requires idle { IfSome orders.inline (λ worker. (worker.waiting ≡ []) × (worker.refused ≡ false)) }
    requires unread { IsUnread inbox.old }
    ensures received { (said : Orders) × AreDispatched C.shows orders.entry.inline result.0.put.put result.1 said
        × HasReceived (record {
          left = I.remaining r.old;
          left_now = I.remaining r.new;
          fault = result.0.fault;
          orders = said;
          goodbye = result.0.goodbye;
          sent = own;
          sent_now = result.0.own;
          lost = result.0.lost;
        }) }
    ensures handled { IfSome result.1 (λ worker. worker.waiting ≡ []) }
    ensures same { (result.0.put.of ≡ orders.entry.put.of) × (result.0.put.takers ≡ orders.entry.put.takers) }
    ensures memory { result.0.fault ≢ Some Fault.NoMemory }
{
    Receiver::new(orders, own).receive_all(r, inbox)
}

// The receiver of a session with workers: where its orders go and its own answers, and how far the session is.
#[derive(Drop)]
struct Receiver<'g, 'a, 'w, R, C: Counter, G, W: Write, N: WriterName> {
    orders: Dispatcher<'a, 'w, R, C, G, W, N>,
    own: Appender<N, ReplyEntry>,
    // Some answer could not be given to the sender.
    lost: bool,
    handshake: Handshake,
    // The answer to the DESTROY that ended the session.
    goodbye: Response<'g>,
}

impl<'g, 'a, 'w, R: Wait, C: Counter, G: Gate, W: Write, N: WriterName> Receiver<
    'g,
    'a,
    'w,
    R,
    C,
    G,
    W,
    N,
> {
    // No message came yet.
    fn new(
        orders: Dispatcher<'a, 'w, R, C, G, W, N>,
        own: Appender<N, ReplyEntry>,
    ) -> Receiver<'g, 'a, 'w, R, C, G, W, N>
        ensures orders { result.orders ≡ orders.entry }
        ensures own { (result.own ≡ own) × (result.lost ≡ false) }
        ensures fresh { result.handshake ≡ opening }
        ensures unanswered { result.goodbye ≡ Response.Nothing }
    {
        Receiver {
            orders,
            own,
            lost: false,
            handshake: Handshake::new(),
            goodbye: Response::Nothing,
        }
    }

    // Reads until the session ends.
    fn receive_all<I: Read>(
        self,
        r: &mut I,
        inbox: &mut Inbox,
    ) -> (Received<'g, N>, Option<InlineWorker<C, N>>)
        requires unread { IsUnread inbox.old }
        requires fresh { (self.handshake ≡ opening) × (self.orders.put.put ≡ []) }
        requires idle { IfSome self.orders.inline (λ worker. (worker.waiting ≡ []) × (worker.refused ≡ false)) }
        requires unanswered { (self.goodbye ≡ Response.Nothing) × (self.lost ≡ false) }
        ensures received { (said : Orders)
            × AreDispatched C.shows self.entry.orders.inline result.0.put.put result.1 said
            × HasReceived (record {
              left = I.remaining r.old;
              left_now = I.remaining r.new;
              fault = result.0.fault;
              orders = said;
              goodbye = result.0.goodbye;
              sent = self.entry.own;
              sent_now = result.0.own;
              lost = result.0.lost;
            }) }
        ensures handled { IfSome result.1 (λ worker. worker.waiting ≡ []) }
        ensures same { (result.0.put.of ≡ self.entry.orders.put.of)
            × (result.0.put.takers ≡ self.entry.orders.put.takers) }
        ensures memory { result.0.fault ≢ Some Fault.NoMemory }
    {
        let mut receiver = self;
        while !receiver.handshake.over {
            match inbox.next() {
                Step::Whole(frame) => {
                    receiver.receive(&frame);
                    let len = frame.as_bytes().len();
                    inbox.skip(len);
                }
                Step::Bad(len) => return receiver.ended(Some(Fault::BadLength(len))),
                Step::More => {
                    receiver.orders.settle();
                    if let Filled::End(fault) = inbox.fill(r) {
                        return receiver.ended(fault);
                    }
                }
            }
        }
        receiver.ended(None)
    }

    // How the receiver ended, with this fault, once its own worker has handled all that waited for it.
    fn ended(self, fault: Option<Fault>) -> (Received<'g, N>, Option<InlineWorker<C, N>>)
        ensures fault { result.0.fault ≡ fault }
        ensures same { (result.0.put.of ≡ self.entry.orders.put.of)
            × (result.0.put.takers ≡ self.entry.orders.put.takers) }
        ensures dispatched { DispatchesMore C.shows self.entry.orders.put.put self.entry.orders.inline result.0.put.put
            result.1 [] }
        ensures handled { IfSome result.1 (λ worker. worker.waiting ≡ []) }
        ensures goodbye { result.0.goodbye ≡ self.entry.goodbye }
        ensures own { (result.0.own ≡ self.entry.own) × (result.0.lost ≡ self.entry.lost) }
    {
        let Receiver {
            orders,
            goodbye,
            own,
            lost,
            ..
        } = self;
        let mut orders = orders;
        orders.handle();
        let Dispatcher { put, inline, .. } = orders;
        let received = Received {
            put,
            fault,
            goodbye,
            own,
            lost,
        };
        (received, inline)
    }

    // Receives one message of a session that isn't over.
    fn receive(&mut self, frame: &Frame)
        requires { self.old.handshake.over ≡ false }
        ensures same { (self.new.orders.put.of ≡ self.old.orders.put.of)
            × (self.new.orders.put.takers ≡ self.old.orders.put.takers) }
        ensures advanced { self.new.handshake ≡ advanced self.old.handshake frame.now }
        ensures dispatched { DispatchesMore C.shows self.old.orders.put.put self.old.orders.inline
            self.new.orders.put.put self.new.orders.inline
            (orders_in (incoming_of false self.old.handshake frame.now)) }
        ensures ends { self.new.handshake.over ≡ true → self.new.goodbye ≡ goodbye_to frame.now }
        ensures live { self.new.handshake.over ≡ false → self.new.goodbye ≡ self.old.goodbye }
        ensures left { self.new.handshake.over ≡ true
            → own_answer_in (incoming_of false self.old.handshake frame.now) ≡ self.new.goodbye ∷ [] }
        ensures given { HasGiven self.old.own self.new.own self.old.lost self.new.lost
            (given_now self.new.handshake.over (own_answer_in (incoming_of false self.old.handshake frame.now))) }
    {
        let incoming = self.handshake.receive(frame, false);
        match &incoming {
            Incoming::Order(order) => self.orders.put(order),
            Incoming::Batch(orders) => self.orders.put_all(orders),
            Incoming::Response(response) if self.handshake.over => self.goodbye = *response,
            Incoming::Response(response) => self.answer(response),
        }
    }

    // Sends an answer of the session itself, or notes that it could not be given to the sender.
    fn answer(&mut self, response: &Response)
        ensures same { (self.new.orders ≡ self.old.orders) × (self.new.handshake ≡ self.old.handshake)
            × (self.new.goodbye ≡ self.old.goodbye) }
        ensures given { HasGiven self.old.own self.new.own self.old.lost self.new.lost (response.now ∷ []) }
    {
        let mut sender = self.orders.sender.lock(self.orders.rt);
        if sender.collect(&mut self.own, response) {
            sender.flush();
        } else {
            self.lost = true;
        }
    }
}
