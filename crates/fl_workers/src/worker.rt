//! What a worker of a session does.

ghost use Rattle.std.specs.Prelude.{◌≡◌, ◌<◌, ◌≤◌, ◌++◌, ◌∷◌, [], true, false, ◌||◌, length, take, vec_capacity};
ghost use Rattle.std.specs.Prelude.{IfSome, IsSome};
ghost use mathlib.Core.List.{IsPrefix};
ghost use Rattle.fl_counter.specs.Answered.{answered_by};
ghost use Rattle.fl_order.specs.Order.{kind_of, only_reads};
ghost use Rattle.fl_transport.specs.Response.{lost};
ghost use Rattle.fl_workers.specs.Inside.Lists.{entries_for};
ghost use Rattle.fl_workers.specs.Room.{HasRoomFor, HasBatchFor};
ghost use Rattle.fl_workers.specs.Sent.{HasSent, entry, replies_of};
ghost use Rattle.fl_workers.specs.Worked.{HasDone, HasWorked, standing};

use crate::entry::ReplyEntry;
use crate::room::{BatchRoom, ReplyRoom};
use crate::sender::{SharedSender, WriterName};
use fl_counter::{Counter, Gate, NoView, Outgoing, ToldLists};
use fl_intake::{Intake, Job, TakeEnd};
use fl_log::Appender;
use fl_order::{Order, Told};
use fl_transport::Response;
use std::io::Write;
use std::sync::{Mutex, Wait};

/// Where a worker works: its seat, and what it gives replies to be sent through.
#[derive(Drop)]
pub struct Post<S, N: WriterName> {
    /// Its seat.
    pub seat: S,
    /// Through this it gives replies to be sent.
    pub own: Appender<N, ReplyEntry>,
}

/// What went wrong with orders.
#[derive(Clone, Copy, Debug, PartialEq, Eq)]
pub struct Failures {
    /// Some order was refused.
    pub refused: bool,
    /// What is owed for some order could not be given to the sender, and nobody sends it.
    pub lost: bool,
}

impl Failures {
    /// Nothing went wrong.
    pub fn none() -> Failures
        ensures { (result.refused ≡ false) × (result.lost ≡ false) }
    {
        Failures {
            refused: false,
            lost: false,
        }
    }

    /// What went wrong with these orders, or with those.
    pub fn or(self, other: Failures) -> Failures
        ensures { (result.refused ≡ (self.refused || other.refused)) × (result.lost ≡ (self.lost || other.lost)) }
    {
        Failures {
            refused: self.refused || other.refused,
            lost: self.lost || other.lost,
        }
    }
}

/// Takes batches of orders until the intake is closed and empty, and handles each as `handle_all` does. Before it waits
/// for an order it sends what is collected, and tells the counter. It says what went wrong with its orders.
pub fn worker_loop<R: Wait, C: Counter, G: Gate, W: Write, N: WriterName>(
    rt: &R,
    counter: &C,
    gate: &G,
    intake: &Intake,
    sender: &Mutex<SharedSender<'_, W, N>>,
    post: &mut Post<C::Seat, N>,
    end: &mut TakeEnd,
    room: BatchRoom,
) -> Failures
    requires end { end.old.of ≡ intake.now }
    requires room { HasBatchFor C.most_tolds room }
    ensures end { end.new.of ≡ intake.now }
    ensures did { HasDone C.shows end.old.taken end.new.taken
        (standing C.worker C.count C.answered C.front C.stored post.old.seat post.old.own)
        (standing C.worker C.count C.answered C.front C.stored post.new.seat post.new.own)
        result.refused result.lost }
{
    let BatchRoom {
        mut batch,
        mut replies,
    } = room;
    let mut failures = Failures::none();
    for _ in rt.forever() {
        if !next_batch(rt, counter, intake, end, sender, &mut batch) {
            break;
        }
        let more = handle_all(rt, counter, gate, sender, post, &mut replies, &batch);
        failures = failures.or(more);
    }
    failures
}

/// Handles orders at one seat, one after another: it looks for those that only read, and hands in all others, and those
/// for which nothing could be shown. Orders between two that only read are handed in together, at most 16 at a time, or
/// alone if there is one. It gives all replies to be sent; of an order that is refused, the reply that says so, if one is
/// owed.
pub fn handle_all<R: Wait, C: Counter, G: Gate, W: Write, N: WriterName>(
    rt: &R,
    counter: &C,
    gate: &G,
    sender: &Mutex<SharedSender<'_, W, N>>,
    post: &mut Post<C::Seat, N>,
    replies: &mut ReplyRoom,
    orders: &[Job],
) -> Failures
    requires room { HasRoomFor C.most_tolds replies.old }
    ensures room { HasRoomFor C.most_tolds replies.new }
    ensures did { HasWorked C.shows orders.now
        (standing C.worker C.count C.answered C.front C.stored post.old.seat post.old.own)
        (standing C.worker C.count C.answered C.front C.stored post.new.seat post.new.own)
        result.refused result.lost }
{
    for order in orders {
        gate.pass(order.unique);
    }
    let mut failures = Failures::none();
    let mut done = 0;
    while done < orders.len() {
        let (handled, more) = handle_next(
            rt,
            counter,
            gate,
            sender,
            post,
            replies,
            &orders[done..],
        );
        failures = failures.or(more);
        done += handled;
    }
    failures
}

// Handles the first of these orders, or some from the first on. It says how many.
fn handle_next<R: Wait, C: Counter, G: Gate, W: Write, N: WriterName>(
    rt: &R,
    counter: &C,
    gate: &G,
    sender: &Mutex<SharedSender<'_, W, N>>,
    post: &mut Post<C::Seat, N>,
    replies: &mut ReplyRoom,
    orders: &[Job],
) -> (usize, Failures)
    requires some { 0 < length orders.now }
    requires room { HasRoomFor C.most_tolds replies.old }
    ensures room { HasRoomFor C.most_tolds replies.new }
    ensures some { (0 < result.0) × (result.0 ≤ length orders.now) }
    ensures did { HasWorked C.shows (take result.0 orders.now)
        (standing C.worker C.count C.answered C.front C.stored post.old.seat post.old.own)
        (standing C.worker C.count C.answered C.front C.stored post.new.seat post.new.own)
        result.1.refused result.1.lost }
{
    let Post { seat, own } = post;
    let first = &orders[0];
    if let Some(told) = looked(rt, counter, seat, first) {
        let lost = give(rt, gate, sender, own, &Response::One(told));
        let failures = Failures {
            refused: false,
            lost,
        };
        return (1, failures);
    }
    let many = until_one_reads(orders);
    if many == 1 {
        let failures = hand_in_one(rt, counter, gate, sender, post, replies, first);
        return (1, failures);
    }
    let (together, _) = orders.split_at(many);
    hand_in(rt, counter, gate, sender, post, replies, together)
}

// How many of these orders come before the next that only reads. The first is one of them in any case.
fn until_one_reads(orders: &[Job]) -> usize
    requires { 0 < length orders.now }
    ensures { (0 < result) × (result ≤ length orders.now) }
{
    for i in 1..orders.len() {
        if orders[i].only_reads() {
            return i;
        }
    }
    orders.len()
}

// Hands in an order that comes alone. What is owed for it is given to be sent.
fn hand_in_one<R: Wait, C: Counter, G: Gate, W: Write, N: WriterName>(
    rt: &R,
    counter: &C,
    gate: &G,
    sender: &Mutex<SharedSender<'_, W, N>>,
    post: &mut Post<C::Seat, N>,
    replies: &mut ReplyRoom,
    order: &Order,
) -> Failures
    requires { HasRoomFor C.most_tolds replies.old }
    ensures room { HasRoomFor C.most_tolds replies.new }
    ensures did { HasWorked C.shows (order.now ∷ [])
        (standing C.worker C.count C.answered C.front C.stored post.old.seat post.old.own)
        (standing C.worker C.count C.answered C.front C.stored post.new.seat post.new.own)
        result.refused result.lost }
{
    let Post { seat, own } = post;
    let tolds = &mut replies.tolds;
    let result = counter.hand_in_one(rt, &Collected { sender }, seat, order, tolds);
    match result {
        Ok(()) => {
            let lost = give(rt, gate, sender, own, &Response::Replies(tolds.as_slice()));
            Failures {
                refused: false,
                lost,
            }
        }
        Err(_) => refuse(rt, gate, sender, own, order),
    }
}

// Hands in these orders together, until one is refused. What is owed for each is given to be sent. It says how many it
// handed in, and one more if that was refused.
fn hand_in<R: Wait, C: Counter, G: Gate, W: Write, N: WriterName>(
    rt: &R,
    counter: &C,
    gate: &G,
    sender: &Mutex<SharedSender<'_, W, N>>,
    post: &mut Post<C::Seat, N>,
    replies: &mut ReplyRoom,
    orders: &[Job],
) -> (usize, Failures)
    requires some { 0 < length orders.now }
    requires room { HasRoomFor C.most_tolds replies.old }
    ensures room { HasRoomFor C.most_tolds replies.new }
    ensures some { (0 < result.0) × (result.0 ≤ length orders.now) }
    ensures did { HasWorked C.shows (take result.0 orders.now)
        (standing C.worker C.count C.answered C.front C.stored post.old.seat post.old.own)
        (standing C.worker C.count C.answered C.front C.stored post.new.seat post.new.own)
        result.1.refused result.1.lost }
{
    let Post { seat, own } = post;
    let ReplyRoom { tolds, lists } = replies;
    let result = counter.hand_in_all(rt, &Collected { sender }, seat, orders, tolds, lists);
    let handed = lists.count();
    let lost = give_lists(rt, gate, sender, own, lists);
    let failures = Failures {
        refused: false,
        lost,
    };
    match result {
        Ok(()) => (handed, failures),
        Err(_) => {
            let order = &orders[handed];
            let more = refuse(rt, gate, sender, own, order);
            (handed + 1, failures.or(more))
        }
    }
}

// Gives the reply that says that this order was refused to be sent, if one is owed.
fn refuse<R: Wait, G: Gate, W: Write, N: WriterName>(
    rt: &R,
    gate: &G,
    sender: &Mutex<SharedSender<'_, W, N>>,
    own: &mut Appender<N, ReplyEntry>,
    order: &Order,
) -> Failures
    ensures refused { result.refused ≡ true }
    ensures sent { HasSent
        (entry own.old.author (replies_of (lost (kind_of order.now.op) order.now.unique)) ∷ [])
        own.old own.new result.lost }
{
    let response = Response::lost(order.op.kind(), order.unique);
    let lost = give(rt, gate, sender, own, &response);
    Failures {
        refused: true,
        lost,
    }
}

// The reply to an order that only reads, for which something could be shown, once what looks read is ready. None of it
// is handed in.
fn looked<R: Wait, C: Counter>(
    rt: &R,
    counter: &C,
    seat: &mut C::Seat,
    order: &Order,
) -> Option<Told>
    ensures own { C.worker seat.new ≡ C.worker seat.old }
    ensures kept { (C.count seat.new ≡ C.count seat.old) × (C.answered seat.new ≡ C.answered seat.old) }
    ensures stored { C.stored seat.new ≡ C.stored seat.old }
    ensures front { IsPrefix (C.front seat.old) (C.front seat.new) }
    ensures reads { IsSome result → only_reads order.now.op ≡ true }
    ensures had { IfSome result (λ _.
        IsPrefix (C.answered seat.old) (answered_by (C.worker seat.old) (C.front seat.new))) }
    ensures shown { IfSome result (λ told. (told.unique ≡ order.now.unique)
        × C.shows (C.front seat.new) order.now told.result) }
{
    if !order.only_reads() {
        return None;
    }
    let result = match counter.look(seat, order) {
        Ok(result) => result,
        Err(NoView) => {
            counter.warm(rt, seat);
            counter.look(seat, order).ok()?
        }
    };
    Some(Told {
        unique: order.unique,
        result,
    })
}

// Takes the next orders into the batch, in the place of those before, and says whether one came. If none is there, what
// is collected is sent first, and the counter is told. Then a worker spins for a while before it sleeps.
fn next_batch<R: Wait, C: Counter, W: Write, N: WriterName>(
    rt: &R,
    counter: &C,
    intake: &Intake,
    end: &mut TakeEnd,
    sender: &Mutex<SharedSender<'_, W, N>>,
    batch: &mut Vec<Job>,
) -> bool
    requires end { end.old.of ≡ intake.now }
    requires room { 0 < vec_capacity batch.old }
    ensures of { end.new.of ≡ intake.now }
    ensures room { vec_capacity batch.new ≡ vec_capacity batch.old }
    ensures taken { end.new.taken ≡ end.old.taken ++ batch.new.items }
    ensures none { result ≡ false → batch.new.items ≡ [] }
{
    batch.clear();
    intake.take_many(rt, end, batch);
    if !batch.is_empty() {
        return true;
    }
    flush(rt, sender);
    counter.pause(rt);
    intake.spin();
    intake.take_many(rt, end, batch);
    if !batch.is_empty() {
        return true;
    }
    intake.take(rt, end, batch);
    !batch.is_empty()
}

// Gives these lists of replies to be sent, each by itself, with nothing of another worker's between, and tells the gate
// of each reply. It says whether some list could not be given.
fn give_lists<R: Wait, G: Gate, W: Write, N: WriterName>(
    rt: &R,
    gate: &G,
    sender: &Mutex<SharedSender<'_, W, N>>,
    own: &mut Appender<N, ReplyEntry>,
    lists: &ToldLists,
) -> bool
    ensures { HasSent (entries_for own.old.author lists.now.lists) own.old own.new result }
{
    let lost = collect_lists(rt, sender, own, lists);
    for place in 0..lists.count() {
        notify(gate, &Response::Replies(lists.list(place)));
    }
    lost
}

fn collect_lists<R: Wait, W: Write, N: WriterName>(
    rt: &R,
    sender: &Mutex<SharedSender<'_, W, N>>,
    own: &mut Appender<N, ReplyEntry>,
    lists: &ToldLists,
) -> bool
    ensures { HasSent (entries_for own.old.author lists.now.lists) own.old own.new result }
{
    let mut sender = sender.lock(rt);
    let mut lost = false;
    for place in 0..lists.count() {
        let given = sender.collect(own, &Response::Replies(lists.list(place)));
        lost = lost || !given;
    }
    lost
}

// Gives a response to be sent, with nothing of another worker's between, and tells the gate of each reply. It says
// whether it could not be given.
fn give<R: Wait, G: Gate, W: Write, N: WriterName>(
    rt: &R,
    gate: &G,
    sender: &Mutex<SharedSender<'_, W, N>>,
    own: &mut Appender<N, ReplyEntry>,
    response: &Response,
) -> bool
    ensures { HasSent (entry own.old.author (replies_of response.now) ∷ []) own.old own.new result }
{
    let lost = collect(rt, sender, own, response);
    notify(gate, response);
    lost
}

fn collect<R: Wait, W: Write, N: WriterName>(
    rt: &R,
    sender: &Mutex<SharedSender<'_, W, N>>,
    own: &mut Appender<N, ReplyEntry>,
    response: &Response,
) -> bool
    ensures { HasSent (entry own.old.author (replies_of response.now) ∷ []) own.old own.new result }
{
    let mut sender = sender.lock(rt);
    !sender.collect(own, response)
}

// The replies that a session's workers have collected.
#[derive(Drop)]
struct Collected<'s, 'w, W: Write, N: WriterName> {
    sender: &'s Mutex<SharedSender<'w, W, N>>,
}

impl<'s, 'w, W: Write, N: WriterName> Outgoing for Collected<'s, 'w, W, N> {
    fn send<R: Wait>(&self, rt: &R) {
        flush(rt, self.sender);
    }
}

// Sends what is collected.
pub(crate) fn flush<R: Wait, W: Write, N: WriterName>(
    rt: &R,
    sender: &Mutex<SharedSender<'_, W, N>>,
) {
    let mut sender = sender.lock(rt);
    sender.flush();
}

// Tells the gate of each reply.
fn notify<G: Gate>(gate: &G, response: &Response) {
    match response {
        Response::Nothing => {}
        Response::Init(unique, _) | Response::Whole(unique, _) => gate.sent(*unique),
        Response::One(told) => gate.sent(told.unique),
        Response::Replies(tolds) => {
            for told in *tolds {
                gate.sent(told.unique);
            }
        }
    }
}
