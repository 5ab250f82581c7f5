//! Orders that wait when a worker comes.

ghost use Rattle.std.specs.Prelude.{◌≡◌, Some};

use super::came::{Came, are_batches};
use super::orders::lookups;
use super::sending::{alone, begun, closed, opened};
use super::tally::{Seat, WILLING};
use fl_core::Rules;
use fl_intake::{Intake, Job, PutEnd, TakeEnd};
use fl_log::{Appender, FreshLog};
use fl_workers::{BatchRoom, OpenGate, Post, ReplyEntry, SharedSender, WriterName, worker_loop};
use std::alloc::Global;
use std::marker::Brand;
use std::process::Abort;
use std::sync::ledger::Blank;
use std::sync::{Mutex, Wait};

// Puts all orders.
fn put_all<R: Wait + Abort>(rt: &R, intake: &Intake, put: PutEnd, orders: &[Job]) -> PutEnd
    requires { put.of ≡ intake.now }
    ensures { result.of ≡ intake.now }
{
    let mut put = put;
    for order in orders {
        let is_in = intake.put(rt, &mut put, order).is_ok();
        assert!(rt; is_in);
    }
    put
}

// Puts all orders, and then has a worker take them.
fn taken<R: Wait + Abort>(rt: &R, alloc: Global, orders: &[Job]) -> Came {
    let sending = Blank::new(1);
    let given = FreshLog::new();
    let mut out = Vec::new(alloc);
    let (came, _) = taken_at::<Brand, R>(rt, alloc, sending, given, orders, &mut out);
    came
}

// The same, with a writer of this name.
fn taken_at<'w, N: WriterName, R: Wait + Abort>(
    rt: &R,
    alloc: Global,
    sending: Blank,
    given: FreshLog<ReplyEntry>,
    orders: &[Job],
    out: &'w mut Vec<u8>,
) -> (Came, &'w mut Vec<u8>)
    requires start { Some out.old.items ≡ N.start }
    requires named { out.ghost_name ≡ N.writer }
    requires sending { (sending.name ≡ N.name) × (sending.parts ≡ N.parts) × (1 ≡ N.parts) }
    requires given { given ≡ N.log }
{
    let (sender, mut rest) = opened::<N, R>(rt, alloc, sending, given, out);
    let own = sender.appender(&mut rest, 0);
    let sender = begun(sender);
    let (intake, put, mut ends) = Intake::new(alloc, 1).expect(rt, "memory");
    let mut put = put_all(rt, &intake, put, orders);
    intake.close(&mut put);
    let end = ends.pop().expect(rt, "an end");
    let (came, own) = taken_by(rt, alloc, &intake, end, &sender, own);
    (came, closed(rt, sender, alone(rt, alloc, own)))
}

// Has a worker take all orders.
fn taken_by<'w, N: WriterName, R: Wait + Abort>(
    rt: &R,
    alloc: Global,
    intake: &Intake,
    end: TakeEnd,
    sender: &Mutex<SharedSender<'w, Vec<u8>, N>>,
    own: Appender<N, ReplyEntry>,
) -> (Came, Appender<N, ReplyEntry>)
    requires { end.of ≡ intake.now }
{
    let room = BatchRoom::new(alloc, Rules::standard()).expect(rt, "memory");
    let seat = Seat::new(rt, alloc, own.author());
    let mut post = Post { seat, own };
    let mut end = end;
    let failures = worker_loop(
        rt, &WILLING, &OpenGate, intake, sender, &mut post, &mut end, room,
    );
    let Post { seat, own } = post;
    (seat.came(failures), own)
}

// A worker takes at most 16 at once, and hands them in together.
#[test]
fn what_waits_is_taken_in_batches(rt: HostRuntime) {
    let alloc = rt.alloc();
    let orders = lookups(&rt, alloc, 20);
    let came = taken(&rt, alloc, &orders);
    are_batches(&rt, &came, &[16, 4]);
}
