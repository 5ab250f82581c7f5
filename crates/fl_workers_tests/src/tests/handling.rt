//! Orders that are handled at one seat, with no intake.

ghost use Rattle.std.specs.Prelude.{◌≡◌, Some};

use super::came::{Came, Wanted, is_wanted};
use super::orders::asked;
use super::sending::{alone, begun, closed, opened};
use super::tally::{Seat, Tally};
use super::watch::Watch;
use fl_core::Rules;
use fl_intake::Job;
use fl_log::{Appender, FreshLog};
use fl_workers::{Post, ReplyEntry, ReplyRoom, SharedSender, WriterName, handle_all};
use std::alloc::Global;
use std::marker::Brand;
use std::process::Abort;
use std::sync::ledger::Blank;
use std::sync::{Mutex, Wait};

/// Handles the orders of a trace at one seat. That comes of them which is wanted.
pub(super) fn comes_so<R: Wait + Abort>(
    rt: &R,
    alloc: Global,
    tally: Tally,
    trace: &str,
    wanted: &Wanted<'_>,
) {
    let orders = asked(rt, alloc, trace);
    are_handled(rt, alloc, tally, &orders, wanted);
}

/// Handles all orders at one seat. That comes of them which is wanted.
pub(super) fn are_handled<R: Wait + Abort>(
    rt: &R,
    alloc: Global,
    tally: Tally,
    orders: &[Job],
    wanted: &Wanted<'_>,
) {
    let gate = Watch::new();
    let mut out = Vec::new(alloc);
    let came = handled(rt, alloc, tally, &gate, orders, &mut out);
    is_wanted(rt, alloc, &came, &out, wanted);
    have_passed(rt, &gate, orders);
}

// The gate was told of all orders, and then of the first reply.
fn have_passed(rt: &impl Abort, gate: &Watch, orders: &[Job]) {
    assert_eq!(rt; gate.orders_before_the_first_reply(), orders.len() as u64);
}

/// Handles all orders at one seat, and puts the replies behind what was there.
pub(super) fn handled<R: Wait + Abort>(
    rt: &R,
    alloc: Global,
    tally: Tally,
    gate: &Watch,
    orders: &[Job],
    out: &mut Vec<u8>,
) -> Came {
    let sending = Blank::new(1);
    let given = FreshLog::new();
    let (came, _) = handled_at::<Brand, R>(rt, alloc, sending, given, tally, gate, orders, out);
    came
}

// The same, with a writer of this name.
fn handled_at<'w, N: WriterName, R: Wait + Abort>(
    rt: &R,
    alloc: Global,
    sending: Blank,
    given: FreshLog<ReplyEntry>,
    tally: Tally,
    gate: &Watch,
    orders: &[Job],
    out: &'w mut Vec<u8>,
) -> (Came, &'w mut Vec<u8>)
    requires start { Some out.old.items ≡ N.start }
    requires named { out.ghost_name ≡ N.writer }
    requires sending { (sending.name ≡ N.name) × (sending.parts ≡ N.parts) × (1 ≡ N.parts) }
    requires given { given ≡ N.log }
{
    let (sender, mut rest) = opened::<N, R>(rt, alloc, sending, given, out);
    let own = sender.appender(&mut rest, 0);
    let sender = begun(sender);
    let (came, own) = handed_in(rt, alloc, tally, gate, orders, &sender, own);
    (came, closed(rt, sender, alone(rt, alloc, own)))
}

// Handles all orders at one seat.
fn handed_in<'w, N: WriterName, R: Wait + Abort>(
    rt: &R,
    alloc: Global,
    tally: Tally,
    gate: &Watch,
    orders: &[Job],
    sender: &Mutex<SharedSender<'w, Vec<u8>, N>>,
    own: Appender<N, ReplyEntry>,
) -> (Came, Appender<N, ReplyEntry>) {
    let mut replies = ReplyRoom::new(alloc, Rules::standard()).expect(rt, "memory");
    let seat = Seat::new(rt, alloc, own.author());
    let mut post = Post { seat, own };
    let failures = handle_all(rt, &tally, gate, sender, &mut post, &mut replies, orders);
    let Post { seat, own } = post;
    (seat.came(failures), own)
}
