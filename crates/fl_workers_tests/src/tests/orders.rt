//! Orders that are handed in, and replies that are read.

use fl_history::Line;
use fl_intake::Job;
use fl_order::{Name, Op, Order};
use fl_stream::read_trace;
use fl_testing::{Reply, first_reply};
use std::alloc::Global;
use std::process::Abort;

/// The unique of the first order.
pub(super) const FIRST: u64 = 2;

/// One order more.
pub(super) fn push(rt: &impl Abort, orders: &mut Vec<Job>, order: &Order) {
    // The prover has to be told of the op's type.
    let op: Op = order.op;
    orders.push(Order { op, ..*order }).expect(rt, "memory");
}

/// The orders that the lines of a trace ask.
pub(super) fn asked(rt: &impl Abort, alloc: Global, trace: &str) -> Vec<Job> {
    let history = read_trace(alloc, trace.as_bytes()).expect(rt, "a trace");
    let mut orders = Vec::new(alloc);
    for at in 0..history.len() {
        if let Line::Asked { worker: _, order } = history.line(at) {
            push(rt, &mut orders, &order);
        }
    }
    orders
}

/// An order at this place, on the top directory.
pub(super) fn made(at: u64, op: Op) -> Order {
    Order {
        unique: at.saturating_add(FIRST),
        node: 1,
        uid: 0,
        gid: 0,
        pid: 0,
        op,
    }
}

/// So many LOOKUPs of a name that no file has. Their uniques stand in a batch, from the first on.
pub(super) fn lookups(rt: &impl Abort, alloc: Global, many: u64) -> Vec<Job> {
    let name = Name::new(b"a").expect(rt, "a name");
    let mut orders = Vec::new(alloc);
    for at in 0..many {
        push(rt, &mut orders, &made(at, Op::Lookup(name)));
    }
    orders
}

/// The replies that these bytes are, as they stand there; the bytes have to be whole replies.
pub(super) fn replies(rt: &impl Abort, alloc: Global, bytes: &[u8]) -> Vec<Reply> {
    let mut replies = Vec::new(alloc);
    let mut rest = bytes;
    for _ in 0..bytes.len() {
        let Some((reply, behind)) = first_reply(rest) else {
            break;
        };
        replies.push(reply).expect(rt, "memory");
        rest = behind;
    }
    assert!(rt; rest.is_empty());
    replies
}
