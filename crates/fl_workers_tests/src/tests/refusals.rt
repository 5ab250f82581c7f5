//! Orders that are refused.

use super::came::Wanted;
use super::handling::{are_handled, comes_so};
use super::orders::{FIRST, lookups};
use super::tally::{Refuses, Tally, WILLING};
use fl_intake::Job;
use fl_testing::Reply;
use std::alloc::Global;
use std::process::Abort;
use std::sync::Wait;

// The third, sixth and ninth order are a lock, an INTERRUPT and a FORGET.
const TRACE: &str = "\
ask 0 2 1 0 0 0 create 0 420 61
ask 0 3 2 0 0 0 setlk 1 7 0 9 1 11 0
ask 0 4 2 0 0 0 setlk 1 7 0 9 2 11 0
ask 0 5 2 0 0 0 setlk 1 8 0 0 1 12 0
ask 0 6 2 0 0 0 setlkw 1 8 0 0 1 12 0
ask 0 7 0 0 0 0 interrupt 6
ask 0 8 1 0 0 0 lookup 62
ask 0 9 1 0 0 0 lookup 61
ask 0 10 2 0 0 0 forget 1
ask 0 11 2 0 0 0 setlk 1 9 20 29 1 13 0
";

// The lock is there still and the request is parked for good. ENOMEM is told to the lock and EAGAIN to the INTERRUPT.
const REFUSED: Wanted<'static> = Wanted {
    handed: &[2, 3, 5, 6, 8, 9, 11],
    batches: &[10, 7, 4, 1],
    looked: &[],
    refused: true,
    replies: &[
        (2, 0),
        (3, 0),
        (4, 12),
        (5, 11),
        (7, 11),
        (8, 2),
        (9, 0),
        (11, 0),
    ],
    ends: "",
};

// The lock is given back, so nothing waits. The INTERRUPT finds no request.
const TAKEN: Wanted<'static> = Wanted {
    handed: &[2, 3, 4, 5, 6, 7, 8, 9, 10, 11],
    batches: &[10],
    looked: &[],
    refused: false,
    replies: &[
        (2, 0),
        (3, 0),
        (4, 0),
        (5, 0),
        (6, 0),
        (7, 11),
        (8, 2),
        (9, 0),
        (11, 0),
    ],
    ends: "",
};

const REFUSING: Tally = Tally {
    refuses: Refuses::EachThird,
    shows: true,
};

#[test]
fn a_refused_order_is_told_so(rt: HostRuntime) {
    comes_so(&rt, rt.alloc(), REFUSING, TRACE, &REFUSED);
    comes_so(&rt, rt.alloc(), WILLING, TRACE, &TAKEN);
}

// As many orders as are handed in together.
const BATCH: u64 = 16;

// All orders of a batch but the one of this number.
fn but_one(rt: &impl Abort, alloc: Global, number: u64) -> Vec<u64> {
    let mut uniques = Vec::new(alloc);
    for at in 0..BATCH {
        if at + 1 != number {
            uniques.push(FIRST + at).expect(rt, "memory");
        }
    }
    uniques
}

// Each order of a batch finds nothing, but for the one of this number, which is refused: ENOMEM.
fn batch_replies(rt: &impl Abort, alloc: Global, number: u64) -> Vec<Reply> {
    let mut replies = Vec::new(alloc);
    for at in 0..BATCH {
        let error = if at + 1 == number { 12u32 } else { 2u32 };
        replies.push((FIRST + at, error)).expect(rt, "memory");
    }
    replies
}

// Those behind the one that is refused are handed in together.
fn refuse_one<R: Wait + Abort>(rt: &R, alloc: Global, orders: &[Job], number: u64) {
    let handed = but_one(rt, alloc, number);
    let replies = batch_replies(rt, alloc, number);
    let behind = BATCH.saturating_sub(number);
    let batches = [BATCH, behind];
    let times = if behind > 0 { 2 } else { 1 };
    let wanted = Wanted {
        handed: &handed,
        batches: &batches[..times],
        looked: &[],
        refused: true,
        replies: &replies,
        ends: "",
    };
    let tally = Tally {
        refuses: Refuses::One(number),
        shows: true,
    };
    are_handled(rt, alloc, tally, orders, &wanted);
}

#[test]
fn each_order_of_a_batch_is_refused_alone(rt: HostRuntime) {
    let orders = lookups(&rt, rt.alloc(), BATCH);
    for number in 1..=BATCH {
        refuse_one(&rt, rt.alloc(), &orders, number);
    }
}
