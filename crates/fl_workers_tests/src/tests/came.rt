//! What came of orders, and what is wanted of them.

use super::orders::replies;
use fl_order::Order;
use fl_testing::{Reply, bytes_after};
use fl_workers::Failures;
use std::alloc::Global;
use std::process::Abort;

/// What came of orders at a seat.
#[derive(Drop)]
pub(super) struct Came {
    /// Those that were handed in.
    pub handed: Vec<Order>,
    /// How many were handed in together each time, with those that weren't taken then.
    pub batches: Vec<u64>,
    /// The uniques of those that were looked for and shown.
    pub looked: Vec<u64>,
    /// What the worker told that went wrong.
    pub failures: Failures,
}

/// What is wanted of orders that one worker took, the oldest first.
#[derive(Clone, Copy)]
pub(super) struct Wanted<'a> {
    /// The uniques of those that are handed in.
    pub handed: &'a [u64],
    /// How many are handed in together each time.
    pub batches: &'a [u64],
    /// The uniques of those that are looked for and shown.
    pub looked: &'a [u64],
    /// Some order is refused.
    pub refused: bool,
    /// The reply to each order to which one is owed.
    pub replies: &'a [Reply],
    /// The last bytes of these, in hex.
    pub ends: &'a str,
}

/// That came which is wanted, with these bytes.
pub(super) fn is_wanted(
    rt: &impl Abort,
    alloc: Global,
    came: &Came,
    out: &[u8],
    wanted: &Wanted<'_>,
) {
    are_orders(rt, &came.handed, wanted.handed);
    are_numbers(rt, &came.batches, wanted.batches);
    are_numbers(rt, &came.looked, wanted.looked);
    have_failed(rt, came.failures, wanted.refused);
    are_replies(rt, &replies(rt, alloc, out), wanted.replies);
    ends_with(rt, alloc, out, wanted.ends);
}

/// So many orders were handed in together each time, and nothing went wrong.
pub(super) fn are_batches(rt: &impl Abort, came: &Came, batches: &[u64]) {
    have_failed(rt, came.failures, false);
    are_numbers(rt, &came.batches, batches);
}

// This says whether some order was refused, and nothing was lost.
fn have_failed(rt: &impl Abort, failures: Failures, refused: bool) {
    let lost = false;
    assert_eq!(rt; failures, Failures { refused, lost });
}

// The orders have these uniques.
fn are_orders(rt: &impl Abort, found: &[Order], wanted: &[u64]) {
    assert_eq!(rt; found.len(), wanted.len());
    for at in 0..wanted.len() {
        assert!(rt; at < found.len() && found[at].unique == wanted[at]);
    }
}

fn are_numbers(rt: &impl Abort, found: &[u64], wanted: &[u64]) {
    assert_eq!(rt; found, wanted);
}

fn are_replies(rt: &impl Abort, found: &[Reply], wanted: &[Reply]) {
    assert_eq!(rt; found, wanted);
}

fn ends_with(rt: &impl Abort, alloc: Global, out: &[u8], wanted: &str) {
    let wanted = bytes_after(alloc, wanted, "").expect(rt, "hex");
    assert!(rt; out.ends_with(&wanted));
}
