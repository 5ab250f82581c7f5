//! More orders with names than an intake has boxes for names.

ghost use Rattle.std.specs.Prelude.{◌≡◌};

use super::many::{takes, takes_one};
use super::{are_whole, order};
use fl_intake::{Intake, MOST_JOBS, PutEnd, TakeEnd};
use fl_order::Order;
use std::alloc::Global;
use std::process::Abort;
use std::sync::Wait;

// The unique of an order with a name of 255 bytes, for each number another name than for the next.
fn named(number: u64) -> u64 {
    number.saturating_mul(15)
}

// Puts two such orders, and takes the first alone and the second with all others.
fn pass_two<R: Wait + Abort>(
    rt: &R,
    alloc: Global,
    intake: &Intake,
    put: &mut PutEnd,
    end: &mut TakeEnd,
    number: u64,
)
    requires { (put.old.of ≡ intake.now) × (end.old.of ≡ intake.now) }
    ensures { (put.new.of ≡ intake.now) × (end.new.of ≡ intake.now) }
{
    let first = named(number);
    let second = named(number.saturating_add(1));
    assert!(rt; intake.put(rt, put, &order(rt, first)).is_ok());
    assert!(rt; intake.put(rt, put, &order(rt, second)).is_ok());
    takes_one(rt, alloc, intake, end, first);
    takes(rt, alloc, intake, end, 2, &[second]);
}

#[test]
fn boxes_come_back(rt: HostRuntime) {
    let alloc: Global = rt.alloc();
    let (intake, mut put, mut ends) = Intake::new(alloc, 1).expect(&rt, "memory");
    let mut end = ends.pop().expect(&rt, "an end");
    for number in 0..500 {
        pass_two(&rt, alloc, &intake, &mut put, &mut end, number);
    }
}

// Puts orders with names until there is no more room.
fn fill<R: Wait + Abort>(rt: &R, intake: &Intake, put: &mut PutEnd)
    requires { put.old.of ≡ intake.now }
    ensures { put.new.of ≡ intake.now }
{
    for number in 0..MOST_JOBS as u64 {
        assert!(rt; intake.put(rt, put, &order(rt, named(number))).is_ok());
    }
}

// These are all of them, the oldest first.
fn are_all(rt: &impl Abort, orders: &[Order]) {
    are_whole(rt, orders);
    assert_eq!(rt; orders.len(), MOST_JOBS);
    for at in 0..orders.len() {
        assert!(rt; orders[at].unique == named(at as u64));
    }
}

#[test]
fn all_jobs_may_have_names(rt: HostRuntime) {
    let alloc: Global = rt.alloc();
    let (intake, mut put, ends) = Intake::new(alloc, 16).expect(&rt, "memory");
    fill(&rt, &intake, &mut put);
    let left = intake.finish(&rt, put, ends).ok().expect(&rt, "all ends");
    are_all(&rt, left.as_slice());
}
