//! Jobs that are taken several at once.

ghost use Rattle.std.specs.Prelude.{◌≡◌, All};

use super::{are_uniques, order};
use fl_intake::{Intake, PutEnd, TakeEnd};
use std::alloc::Global;
use std::process::Abort;
use std::sync::Wait;

// Puts orders with the uniques from 0 on, so many.
fn put_all<R: Wait + Abort>(rt: &R, intake: &Intake, put: &mut PutEnd, many: u64)
    requires { put.old.of ≡ intake.now }
    ensures { put.new.of ≡ intake.now }
{
    for unique in 0..many {
        assert!(rt; intake.put(rt, put, &order(rt, unique)).is_ok());
    }
}

// What an end takes at once, into a batch with room for so many, are these.
pub(super) fn takes<R: Wait + Abort>(
    rt: &R,
    alloc: Global,
    intake: &Intake,
    end: &mut TakeEnd,
    room: usize,
    wanted: &[u64],
)
    requires { end.old.of ≡ intake.now }
    ensures { end.new.of ≡ intake.now }
{
    let mut batch = Vec::with_capacity(alloc, room).expect(rt, "memory");
    intake.take_many(rt, end, &mut batch);
    are_uniques(rt, batch.as_slice(), wanted);
}

// What an end takes alone is this one.
pub(super) fn takes_one<R: Wait + Abort>(
    rt: &R,
    alloc: Global,
    intake: &Intake,
    end: &mut TakeEnd,
    wanted: u64,
)
    requires { end.old.of ≡ intake.now }
    ensures { end.new.of ≡ intake.now }
{
    let mut batch = Vec::with_capacity(alloc, 1).expect(rt, "memory");
    intake.take(rt, end, &mut batch);
    are_uniques(rt, batch.as_slice(), &[wanted]);
}

// Of an intake with nine orders, two ends take in turn. What a batch has no room for stays inside.
fn take_in_turn<R: Wait + Abort>(
    rt: &R,
    alloc: Global,
    intake: &Intake,
    one: &mut TakeEnd,
    other: &mut TakeEnd,
)
    requires { (one.old.of ≡ intake.now) × (other.old.of ≡ intake.now) }
{
    takes(rt, alloc, intake, one, 3, &[0, 1, 2]);
    takes(rt, alloc, intake, other, 64, &[3, 4, 5]);
    takes(rt, alloc, intake, one, 0, &[]);
    takes(rt, alloc, intake, one, 64, &[6]);
    takes(rt, alloc, intake, other, 64, &[7]);
    takes(rt, alloc, intake, one, 64, &[8]);
    takes(rt, alloc, intake, other, 64, &[]);
}

#[test]
fn two_ends_take_a_half_each_and_one_at_least(rt: HostRuntime) {
    let alloc: Global = rt.alloc();
    let (intake, mut put, mut ends) = Intake::new(alloc, 2).expect(&rt, "memory");
    put_all(&rt, &intake, &mut put, 9);
    let mut one = ends.pop().expect(&rt, "an end");
    let mut other = ends.pop().expect(&rt, "an end");
    take_in_turn(&rt, alloc, &intake, &mut one, &mut other);
}
