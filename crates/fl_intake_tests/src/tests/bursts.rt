//! Orders that come in bursts.

ghost use Rattle.std.specs.Prelude.{◌≡◌, ◌<◌, ◌≤◌};

use super::order;
use super::pool::{WorkerPool, run};
use fl_intake::{Intake, PutEnd};
use std::alloc::Global;
use std::process::Abort;
use std::sync::Wait;
use std::sync::atomic::AtomicU64;
use std::thread::Threads;

const ORDERS: u64 = 10_000;

// Puts a burst of orders, whose uniques go on from this one.
fn burst<R: Wait + Abort>(rt: &R, pool: &WorkerPool, put: &mut PutEnd, from: u64, size: u64)
    requires { put.old.of ≡ pool.now.intake }
    ensures { put.new.of ≡ pool.now.intake }
{
    for at in 0..size {
        let job = order(rt, from.saturating_add(at));
        assert!(rt; pool.intake.put(rt, put, &job).is_ok());
    }
    pool.intake.call_one_more();
}

// Puts so many orders in bursts. If orders are held, each burst is of as many and is awaited. Otherwise bursts are of 1
// to 64, of which each other one is awaited, so that workers sleep.
pub(super) fn put_all<R: Wait + Abort>(rt: &R, pool: &WorkerPool, put: &mut PutEnd, many: u64)
    requires { put.old.of ≡ pool.now.intake }
    ensures { put.new.of ≡ pool.now.intake }
{
    let mut from = 0u64;
    let mut size = 1u64;
    for _ in rt.forever() {
        let most = if pool.held > 0 { pool.held } else { size };
        let size_now = most.min(many.saturating_sub(from));
        if size_now == 0 {
            break;
        }
        burst(rt, pool, put, from, size_now);
        from = from.saturating_add(size_now);
        if pool.held > 0 || size % 2 == 0 {
            assert!(rt; pool.await_come(from));
        }
        size = size % 64 + 1;
    }
}

// These are the uniques from 0 on, in some order.
fn are_first(rt: &impl Abort, uniques: Vec<u64>, many: u64) {
    let mut uniques = uniques;
    uniques.sort_unstable();
    assert_eq!(rt; uniques.len() as u64, many);
    let mut wanted = 0u64;
    for unique in uniques {
        assert_eq!(rt; unique, wanted);
        wanted = wanted.saturating_add(1);
    }
}

// All that is put is taken by so many workers, each order once, and none is left.
fn goes_through<R: Threads + Wait + Sync + Abort>(
    rt: &R,
    alloc: Global,
    workers: u32,
    held: u64,
    many: u64,
)
    requires { (0 < workers) × (workers ≤ 16) }
{
    let (intake, put, ends) = Intake::new(alloc, workers).expect(rt, "memory");
    let pool = WorkerPool {
        alloc,
        intake,
        come: AtomicU64::new(0),
        held,
    };
    let (put, ends, uniques) = run(rt, &pool, put, ends, many);
    are_first(rt, uniques, many);
    let WorkerPool { intake, .. } = pool;
    let left = intake.finish(rt, put, ends).ok().expect(rt, "all ends");
    assert!(rt; left.is_empty());
}

#[test]
fn each_order_is_taken_once(rt: HostRuntime) {
    let alloc = rt.alloc();
    for _ in 0..25 {
        goes_through(&rt, alloc, 1, 0, ORDERS);
        goes_through(&rt, alloc, 2, 0, ORDERS);
        goes_through(&rt, alloc, 4, 0, ORDERS);
        goes_through(&rt, alloc, 16, 0, ORDERS);
    }
}

#[test]
fn held_orders_hold_up_no_other(rt: HostRuntime) {
    let alloc = rt.alloc();
    goes_through(&rt, alloc, 2, 2, 200);
    goes_through(&rt, alloc, 4, 4, 400);
    goes_through(&rt, alloc, 16, 16, 1_600);
}
