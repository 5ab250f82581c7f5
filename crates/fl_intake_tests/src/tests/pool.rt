//! Workers in threads of their own, who take what one thread puts.

ghost use Rattle.std.specs.Prelude.{◌≡◌, ◌<◌, [], All, vec_capacity};

use super::are_whole;
use super::bursts::put_all;
use fl_intake::{Intake, MOST_JOBS, PutEnd, TakeEnd};
use fl_order::Order;
use std::alloc::Global;
use std::process::Abort;
use std::snapshot::Snapshot;
use std::sync::Wait;
use std::sync::atomic::{AtomicU64, Ordering};
use std::thread;
use std::thread::{Promise, PromisedHandle, Scope, Threads, yield_now};

// What workers share: the intake, and how many orders came to them. An order is held until so many have come, each
// burst of this size; a size of 0 holds none.
#[derive(Drop)]
pub(super) struct WorkerPool {
    pub alloc: Global,
    pub intake: Intake,
    pub come: AtomicU64,
    pub held: u64,
}

// What a worker gives back: its end, and the uniques of the orders that it took.
#[derive(Drop)]
pub(super) struct Took {
    pub end: TakeEnd,
    pub uniques: Vec<u64>,
}

// The end that comes back is of the intake that it was of.
#[derive(Drop)]
struct SameIntake {
    was: Snapshot<TakeEnd>,
}

impl Promise<Took> for SameIntake {
    ghost use Rattle.std.specs.Prelude.{◌≡◌};

    ghost kept_by = { λ p r. r.end.of ≡ p.was.value.of };
}

type Thread = PromisedHandle<Took, SameIntake>;

impl WorkerPool {
    // Holds an order until all of its burst have come, or for so long that one must have been lost.
    fn hold(&self, unique: u64) {
        self.come.fetch_add(1, Ordering::SeqCst);
        if self.held == 0 {
            return;
        }
        let burst = unique.checked_div(self.held).unwrap_or(0);
        let wanted = burst.saturating_add(1).saturating_mul(self.held);
        let _ = self.await_come(wanted);
    }

    // Waits until so many orders have come, or for so long that one must have been lost.
    pub(super) fn await_come(&self, wanted: u64) -> bool {
        for _ in 0..10_000_000 {
            if self.come.load(Ordering::SeqCst) >= wanted {
                return true;
            }
            yield_now();
        }
        false
    }
}

// Takes its share of the orders inside, or waits for one. None comes once the intake is closed and empty.
fn next<R: Wait + Abort>(rt: &R, pool: &WorkerPool, end: &mut TakeEnd, batch: &mut Vec<Order>)
    requires { (end.old.of ≡ pool.now.intake) × (batch.old.items ≡ []) × (0 < vec_capacity batch.old) }
    ensures { (end.new.of ≡ end.old.of) × (vec_capacity batch.new ≡ vec_capacity batch.old) }
{
    pool.intake.take_many(rt, end, batch);
    if batch.is_empty() {
        pool.intake.take(rt, end, batch);
    }
}

// Holds each order of a batch, which is whole, and notes its unique.
fn hold_all(rt: &impl Abort, pool: &WorkerPool, batch: &[Order], uniques: &mut Vec<u64>) {
    are_whole(rt, batch);
    for order in batch {
        pool.hold(order.unique);
        uniques.push(order.unique).expect(rt, "memory");
    }
}

// Takes orders until the intake is closed and empty.
fn work<R: Wait + Abort>(rt: &R, pool: &WorkerPool, end: TakeEnd) -> Took
    requires { end.of ≡ pool.now.intake }
    ensures { result.end.of ≡ end.of }
{
    let mut end = end;
    let mut uniques = Vec::new(pool.alloc);
    let mut batch = Vec::with_capacity(pool.alloc, MOST_JOBS).expect(rt, "memory");
    for _ in rt.forever() {
        next(rt, pool, &mut end, &mut batch);
        if batch.is_empty() {
            break;
        }
        hold_all(rt, pool, batch.as_slice(), &mut uniques);
        batch.clear();
    }
    Took { end, uniques }
}

fn start<'s, E, R: Threads + Wait + Sync + Abort>(
    scope: &Scope<'s, E>,
    rt: &'s R,
    pool: &'s WorkerPool,
    end: TakeEnd,
) -> Thread
    requires { end.of ≡ pool.now.intake }
    ensures { result.promise.was.value.of ≡ pool.now.intake }
{
    let same = SameIntake {
        was: Snapshot::of(&end),
    };
    scope
        .spawn_with(
            same,
            move || -> Took
                requires { end.of ≡ pool.now.intake }
                ensures { result.end.of ≡ end.of }
            { work(rt, pool, end) },
        )
        .expect(rt, "a thread")
}

// Starts a worker at each end.
fn start_all<'s, E, R: Threads + Wait + Sync + Abort>(
    scope: &Scope<'s, E>,
    rt: &'s R,
    pool: &'s WorkerPool,
    ends: Vec<TakeEnd>,
) -> Vec<Thread>
    requires { All (λ end. end.of ≡ pool.now.intake) ends.items }
    ensures { All (λ thread. thread.promise.was.value.of ≡ pool.now.intake) result.items }
{
    let mut threads = Vec::new(pool.alloc);
    for end in ends {
        threads
            .push(start(scope, rt, pool, end))
            .expect(rt, "memory");
    }
    threads
}

// Joins all workers: their ends, and the uniques of all orders that they took.
fn join_all<R: Threads + Abort>(
    rt: &R,
    pool: &WorkerPool,
    threads: Vec<Thread>,
) -> (Vec<TakeEnd>, Vec<u64>)
    requires { All (λ thread. thread.promise.was.value.of ≡ pool.now.intake) threads.items }
    ensures { All (λ end. end.of ≡ pool.now.intake) result.0.items }
{
    let mut ends = Vec::new(pool.alloc);
    let mut uniques = Vec::new(pool.alloc);
    for thread in threads {
        let Took { end, uniques: more } = thread.join(rt);
        ends.push(end).expect(rt, "memory");
        uniques
            .extend_from_slice(more.as_slice())
            .expect(rt, "memory");
    }
    (ends, uniques)
}

// Lets workers take so many orders, which this thread puts: the ends, and the uniques of all orders that were taken.
pub(super) fn run<R: Threads + Wait + Sync + Abort>(
    rt: &R,
    pool: &WorkerPool,
    put: PutEnd,
    ends: Vec<TakeEnd>,
    many: u64,
) -> (PutEnd, Vec<TakeEnd>, Vec<u64>)
    requires put { put.of ≡ pool.now.intake }
    requires ends { All (λ end. end.of ≡ pool.now.intake) ends.items }
    ensures put { result.0.of ≡ pool.now.intake }
    ensures ends { All (λ end. end.of ≡ pool.now.intake) result.1.items }
{
    thread::scope(
        thread::scope_env(),
        rt,
        move |scope| -> (PutEnd, Vec<TakeEnd>, Vec<u64>)
            requires put { put.of ≡ pool.now.intake }
            requires ends { All (λ end. end.of ≡ pool.now.intake) ends.items }
            ensures put { result.0.of ≡ pool.entry.now.intake }
            ensures ends { All (λ end. end.of ≡ pool.entry.now.intake) result.1.items }
        {
            let mut put = put;
            let threads = start_all(scope, rt, pool, ends);
            put_all(rt, pool, &mut put, many);
            pool.intake.close(&mut put);
            let (ends, uniques) = join_all(rt, pool, threads);
            (put, ends, uniques)
        },
    )
}
