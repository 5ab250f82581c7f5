//! A board whose seats are in threads of their own, one or more in each.

ghost use Rattle.std.specs.Prelude.{◌≡◌, ◌<◌, ◌≤◌};
ghost use Rattle.fl_counter.specs.Tolds.{HasRoom};

use super::super::{create, is_judged, new_tolds, order, see, take};
use super::{rounds, watched};
use fl_book::{Ask, Board, BoardName, FreshLog, History, Rules, Seat, Verdict};
use fl_core::Tolds;
use fl_order::{Op, Order};
use std::alloc::Global;
use std::marker::Brand;
use std::process::Abort;
use std::sync::Wait;
use std::sync::atomic::{AtomicU64, Ordering};
use std::sync::ledger::Blank;
use std::thread;
use std::thread::Threads;

/// What the seats of a board do.
#[derive(Clone, Copy)]
pub(super) enum Job {
    /// They hand in, look and meet.
    Rounds,
    /// One locks more and more, and the other looks on.
    Watched,
}

/// What a seat does in a round.
#[derive(Drop)]
pub(super) enum Step {
    HandIn(Order),
    Look,
    Meet,
    Watch,
    End,
}

fn next_step(job: Job, worker: u32, round: u64) -> Step {
    match job {
        Job::Rounds => rounds::next_step(worker, round),
        Job::Watched => watched::next_step(worker, round),
    }
}

/// What threads see together.
#[derive(Drop)]
pub(super) struct Counts {
    // How many bytes the one that looks on was last shown to be locked.
    shown: AtomicU64,
}

impl Counts {
    /// Nothing is counted yet.
    pub(super) fn new() -> Counts {
        Counts {
            shown: AtomicU64::new(0),
        }
    }

    // So many bytes are shown to be locked, as many as before or more. It says whether there are more to come.
    fn show(&self, rt: &impl Abort, locked: u64) -> bool {
        assert!(rt; locked >= self.shown.load(Ordering::SeqCst));
        self.shown.store(locked, Ordering::SeqCst);
        locked < watched::LOCKS
    }
}

/// In how many threads the seats of a board work, how many in each, and what they do.
#[derive(Clone, Copy)]
pub(super) struct Plan {
    pub threads: u32,
    pub each: u32,
    pub job: Job,
}

// What the threads share.
#[derive(Drop)]
struct WorkerPool<'a, L: BoardName, R: Wait> {
    rt: &'a R,
    alloc: Global,
    board: Board<L, &'a R>,
    rules: Rules,
    counts: &'a Counts,
    plan: Plan,
    ghost its: { rules ≡ L.rules },
}

// The seat looks, and is shown something.
fn look<L: BoardName, R: Wait + Abort>(pool: &WorkerPool<'_, L, R>, seat: &mut Seat<L>) {
    let _ = see(pool.rt, &pool.board, seat, &order(1_000, 2, Op::Getattr));
}

// The first seat meets the second, if there is one.
fn meet<L: BoardName, R: Wait + Abort>(pool: &WorkerPool<'_, L, R>, seats: &mut [Seat<L>]) {
    if let [one, other, ..] = seats {
        let met = pool.board.meet(pool.rt, one, other).is_ok();
        assert!(pool.rt; met);
    }
}

// The seat is shown no fewer locks than before. It says whether there are more to come.
fn watch<L: BoardName, R: Wait + Abort>(pool: &WorkerPool<'_, L, R>, seat: &mut Seat<L>) -> bool {
    let shown = see(pool.rt, &pool.board, seat, &watched::asked());
    pool.counts.show(pool.rt, watched::locked(shown))
}

// The first of these seats does its step of a round. It says whether there are more to come.
fn go<L: BoardName, R: Wait + Abort>(
    pool: &WorkerPool<'_, L, R>,
    seats: &mut [Seat<L>],
    round: u64,
    tolds: &mut Tolds,
) -> bool
    requires { HasRoom L.rules tolds.old }
    ensures { tolds.new.room ≡ tolds.old.room }
{
    let Some(seat) = seats.first_mut() else {
        return false;
    };
    match next_step(pool.plan.job, seat.worker(), round) {
        Step::HandIn(order) => take(pool.rt, &pool.board, seat, &order, tolds),
        Step::Look => look(pool, seat),
        Step::Meet => meet(pool, seats),
        Step::Watch => return watch(pool, seat),
        Step::End => return false,
    }
    true
}

// The seats go their rounds, one after another.
fn work<L: BoardName, R: Wait + Abort>(
    pool: &WorkerPool<'_, L, R>,
    seats: Vec<Seat<L>>,
) -> Vec<Seat<L>> {
    let mut seats = seats;
    let mut tolds = new_tolds(pool.rt, pool.alloc, pool.rules);
    for round in 0..100_000_000 {
        if !go(pool, &mut seats, round, &mut tolds) {
            return seats;
        }
        seats.rotate_left(seats.len().min(1));
    }
    panic!(pool.rt; "too many rounds")
}

// The seats of each thread.
fn in_batches<L: BoardName>(
    rt: &impl Abort,
    alloc: Global,
    seats: Vec<Seat<L>>,
    plan: Plan,
) -> Vec<Vec<Seat<L>>> {
    let mut seats = seats;
    let mut batches = Vec::new(alloc);
    for _ in 0..plan.threads {
        let at = seats.len().saturating_sub(plan.each as usize);
        let batch = seats.split_off(at).expect(rt, "memory");
        batches.push(batch).expect(rt, "memory");
    }
    batches
}

// Each batch works in a thread of its own, and the seats come back.
fn run<L: BoardName + Send + Sync, R: Threads + Wait + Sync + Abort>(
    pool: &WorkerPool<'_, L, R>,
    batches: Vec<Vec<Seat<L>>>,
) -> Vec<Seat<L>> {
    let work = |batch: Vec<Seat<L>>| work(pool, batch);
    let batches = thread::map_vec(pool.rt, batches, &work).expect(pool.rt, "memory");
    let mut back = Vec::new(pool.alloc);
    for batch in batches {
        let mut batch = batch;
        back.append(&mut batch).expect(pool.rt, "memory");
    }
    back
}

// The first seat makes a file, and then meets the second.
fn begin<L: BoardName, R: Wait + Abort>(pool: &WorkerPool<'_, L, R>, seats: &mut [Seat<L>]) {
    let mut tolds = new_tolds(pool.rt, pool.alloc, pool.rules);
    if let Some(first) = seats.first_mut() {
        take(pool.rt, &pool.board, first, &create(pool.rt), &mut tolds);
    }
    meet(pool, seats);
}

// They begin, and then all seats work, and come back.
fn done<L: BoardName + Send + Sync, R: Threads + Wait + Sync + Abort>(
    pool: &WorkerPool<'_, L, R>,
    seats: Vec<Seat<L>>,
) -> Vec<Seat<L>> {
    let mut seats = seats;
    begin(pool, &mut seats);
    run(pool, in_batches(pool.rt, pool.alloc, seats, pool.plan))
}

fn closed<L: BoardName + Send + Sync, R: Threads + Wait + Sync + Abort>(
    rt: &R,
    alloc: Global,
    blank: Blank,
    log: FreshLog<Ask>,
    workers: u32,
    rules: Rules,
    counts: &Counts,
    plan: Plan,
) -> History
    requires named { (blank.name ≡ L.name) × (blank.parts ≡ L.parts) }
    requires log { log ≡ L.log }
    requires parts { (workers ≡ L.parts) × (L.workers ≡ L.parts) }
    requires workers { (0 < workers) × (workers ≤ 16) }
    requires rules { rules ≡ L.rules }
{
    let (board, seats) = Board::<L, &R>::new(alloc, rt, blank, log, workers, rules)
        .ok()
        .expect(rt, "a board");
    let pool = WorkerPool {
        rt,
        alloc,
        board,
        rules,
        counts,
        plan,
    };
    let back = done(&pool, seats);
    let WorkerPool { board, .. } = pool;
    match board.close(back) {
        Ok(history) => history,
        Err(_) => panic!(rt; "a seat is missing"),
    }
}

/// The history of a board of so many workers, at which a file is made, and then all seats work. It is legal.
pub(super) fn history_of<R: Threads + Wait + Sync + Abort>(
    rt: &R,
    alloc: Global,
    workers: u32,
    counts: &Counts,
    plan: Plan,
) -> History
    requires workers { (0 < workers) × (workers ≤ 16) }
{
    let blank = Blank::new(u64::from(workers));
    let log = FreshLog::new();
    let rules = Rules::standard();
    let history = closed::<Brand, _>(rt, alloc, blank, log, workers, rules, counts, plan);
    is_judged(rt, alloc, &history, rules, Verdict::Legal);
    history
}
