//! Who sleeps and who is woken. No contract speaks of it. A wrong rule here loses no job, but one could lie inside
//! while all workers sleep. These are the reasons why none does. To *check* is to compare how many jobs were put and
//! taken. A worker is *announced* from before it sleeps until after it has left its sleep.
//!
//! - Whoever puts counts the job, then sees whether all workers are announced, and calls one if they are. So while
//! one is awake nobody is called. That one checks once more before it sleeps, and announces itself before it does. If
//! it sees no job, the job was counted after the check, so whoever put it sees the announcement.
//! - To call is to raise the number `came`, and then to wake one. A worker reads that number before it announces
//! itself, and sleeps only while it is still the same. So of those that were announced at a call one leaves its
//! sleep, or doesn't fall asleep.
//! - `called` keeps another call from being made before one was heard. A worker clears it after it has announced
//! itself, and again when it leaves its sleep. A call sets it before it raises `came`. So whoever cleared it before
//! that has the old number, and one of these leaves its sleep and clears it again; whoever clears it later only makes
//! a call more.
//! - One that is awake may be held up by an order, by a lock or by the machine. So whoever puts calls one more before
//! it reads or waits for room, if jobs are inside and one sleeps. One that is called while another is awake only
//! *watches*: it stays announced, sleeps for a millisecond at a time, and takes a job once none was taken for so
//! long. With the first job that it takes it calls one more, since others may be left. So workers that are held up,
//! however many, hold up no job inside, and those that aren't have the board for themselves. What a worker took at
//! once waits for it: that is its share of what was inside, and the others find theirs.
//! - A call by a `put` finds all announced. Whoever hears it clears `called` first and then sees whether all are
//! announced. If they are, it takes a job at once. If they aren't, one was awake after that `put`, and checks again.
//! - Whoever watches goes back to sleep when nothing is inside and nothing comes. It tells first that it doesn't
//! watch any more, and then checks once more. So no job is left to one that watches no longer.
//!
//! One worker spins for a while before it sleeps, since to be woken takes longer than an order. It counts as awake.
//!
//! An end may rest: it takes no job, also if all others are held up, and counts as announced for good. So a call may be
//! in vain.

use crate::intake::MOST_JOBS;
use crossbeam_utils::CachePadded;
use std::hint::spin_loop;
use std::sync::Wait;
use std::sync::atomic::{AtomicBool, AtomicU64, Ordering};
use std::time::Duration;

// How often `spin` checks: some 70 microseconds. It lets no other thread run meanwhile, since if processors are
// short it would get its own back only after milliseconds.
const SPINS: u32 = 10_000;

// How often the putting end checks for room before it sleeps: some 10 microseconds, in which several jobs are taken.
const CHECKS_FOR_ROOM: u32 = 1_500;

// How many milliseconds one that watches sleeps at a time.
const TURN: u64 = 1;

/// How many jobs were put and taken, and who sleeps.
#[derive(Drop)]
pub(crate) struct Waking {
    // How many ends take.
    takers: u64,
    // How many jobs were put and taken, each counted by the end that did it, right after.
    put: CachePadded<AtomicU64>,
    taken: CachePadded<AtomicU64>,
    closed: AtomicBool,
    // One worker spins.
    spinning: AtomicBool,
    // How many workers are announced.
    asleep: AtomicU64,
    // They sleep on this number. It is raised by each call.
    came: AtomicU64,
    // One was called, and nobody has heard it yet.
    called: AtomicBool,
    // One worker watches.
    watched: AtomicBool,
    // Whoever puts waits for room, or is about to, and sleeps on the number `left`.
    wants_room: AtomicBool,
    left: AtomicU64,
}

impl Waking {
    pub(crate) fn new(takers: u32) -> Waking {
        Waking {
            takers: u64::from(takers),
            put: CachePadded::new(AtomicU64::new(0)),
            taken: CachePadded::new(AtomicU64::new(0)),
            closed: AtomicBool::new(false),
            spinning: AtomicBool::new(false),
            asleep: AtomicU64::new(0),
            came: AtomicU64::new(0),
            called: AtomicBool::new(false),
            watched: AtomicBool::new(false),
            wants_room: AtomicBool::new(false),
            left: AtomicU64::new(0),
        }
    }

    /// Counts a job that was put, and calls a worker if all are announced.
    pub(crate) fn count_put(&self) {
        self.put.fetch_add(1, Ordering::SeqCst);
        if self.are_all_announced() {
            self.call();
        }
    }

    /// Counts jobs that were taken, and wakes whoever waits for room.
    pub(crate) fn count_taken(&self, jobs: u64) {
        self.taken.fetch_add(jobs, Ordering::SeqCst);
        if self.wants_room.load(Ordering::SeqCst) && self.wants_room.swap(false, Ordering::SeqCst) {
            self.left.fetch_add(1, Ordering::SeqCst);
            self.left.wake_one();
        }
    }

    /// How many of the jobs inside one end may take at once, one at least. What it takes waits in its batch, however
    /// many others are free, so each end leaves as much to each other one.
    pub(crate) fn share(&self) -> u64 {
        // A job can be counted as taken before it is counted as put.
        let put = self.put.load(Ordering::SeqCst);
        let inside = put.saturating_sub(self.taken.load(Ordering::SeqCst));
        inside.checked_div(self.takers).unwrap_or(0).max(1)
    }

    /// Calls one to watch, if jobs are inside, one sleeps and none watches.
    pub(crate) fn call_one_more(&self) {
        if self.has_jobs()
            && self.asleep.load(Ordering::SeqCst) > 0
            && !self.watched.load(Ordering::SeqCst)
        {
            self.call();
        }
    }

    /// An end takes no jobs from here on.
    pub(crate) fn rest(&self) {
        self.asleep.fetch_add(1, Ordering::SeqCst);
    }

    /// Nobody has a job, and none is inside: all are announced, but perhaps for one that spins. It is so if whoever puts
    /// asks: it checks for jobs first, since nobody gets one later, and for who spins last, since that one announces itself
    /// afterwards.
    pub(crate) fn is_at_rest(&self) -> bool {
        if self.has_jobs() {
            return false;
        }
        let announced = self.asleep.load(Ordering::SeqCst);
        let spinning = u64::from(self.spinning.load(Ordering::SeqCst));
        announced.saturating_add(spinning) >= self.takers
    }

    // Calls one that is announced, if no other call is under way.
    fn call(&self) {
        if !self.called.swap(true, Ordering::SeqCst) {
            self.came.fetch_add(1, Ordering::SeqCst);
            self.came.wake_one();
        }
    }

    // Jobs are inside. One that is put or taken right now may be counted or not.
    fn has_jobs(&self) -> bool {
        self.put.load(Ordering::SeqCst) != self.taken.load(Ordering::SeqCst)
    }

    // There is nothing to do: no job, and one may still come.
    fn is_idle(&self) -> bool {
        !self.has_jobs() && !self.is_closed()
    }

    fn are_all_announced(&self) -> bool {
        self.asleep.load(Ordering::SeqCst) >= self.takers
    }

    /// No more jobs come.
    pub(crate) fn is_closed(&self) -> bool {
        self.closed.load(Ordering::SeqCst)
    }

    /// Tells all that no more jobs come.
    pub(crate) fn close(&self) {
        self.closed.store(true, Ordering::SeqCst);
        self.came.fetch_add(1, Ordering::SeqCst);
        self.came.wake_all();
    }

    /// Spins for a while, until a job is inside, if no other worker does.
    pub(crate) fn spin(&self) {
        if self.spinning.swap(true, Ordering::SeqCst) {
            return;
        }
        for _ in 0..SPINS {
            if !self.is_idle() {
                break;
            }
            spin_loop();
        }
        self.spinning.store(false, Ordering::SeqCst);
    }

    /// Sleeps until it is called, and watches if another worker is awake then. It may end for no reason.
    pub(crate) fn sleep<R: Wait>(&self, rt: &R) {
        let mark = self.came.load(Ordering::SeqCst);
        self.asleep.fetch_add(1, Ordering::SeqCst);
        self.called.store(false, Ordering::SeqCst);
        if self.is_idle() {
            self.came.park(rt, low_half(mark));
            self.watch(rt);
        }
        self.asleep.fetch_sub(1, Ordering::SeqCst);
        self.called.store(false, Ordering::SeqCst);
    }

    // Watches until all are announced, or nothing was taken for a turn. It is announced itself meanwhile.
    fn watch<R: Wait>(&self, rt: &R) {
        self.watched.store(true, Ordering::SeqCst);
        // It is cleared before it sees who is awake.
        self.called.store(false, Ordering::SeqCst);
        for _ in rt.forever() {
            let mark = self.came.load(Ordering::SeqCst);
            let taken = self.taken.load(Ordering::SeqCst);
            if self.are_all_announced() || self.is_closed() {
                break;
            }
            self.came
                .park_timeout(rt, low_half(mark), Duration::from_millis(TURN));
            let unheard = self.came.load(Ordering::SeqCst) == mark;
            if unheard && self.taken.load(Ordering::SeqCst) == taken {
                break;
            }
        }
        self.watched.store(false, Ordering::SeqCst);
    }

    /// Checks for room for a while, and then sleeps until a job was taken. It may end for no reason.
    pub(crate) fn wait_for_room<R: Wait>(&self, rt: &R) {
        for _ in 0..CHECKS_FOR_ROOM {
            if !self.is_full() {
                return;
            }
            spin_loop();
        }
        self.call_one_more();
        let mark = self.left.load(Ordering::SeqCst);
        self.wants_room.store(true, Ordering::SeqCst);
        // Whoever counts a job as taken after this check sees that room is wanted, and raises `left`.
        if self.is_full() {
            self.left.park(rt, low_half(mark));
        }
        self.wants_room.store(false, Ordering::SeqCst);
    }

    // No more jobs have room, as the putting end sees it.
    fn is_full(&self) -> bool {
        let taken = self.taken.load(Ordering::SeqCst);
        self.put.load(Ordering::SeqCst).wrapping_sub(taken) >= MOST_JOBS as u64
    }
}

// The low half of a number, on which a thread can sleep.
fn low_half(number: u64) -> u32 {
    (number & 0xFFFF_FFFF) as u32
}
