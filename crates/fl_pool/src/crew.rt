//! What the workers of a session get, and what they give back.

ghost use Rattle.std.specs.Prelude.{◌≡◌, ◌≤◌, ◌<◌, [], IfOk, false, length, vec_capacity};

use crate::pool::{Thread, Worked};
use fl_intake::TakeEnd;
use fl_log::Appender;
use fl_order::NoMemory;
use fl_workers::{BatchRoom, Counter, Failures, InlineWorker, Post, ReplyEntry, WriterName};
use std::alloc::Global;

/// What the workers gave back.
#[derive(Drop)]
pub struct Back<C: Counter, N: WriterName> {
    /// Their seats, in the order of workers.
    pub seats: Vec<C::Seat>,
    /// What they gave replies to be sent through, in the same order.
    pub appenders: Vec<Appender<N, ReplyEntry>>,
    /// Their ends of the intake, in the same order.
    pub ends: Vec<TakeEnd>,
    /// What went wrong with their orders.
    pub failures: Failures,
}

impl<C: Counter, N: WriterName> Back<C, N>
where
    C::Seat: Drop,
{
    ghost use Rattle.fl_pool.specs.Running.{HasAdded, HasAddedIf};
    ghost use Rattle.fl_pool.specs.Working.{reading};

    /// Nothing came back yet, and there is room for all that these workers give back, and for one appender more.
    fn with_room(alloc: Global, workers: u32) -> Result<Back<C, N>, NoMemory>
        ensures none { IfOk result (λ back. (back.seats.items ≡ []) × (back.appenders.items ≡ [])
            × (back.ends.items ≡ []) × (back.failures.refused ≡ false) × (back.failures.lost ≡ false)) }
        ensures room { IfOk result (λ back. (workers ≤ vec_capacity back.seats)
            × (workers < vec_capacity back.appenders) × (workers ≤ vec_capacity back.ends)) }
    {
        let count = workers as usize;
        Ok(Back {
            seats: Vec::with_capacity(alloc, count)?,
            appenders: Vec::with_capacity(alloc, count + 1)?,
            ends: Vec::with_capacity(alloc, count)?,
            failures: Failures::none(),
        })
    }

    /// One worker more came back.
    pub(crate) fn add(&mut self, worked: Worked<C, N>)
        requires room { (length self.old.seats.items < vec_capacity self.old.seats)
            × (length self.old.appenders.items < vec_capacity self.old.appenders)
            × (length self.old.ends.items < vec_capacity self.old.ends) }
        ensures { HasAdded self.old self.new worked.0.seat worked.0.own worked.1 worked.2.refused worked.2.lost }
    {
        let (post, end, failures) = worked;
        let Post { seat, own } = post;
        self.seats.push_reserved(seat);
        self.appenders.push_reserved(own);
        self.ends.push_reserved(end);
        self.failures = self.failures.or(failures);
    }

    /// The worker in the reader's thread came back, if there is one.
    pub(crate) fn add_inline(&mut self, worker: Option<InlineWorker<C, N>>)
        requires room { (length self.old.seats.items < vec_capacity self.old.seats)
            × (length self.old.appenders.items < vec_capacity self.old.appenders)
            × (length self.old.ends.items < vec_capacity self.old.ends) }
        ensures { HasAddedIf (reading C.worker C.count C.answered C.front C.stored) self.old worker self.new }
    {
        if let Some(worker) = worker {
            self.add(worker.into_parts());
        }
    }
}

/// What a worker starts with.
#[derive(Drop)]
pub struct Worker<C: Counter, N: WriterName> {
    /// Where it works.
    pub post: Post<C::Seat, N>,
    /// Its end of the intake.
    pub end: TakeEnd,
    /// Room for the orders that it takes at once, and for the replies to them.
    pub room: BatchRoom,
}

/// The workers of a session, and room for their threads and for what they give back.
#[derive(Drop)]
pub struct Crew<C: Counter, N: WriterName> {
    /// Those that haven't started, in their order.
    pub workers: Vec<Worker<C, N>>,
    /// Room for the threads of those that are started.
    pub threads: Vec<Thread<C, N>>,
    /// Room for what comes back.
    pub back: Back<C, N>,
    ghost none: { (threads.items ≡ []) × (back.seats.items ≡ []) × (back.appenders.items ≡ [])
        × (back.ends.items ≡ []) × (back.failures.refused ≡ false) × (back.failures.lost ≡ false) },
    ghost room: { (length workers.items ≤ vec_capacity threads) × (length workers.items ≤ vec_capacity back.seats)
        × (length workers.items < vec_capacity back.appenders) × (length workers.items ≤ vec_capacity back.ends) },
}

impl<C: Counter, N: WriterName> Crew<C, N>
where
    C::Seat: Drop,
{
    /// Room for so many workers, of which there is none yet.
    pub fn with_room(alloc: Global, workers: u32) -> Result<Crew<C, N>, NoMemory>
        ensures none { IfOk result (λ made. made.workers.items ≡ []) }
        ensures room { IfOk result (λ made. (workers ≤ vec_capacity made.workers)
            × (workers ≤ vec_capacity made.threads) × (workers ≤ vec_capacity made.back.seats)
            × (workers < vec_capacity made.back.appenders) × (workers ≤ vec_capacity made.back.ends)) }
    {
        let count = workers as usize;
        let workers_room = Vec::with_capacity(alloc, count)?;
        let threads = Vec::with_capacity(alloc, count)?;
        let back = Back::with_room(alloc, workers)?;
        Ok(Crew {
            workers: workers_room,
            threads,
            back,
        })
    }
}
