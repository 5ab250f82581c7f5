//! What a session with workers has before its first read.

ghost use Rattle.std.specs.Prelude.{◌≡◌, ◌≤◌, ◌<◌, ◌+◌, All, length, IfOk};
ghost use Rattle.fl_staff.specs.Inside.Stocked.{IsStocked};
ghost use Rattle.fl_workers.specs.Room.{HasBatchFor};

use fl_intake::{Intake, PutEnd, TakeEnd};
use fl_order::NoMemory;
use fl_pool::Crew;
use fl_transport::{Inbox, ReplyBuffer};
use fl_waiting::Rules;
use fl_workers::{BatchRoom, Counter, ReplyRoom, WriterName};
use std::alloc::Global;

/// What a session has before its first read beside its counter: its intake with all ends, and memory for what is to
/// come.
#[derive(Drop)]
pub(crate) struct Stock<C: Counter, N: WriterName> {
    /// For the replies to the orders that no worker takes.
    pub left: ReplyRoom,
    pub inbox: Inbox,
    pub replies: ReplyBuffer,
    pub intake: Intake,
    pub put: PutEnd,
    /// An end for each worker.
    pub ends: Vec<TakeEnd>,
    /// Room for the orders that each takes at once, and for the replies to them.
    pub rooms: Vec<BatchRoom>,
    pub crew: Crew<C, N>,
}

impl<C: Counter, N: WriterName> Stock<C, N>
where
    C::Seat: Drop,
{
    pub fn new(alloc: Global, workers: u32, rules: Rules) -> Result<Stock<C, N>, NoMemory>
        requires workers { (0 < workers) × (workers ≤ 16) }
        ensures { IfOk result (IsStocked (rules.parked + 1) workers) }
    {
        let inbox = Inbox::new(alloc)?;
        let replies = ReplyBuffer::new(alloc)?;
        let left = ReplyRoom::new(alloc, rules)?;
        let (intake, put, ends) = Intake::new(alloc, workers)?;
        let rooms = rooms_for_batches(alloc, workers, rules)?;
        let crew = Crew::with_room(alloc, workers)?;
        Ok(Stock {
            left,
            inbox,
            replies,
            intake,
            put,
            ends,
            rooms,
            crew,
        })
    }
}

// Room for a batch of orders and the replies to it under these rules, for each worker.
fn rooms_for_batches(alloc: Global, workers: u32, rules: Rules) -> Result<Vec<BatchRoom>, NoMemory>
    ensures batches { IfOk result (λ batches. All (HasBatchFor (rules.parked + 1)) batches.items) }
    ensures enough { IfOk result (λ batches. length batches.items ≡ workers) }
{
    let mut batches = Vec::with_capacity(alloc, workers as usize)?;
    for _ in 0..workers {
        batches.push(BatchRoom::new(alloc, rules)?)?;
    }
    Ok(batches)
}
