//! Room for a batch of orders, and for the replies to it.

ghost use Rattle.std.specs.Prelude.{◌≡◌, ◌+◌, vec_capacity, IfOk};
ghost use Rattle.fl_workers.specs.Room.{HasRoomFor, HasBatchFor};

use fl_counter::{MOST_IN_BATCH, ToldLists, Tolds};
use fl_intake::Job;
use fl_order::NoMemory;
use fl_waiting::Rules;
use std::alloc::Global;

/// Room for the replies to a batch of orders.
pub struct ReplyRoom {
    /// For those to one order: until they are given to be sent, if it was taken alone, and otherwise while it is taken.
    pub tolds: Tolds,
    /// For those to all orders that were taken together, a list for each.
    pub lists: ToldLists,
}

impl Drop for ReplyRoom {
    // One call for an owner, and not a step for each part.
    fn drop(self) {
        let ReplyRoom {
            tolds: _tolds,
            lists: _lists,
        } = self;
    }
}

impl ReplyRoom {
    /// Room for the replies to 16 orders at most under these rules.
    pub fn new(alloc: Global, rules: Rules) -> Result<ReplyRoom, NoMemory>
        ensures { IfOk result (λ room. HasRoomFor (rules.parked + 1) room) }
    {
        Ok(ReplyRoom {
            tolds: Tolds::new(alloc, rules)?,
            lists: ToldLists::new(alloc, rules)?,
        })
    }
}

/// Room for the orders that a worker takes at once, and for the replies to them.
#[derive(Drop)]
pub struct BatchRoom {
    /// For the orders.
    pub batch: Vec<Job>,
    /// For the replies.
    pub replies: ReplyRoom,
}

impl BatchRoom {
    /// Room for 16 orders at most, and for the replies to them under these rules.
    pub fn new(alloc: Global, rules: Rules) -> Result<BatchRoom, NoMemory>
        ensures room { IfOk result (λ room. HasBatchFor (rules.parked + 1) room) }
        ensures batch { IfOk result (λ room. vec_capacity room.batch ≡ 16) }
    {
        Ok(BatchRoom {
            batch: Vec::with_capacity(alloc, MOST_IN_BATCH)?,
            replies: ReplyRoom::new(alloc, rules)?,
        })
    }
}
