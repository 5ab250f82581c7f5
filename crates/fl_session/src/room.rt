//! The memory of a session.

ghost use Rattle.std.specs.Prelude.{◌≡◌, [], IfOk};
ghost use Rattle.fl_counter.specs.Tolds.{HasRoom};

use fl_core::{Rules, Tolds};
use fl_order::NoMemory;
use fl_transport::{Inbox, ReplyBuffer};
use std::alloc::Global;

/// All memory of a session but that of its desk.
#[derive(Drop)]
pub struct SessionRoom {
    /// By which rules the session's requests wait.
    pub rules: Rules,
    pub(crate) inbox: Inbox,
    pub(crate) tolds: Tolds,
    pub(crate) replies: ReplyBuffer,
    ghost unread: { inbox.rest ≡ [] },
    ghost enough: { HasRoom rules tolds },
    ghost empty: { replies ≡ [] },
}

impl SessionRoom {
    /// The memory of a session under these rules.
    pub fn new(alloc: Global, rules: Rules) -> Result<SessionRoom, NoMemory>
        ensures rules { IfOk result (λ room. room.rules ≡ rules) }
    {
        Ok(SessionRoom {
            rules,
            inbox: Inbox::new(alloc)?,
            tolds: Tolds::new(alloc, rules)?,
            replies: ReplyBuffer::new(alloc)?,
        })
    }
}
