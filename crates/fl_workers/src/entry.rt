//! What a worker or the receiver gives to be sent, as it stands in the writer's log.

use fl_log::Entry;
use fl_order::Told;
use fl_transport::Response;
use fl_wire::InitStep;
use logbook::Plain;
use std::collections::LinkedList;

/// A reply.
#[derive(Clone, Copy, Debug, PartialEq, Eq)]
pub enum Reply {
    /// The reply to the INIT with this unique.
    Init(u64, InitStep),
    /// The reply to an order, or another that the session itself gives.
    Told(Told),
}

/// What was given to be sent at once: all replies to one message or order. No value of it is made, since the log is
/// there for proofs alone.
pub struct ReplyEntry {
    /// Who gave it: a worker by its number, or the receiver by the number of workers.
    pub author: u32,
    /// All replies, in their order.
    pub replies: LinkedList<Reply>,
}

impl Entry for ReplyEntry {
    ghost author = { λ e. e.author };
}

// What somebody is about to give.
#[derive(Drop)]
pub(crate) struct Given<'a, 'b> {
    pub author: u32,
    pub response: &'a Response<'b>,
}

// How it stands in the log.
pub(crate) struct AsEntry;

impl<'a, 'b> Plain<Given<'a, 'b>, ReplyEntry, u64> for AsEntry {
    ghost use Rattle.std.specs.Prelude.{None};
    ghost use Rattle.fl_workers.specs.Sent.{entry, replies_of};

    ghost ask = { λ g. entry g.author (replies_of g.response.now) };

    ghost state = { λ g. None };
}
