//! The ends of an intake. Each is held by one thread, and knows what it put or took.

use crate::rule::EndPass;
use fl_order::Order;
use std::marker::Model;

/// What goes through an intake: an order that a worker is to answer.
pub type Job = Order;

/// The end is closed, and nothing was put.
#[derive(Clone, Copy, Debug, PartialEq, Eq)]
pub struct Closed;

/// The end that puts. An intake has one.
pub struct PutEnd {
    pub(crate) pass: EndPass,
    // How many ends take.
    pub(crate) takers: u32,
    pub(crate) closed: bool,
    // Room for the jobs that are left at last.
    pub(crate) room: Vec<Job>,
}

impl Model for PutEnd {
    ghost use Rattle.std.specs.Prelude.{◌≡◌, ◌<◌, ◌≤◌, ◌-◌, [], vec_capacity};
    ghost use Rattle.crossbeam_queue.specs.Passes.{view as known};
    ghost use Rattle.fl_intake.specs.Ends.{PutSide};
    ghost use Rattle.fl_intake.specs.Inside.Conserved.{knows};

    ghost Value = { PutSide };

    ghost view = { λ e. record {
      of = e.pass.table_id;
      takers = e.takers;
      put = (known e.pass).put;
      closed = e.closed;
    } };

    ghost invariant = { λ e. (e.pass.me.1 ≡ []) × (known e.pass ≡ knows (17 - e.takers) (known e.pass).put [])
        × (0 < e.takers) × (e.takers ≤ 16) × (e.room.items ≡ []) × (64 ≤ vec_capacity e.room) };
}

impl PutEnd {
    ghost use Rattle.std.specs.Prelude.{◌≡◌, ◌≤◌, ◌-◌, ◌<◌, [], vec_capacity};
    ghost use Rattle.crossbeam_queue.specs.Passes.{view as known};
    ghost use Rattle.fl_intake.specs.Inside.Conserved.{knows};

    // What it knows, and its room.
    pub(crate) fn into_parts(self) -> (EndPass, Vec<Job>)
        ensures of { result.0.table_id ≡ self.of }
        ensures rests { result.0.me.1 ≡ [] }
        ensures known { known result.0 ≡ knows (17 - self.takers) self.put [] }
        ensures takers { (0 < self.takers) × (self.takers ≤ 16) }
        ensures room { (result.1.items ≡ []) × (64 ≤ vec_capacity result.1) }
    {
        let PutEnd {
            pass,
            takers: _,
            closed: _,
            room,
        } = self;
        (pass, room)
    }
}

impl Drop for PutEnd {
    // One call for an owner, and not a step for each part.
    fn drop(self) {
        let PutEnd {
            pass: _pass,
            takers: _takers,
            closed: _closed,
            room: _room,
        } = self;
    }
}

/// An end that takes. An intake has 1 to 16.
pub struct TakeEnd {
    pub(crate) pass: EndPass,
}

impl Model for TakeEnd {
    ghost use Rattle.std.specs.Prelude.{◌≡◌, []};
    ghost use Rattle.crossbeam_queue.specs.Passes.{view as known};
    ghost use Rattle.fl_intake.specs.Ends.{TakeSide};
    ghost use Rattle.fl_intake.specs.Inside.Conserved.{knows};

    ghost Value = { TakeSide };

    ghost view = { λ e. record { of = e.pass.table_id; taken = (known e.pass).taken } };

    ghost invariant = { λ e. (e.pass.me.1 ≡ []) × (known e.pass ≡ knows 1 [] (known e.pass).taken) };
}

impl TakeEnd {
    ghost use Rattle.std.specs.Prelude.{◌≡◌, []};
    ghost use Rattle.crossbeam_queue.specs.Passes.{view as known};
    ghost use Rattle.fl_intake.specs.Inside.Conserved.{knows};

    // What it knows.
    pub(crate) fn into_pass(self) -> EndPass
        ensures of { result.table_id ≡ self.of }
        ensures rests { result.me.1 ≡ [] }
        ensures known { known result ≡ knows 1 [] self.taken }
    {
        let TakeEnd { pass } = self;
        pass
    }
}

impl Drop for TakeEnd {
    // One call for an owner, and not a step for each part.
    fn drop(self) {
        let TakeEnd { pass: _pass } = self;
    }
}
