//! The rule of the queue: what each end knows, and how that fits to what is inside.

use crate::entry::Entry;
use crossbeam_queue::protocol::{Join, Lesson, Outcome, Protocol, Split};
use crossbeam_queue::{Pass, RuledArrayQueue};
use fl_order::Order;
use std::collections::LinkedList;

/// What an end knows: its shares of the 17 that there are, and the orders that it put and took. It is there for
/// proofs alone.
pub struct Known {
    pub shares: u64,
    pub put: LinkedList<Order>,
    pub taken: LinkedList<Order>,
}

/// No order is lost, and none comes twice.
pub struct Conserves;

impl Protocol<Entry, Known> for Conserves {
    ghost use Rattle.std.specs.Prelude.{[]};
    ghost use Rattle.fl_intake.specs.Inside.Conserved.{IsConserved, knows};

    ghost holds = { IsConserved };

    ghost first = { knows 17 [] [] };
}

/// One share goes to a new end, and all that an end knows to another one.
pub struct Sharing;

impl Split<Known> for Sharing {
    ghost use Rattle.std.specs.Prelude.{[], ◌-◌};
    ghost use Rattle.fl_intake.specs.Inside.Conserved.{knows};

    ghost left = { λ end. knows (end.shares - 1) end.put end.taken };

    ghost right = { λ end. knows 1 [] [] };
}

impl Join<Known> for Sharing {
    ghost use Rattle.std.specs.Prelude.{[], ◌+◌, ◌++◌};
    ghost use Rattle.fl_intake.specs.Inside.Conserved.{knows};

    ghost both = { λ one other. knows (one.shares + other.shares) (one.put ++ other.put) (one.taken ++ other.taken) };

    ghost spent = { knows 0 [] [] };
}

/// An end puts an order.
pub struct Putting;

impl Outcome<Entry, Known> for Putting {
    ghost use Rattle.std.specs.Prelude.{◌≡◌, [], ◌∷◌, ◌++◌};
    ghost use Rattle.fl_intake.specs.Inside.Conserved.{knows};

    ghost then = { λ old order new. new ≡ knows old.shares (old.put ++ order ∷ []) old.taken };
}

impl Lesson<Entry, Known> for Putting {
    ghost use Rattle.std.specs.Prelude.{⊤};

    ghost fact = { λ end inside. ⊤ };
}

/// An end takes an order.
pub struct Taking;

impl Outcome<Entry, Known> for Taking {
    ghost use Rattle.fl_intake.specs.Inside.Conserved.{HasTaken};

    ghost then = { HasTaken };
}

impl Lesson<Entry, Known> for Taking {
    ghost use Rattle.fl_intake.specs.Inside.Conserved.{IsTold};

    ghost fact = { IsTold };
}

/// The queue of an intake.
pub type OrderQueue = RuledArrayQueue<Entry, Known, Conserves>;

/// What an end holds of the queue. It has no bytes.
pub type EndPass = Pass<Entry, Known>;
