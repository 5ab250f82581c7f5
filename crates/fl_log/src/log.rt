//! A log, under a name that its beginnings share.

ghost use Rattle.std.specs.Prelude.{◌≡◌, []};
ghost use Rattle.fl_log.specs.Inside.Counting.{counter_of};

use crate::beginning::Beginning;
use logbook::{Gain, Play, Rule, Seen, Start, Word};
use std::marker::{Brand, Model, PhantomData};
use std::sync::ledger::Ledger;

/// Which log it is, for contracts, and which ledger counts its entries. A call picks them when it names a log that was
/// made.
pub trait LogName: Ledger {
    ghost use Rattle.logbook.specs.Pages.{Book};

    ghost log: { Book };
}

impl LogName for Brand {
    ghost log = { record { number = 0; log_name = 0; cells_name = 0 } };
}

/// What stands in a log that several authors append to.
pub trait Entry {
    ghost use Rattle.std.specs.Prelude.{ℕ};

    /// Who appended it.
    ghost author: { Self → ℕ };
}

// The rule of the log's word: it holds how many entries the log has.
pub(crate) struct Counting;

impl<E> Rule<E, u64> for Counting {
    ghost use Rattle.std.specs.Prelude.{[]};
    ghost use base.Fml.{ftrue};
    ghost use Rattle.fl_log.specs.Inside.Counting.{IsCounted};

    ghost holds = { λ cells log. IsCounted cells log };

    ghost first = { [] };

    ghost hinted = { λ n log. Unit {0} };

    ghost shows = { λ log. [] };

    ghost keeps = { λ names log. ftrue };

    ghost moves = { λ ask before after answer. Unit {0} };
}

// A step that trades nothing.
pub(crate) struct NoTrade;

impl<E> Gain<E, u64> for NoTrade {
    ghost use base.Fml.{ftrue};

    ghost after = { λ names about answer. ftrue };
}

// The step that adds an entry.
pub(crate) struct Adding;

impl<E> Play<E, u64> for Adding {
    ghost use Rattle.fl_log.specs.Inside.Counting.{IsAdded};

    ghost then = { IsAdded };
}

/// A log with no entries, which has no name yet. Contracts see which log it is.
#[derive(Drop)]
pub struct FreshLog<E> {
    length: Word<E, u64, Counting>,
    seen: Seen<E, u64, Counting>,
}

impl<E> Model for FreshLog<E> {
    ghost use Rattle.std.specs.Prelude.{◌≡◌, []};
    ghost use Rattle.logbook.specs.Pages.{Book};
    ghost use Rattle.fl_log.specs.Inside.Counting.{counter_of};

    ghost Value = { Book };

    ghost view = { λ f. f.seen.book };

    ghost invariant = { λ f. (f.seen.log ≡ []) × (f.length ≡ counter_of f.seen.book) };
}

impl<E> FreshLog<E> {
    /// A log that no other thread knows.
    pub fn new() -> FreshLog<E> {
        let (seen, mut pen, _other) = Seen::open(Start::alone(), 0, 0);
        FreshLog {
            length: Word::tracked(0, &mut pen),
            seen,
        }
    }

    /// The log under a name, and its beginning that has no entries.
    pub fn named<L: LogName>(self) -> (Log<L, E>, Beginning<L, E>)
        requires { self ≡ L.log }
        ensures { result.1 ≡ [] }
    {
        let FreshLog { length, seen } = self;
        let log = Log {
            length,
            name: PhantomData,
        };
        (log, Beginning::empty(seen))
    }
}

/// The word that has a log's length.
#[derive(Drop)]
pub struct Log<L: LogName, E> {
    pub(crate) length: Word<E, u64, Counting>,
    name: PhantomData<L>,
    pub ghost counted: { length ≡ counter_of L.log },
}
