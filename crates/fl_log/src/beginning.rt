//! Beginnings of a log.

ghost use Rattle.std.specs.Prelude.{◌≡◌, ◌+◌, ◌<◌, ◌≤◌, ◌↔◌, ◌++◌, ◌∷◌, [], true, length, nat_eq, MatchBool, None};
ghost use mathlib.Core.List.{IsPrefix};
ghost use Rattle.fl_log.specs.Longer.{IsLonger};

use crate::log::{Adding, Counting, Log, LogName, NoTrade};
use logbook::{Offer, Plain, Seen};
use std::marker::{Model, PhantomData};

/// The most entries of a log.
pub const MOST_ENTRIES: u64 = 1 << 62;

/// A beginning of the log, which was seen at some time. Contracts see it as its entries, the first one first. It is as
/// large as its length, a number.
pub struct Beginning<L: LogName, E> {
    entries: u64,
    seen: Seen<E, u64, Counting>,
    name: PhantomData<L>,
}

impl<L: LogName, E> Model for Beginning<L, E> {
    ghost use Rattle.std.specs.Prelude.{◌≡◌, List, length};

    ghost Value = { List E };

    ghost view = { λ b. b.seen.log };

    ghost invariant = { λ b. (b.entries ≡ length b.seen.log) × (b.seen.book ≡ L.log) };
}

impl<L: LogName, E> Drop for Beginning<L, E> {
    // One call for an owner, and not a step for each part.
    fn drop(self) {
        let Beginning {
            entries: _entries,
            seen: _seen,
            name: _,
        } = self;
    }
}

impl<L: LogName, E> Beginning<L, E> {
    // The beginning of no entries, of a log that was opened just now.
    pub(crate) fn empty(seen: Seen<E, u64, Counting>) -> Beginning<L, E>
        requires { (seen.log ≡ []) × (seen.book ≡ L.log) }
        ensures { result ≡ [] }
    {
        Beginning {
            entries: 0,
            seen,
            name: PhantomData,
        }
    }

    /// How many entries it has.
    pub fn len(&self) -> u64
        ensures { result ≡ length self.now }
    {
        self.entries
    }

    /// The same once more.
    pub fn again(&self) -> Beginning<L, E>
        ensures { result ≡ self.now }
    {
        Beginning {
            entries: self.entries,
            seen: self.seen.again(),
            name: PhantomData,
        }
    }

    /// Whether another beginning of the log begins with this one. Of two the shorter begins the longer.
    pub fn begins(&self, other: &Beginning<L, E>) -> bool
        ensures begins { (result ≡ true) ↔ IsPrefix self.now other.now }
    {
        let mut both = self.seen.again();
        both.learn(&other.seen);
        self.entries <= other.entries
    }

    /// Whether another beginning of the log is as long, and so the same.
    pub fn is(&self, other: &Beginning<L, E>) -> bool
        ensures same { (result ≡ true) ↔ (self.now ≡ other.now) }
        ensures length { result ≡ nat_eq (length self.now) (length other.now) }
    {
        let mut both = self.seen.again();
        both.learn(&other.seen);
        self.entries == other.entries
    }

    /// Adds an entry to the log, of which this is all, and says whether it did. If the log was longer, this is all of
    /// it afterwards, and nothing was added. Proofs alone read the entry: `M` says what it is, made of `about`.
    pub fn add<X, M: Plain<X, E, u64>>(&mut self, log: &Log<L, E>, about: &X) -> bool
        requires room { length self.old < MOST_ENTRIES }
        requires plain { M.state about.now ≡ None }
        ensures { MatchBool result (self.new ≡ self.old ++ M.ask about.now ∷ []) (IsLonger self.old self.new) }
    {
        let mut offer: Offer<E, u64, Counting, NoTrade> = self.seen.plain::<NoTrade, X, M>(about);
        let mut pen = self.seen.no_pen();
        let entries = self.entries;
        let found = log
            .length
            .compare_exchange::<Adding, NoTrade>(
                entries,
                entries + 1,
                &mut self.seen,
                &mut offer,
                &mut pen,
            );
        self.entries = if found == entries { entries + 1 } else { found };
        found == entries
    }
}
