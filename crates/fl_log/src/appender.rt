//! What an author has of a shared log.

use crate::beginning::Beginning;
use crate::log::{Entry, LogName};
use std::marker::Model;
use std::sync::ledger::Share;

/// What an author appends through. Contracts see whose it is, how many entries were appended through it, and the log
/// up to the last of them.
pub struct Appender<L: LogName, E: Entry> {
    pub(crate) author: u32,
    pub(crate) share: Share<L>,
    pub(crate) upto: Beginning<L, E>,
}

impl<L: LogName, E: Entry> Model for Appender<L, E> {
    ghost use Rattle.std.specs.Prelude.{◌≡◌, ◌≤◌, length};
    ghost use Rattle.fl_log.specs.Appended.{Appended, entries_by};

    ghost Value = { Appended E };

    ghost view = { λ a. record { author = a.author; count = a.share.amount; upto = a.upto } };

    ghost invariant = { λ a. (a.share.parts ≡ 1) × (a.share.amount ≤ length (entries_by E.author a.author a.upto)) };
}

impl<L: LogName, E: Entry> Drop for Appender<L, E> {
    // One call for an owner, and not a step for each part.
    fn drop(self) {
        let Appender {
            author: _author,
            share: _share,
            upto: _upto,
        } = self;
    }
}

impl<L: LogName, E: Entry> Appender<L, E> {
    ghost use Rattle.std.specs.Prelude.{◌≡◌, true};
    ghost use Rattle.fl_log.specs.Appended.{HasMost};

    /// Whose it is.
    pub fn author(&self) -> u32
        ensures { result ≡ self.now.author }
    {
        self.author
    }

    // Its part of the ledger.
    pub(crate) fn into_share(self) -> Share<L>
        ensures parts { result.parts ≡ 1 }
        ensures amount { result.amount ≡ self.count }
    {
        let Appender {
            author: _,
            share,
            upto: _upto,
        } = self;
        share
    }

    // Whether a log begins with all that was appended through it.
    pub(crate) fn begins(&self, log: &Beginning<L, E>) -> bool
        ensures { result ≡ true → HasMost E.author log.now self.now }
    {
        self.upto.begins(log)
    }
}
