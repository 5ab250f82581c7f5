//! A log that lies under a lock.

ghost use Rattle.std.specs.Prelude.{◌≡◌, ◌≢◌, ◌+◌, ◌<◌, ◌++◌, ◌∷◌, [], true, false, All, IfSome, None, length, sum_by};
ghost use mathlib.Core.List.{IsPrefix};
ghost use Rattle.fl_log.specs.Appended.{AreApart, HasAll, HasMost, IsAppended, unused};

use crate::appender::Appender;
use crate::beginning::{Beginning, MOST_ENTRIES};
use crate::log::{Entry, FreshLog, Log, LogName};
use logbook::Plain;
use std::marker::Model;
use std::sync::ledger::{Blank, Book, Share};

/// A log, all of it, and the ledger that counts its entries. It lies under a lock. Contracts see it as its entries.
pub struct SharedLog<L: LogName, E: Entry> {
    log: Log<L, E>,
    all: Beginning<L, E>,
    book: Book<L>,
}

impl<L: LogName, E: Entry> Model for SharedLog<L, E> {
    ghost use Rattle.std.specs.Prelude.{◌≡◌, List, length};

    ghost Value = { List E };

    ghost view = { λ s. s.all };

    ghost invariant = { λ s. s.book.total ≡ length s.all };
}

impl<L: LogName, E: Entry> Drop for SharedLog<L, E> {
    // One call for an owner, and not a step for each part.
    fn drop(self) {
        let SharedLog {
            log: _log,
            all: _all,
            book: _book,
        } = self;
    }
}

impl<L: LogName, E: Entry> SharedLog<L, E> {
    /// It has no entries. Beside it comes what appenders are cut from.
    pub fn new(blank: Blank, fresh: FreshLog<E>) -> (SharedLog<L, E>, Share<L>)
        requires ledger { (blank.name ≡ L.name) × (blank.parts ≡ L.parts) }
        requires log { fresh ≡ L.log }
        ensures none { result.0 ≡ [] }
        ensures whole { (result.1.parts ≡ L.parts) × (result.1.amount ≡ 0) }
    {
        let (book, whole) = blank.open::<L>();
        let (log, all) = fresh.named::<L>();
        (SharedLog { log, all, book }, whole)
    }

    /// An appender of this author, through which nothing was appended.
    pub fn appender(&self, rest: &mut Share<L>, author: u32) -> Appender<L, E>
        requires none { self.now ≡ [] }
        requires rest { (0 < rest.old.parts) × (rest.old.amount ≡ 0) }
        ensures fresh { result ≡ unused author }
        ensures rest { (rest.new.parts + 1 ≡ rest.old.parts) × (rest.new.amount ≡ 0) }
    {
        Appender {
            author,
            share: rest.split_off(1, 0),
            upto: self.all.again(),
        }
    }

    /// Appends an entry of the appender's author, and says whether it did. If not, nothing changed. Proofs alone read
    /// the entry: `M` says what it is, made of `about`.
    pub fn append<X, M: Plain<X, E, u64>>(
        &mut self,
        appender: &mut Appender<L, E>,
        about: &X,
    ) -> bool
        requires appender { E.author (M.ask about.now) ≡ appender.old.author }
        requires plain { M.state about.now ≡ None }
        ensures appended { result ≡ true → (self.new ≡ self.old ++ M.ask about.now ∷ [])
            × (appender.new.upto ≡ self.new) × IsPrefix appender.old.upto self.old
            × IsAppended appender.old (M.ask about.now) appender.new }
        ensures refused { result ≡ false → (self.new ≡ self.old) × (appender.new ≡ appender.old) }
    {
        let SharedLog { log, all, book } = self;
        if all.len() >= MOST_ENTRIES || !appender.begins(all) {
            return false;
        }
        let mut next = all.again();
        if !next.add::<X, M>(log, about) {
            return false;
        }
        book.add(&mut appender.share, 1);
        appender.upto = next.again();
        *all = next;
        true
    }

    /// Whether all of it was appended through these appenders, of which none is missing.
    pub fn is_by(&mut self, appenders: Vec<Appender<L, E>>) -> bool
        requires all { length appenders.items ≡ L.parts }
        ensures same { self.new ≡ self.old }
        ensures each { result ≡ true → All (HasAll E.author self.old) appenders.items }
        ensures total { result ≡ true → length self.old ≡ sum_by (λ appender. appender.count) appenders.items }
    {
        if !begins_with(&self.all, &appenders) || !are_apart(&appenders) {
            return false;
        }
        let Some(mut whole) = merged(appenders) else {
            return false;
        };
        self.book.audit(&mut whole);
        true
    }
}

// Whether the log begins with what was appended through each.
fn begins_with<L: LogName, E: Entry>(all: &Beginning<L, E>, appenders: &[Appender<L, E>]) -> bool
    ensures { result ≡ true → All (HasMost E.author all.now) appenders.now }
{
    for appender in appenders {
        if !appender.begins(all) {
            return false;
        }
    }
    true
}

// Whether no two are of one author.
fn are_apart<L: LogName, E: Entry>(appenders: &[Appender<L, E>]) -> bool
    ensures { result ≡ true → AreApart appenders.now }
{
    for i in 0..appenders.len() {
        let appender = &appenders[i];
        if has_author(&appenders[..i], appender.author) {
            return false;
        }
    }
    true
}

// Whether one of them is this author's.
fn has_author<L: LogName, E: Entry>(appenders: &[Appender<L, E>], author: u32) -> bool
    ensures { result ≡ false → All (λ appender. appender.author ≢ author) appenders.now }
{
    for appender in appenders {
        if appender.author == author {
            return true;
        }
    }
    false
}

// The shares of all of them as one.
fn merged<L: LogName, E: Entry>(appenders: Vec<Appender<L, E>>) -> Option<Share<L>>
    ensures parts { IfSome result (λ all. all.parts ≡ length appenders.items) }
    ensures amount { IfSome result (λ all. all.amount ≡ sum_by (λ appender. appender.count) appenders.items) }
{
    let mut appenders = appenders;
    let mut all = appenders.pop()?.into_share();
    while let Some(appender) = appenders.pop() {
        let share = appender.into_share();
        all.merge(share);
    }
    Some(all)
}
