//! A worker's place at a record.

ghost use Rattle.std.specs.Prelude.{◌≡◌, ◌↔◌, true, false, IfOk, OnErr};
ghost use mathlib.Core.List.{IsPrefix};
ghost use Rattle.fl_record.specs.Asks.{history_of};
ghost use Rattle.fl_record.specs.Seats.{HasMostOf, all_stored};
ghost use Rattle.fl_record.specs.Shown.{IsShown, KeepsHanded};
ghost use Rattle.fl_order.specs.Order.{only_reads};

use crate::laws::asks_lead;
use fl_core::Core;
use fl_desk::NoView;
use fl_log::{Ask, Beginning};
use fl_order::{Answer, Errno, Order};
use fl_replica::{BoardName, ReplicaReader, look_at};
use std::marker::Model;
use std::sync::ledger::Share;

/// A worker's place at a record. Contracts see it as its worker, how many orders were handed in through it, the
/// history up to the last of these, the longest history that was shown through it, and a beginning of the history
/// whose lines are stored, or need not be before replies leave.
pub struct Seat<L: BoardName> {
    pub(crate) worker: u32,
    pub(crate) share: Share<L>,
    pub(crate) reader: ReplicaReader<L, Core>,
    pub(crate) handed: Beginning<L, Ask>,
    pub(crate) seen: Beginning<L, Ask>,
    pub(crate) stored: Beginning<L, Ask>,
}

impl<L: BoardName> Model for Seat<L> {
    ghost use Rattle.std.specs.Prelude.{◌≡◌, ◌≤◌, length};
    ghost use Rattle.fl_record.specs.Asks.{history_of};
    ghost use Rattle.fl_record.specs.Seats.{Place};
    ghost use Rattle.fl_counter.specs.Answered.{answered_by};

    ghost Value = { Place };

    ghost view = { λ s. record {
      worker = s.worker;
      count = s.share.amount;
      handed = history_of L.rules s.handed;
      seen = history_of L.rules s.seen;
      stored = history_of L.rules s.stored;
    } };

    ghost invariant = { λ s. (s.share.parts ≡ 1)
        × (s.share.amount ≤ length (answered_by s.worker (history_of L.rules s.handed))) };
}

impl<L: BoardName> Drop for Seat<L> {
    // One call for an owner, and not a step for each part.
    fn drop(self) {
        let Seat {
            worker: _worker,
            share: _share,
            reader: _reader,
            handed: _handed,
            seen: _seen,
            stored: _stored,
        } = self;
    }
}

impl<L: BoardName> Seat<L> {
    /// Its worker, from 0.
    pub fn worker(&self) -> u32
        ensures { result ≡ self.now.worker }
    {
        self.worker
    }

    // Its part of the ledger.
    pub(crate) fn into_share(self) -> Share<L>
        ensures parts { result.parts ≡ 1 }
        ensures amount { result.amount ≡ self.count }
    {
        let Seat {
            worker: _worker,
            share,
            reader: _reader,
            handed: _handed,
            seen: _seen,
            stored: _stored,
        } = self;
        share
    }

    /// What an order that only reads, GETLK or GETATTR, is answered after some beginning of the history, which the
    /// worker is shown. It waits for nobody, takes no memory, and is no line of the history.
    pub fn look(&mut self, order: &Order) -> Result<Result<Answer, Errno>, NoView>
        requires { only_reads order.now.op ≡ true }
        ensures same { KeepsHanded self.old self.new }
        ensures shown { IfOk result (λ answer. IsShown L.rules self.old order.now answer self.new) }
        ensures refused { OnErr result (self.new ≡ self.old) }
    {
        asks_lead();
        let Some((shown, answer)) = look_at(&mut self.reader, order) else {
            return Err(NoView);
        };
        if !self.begins(&shown) {
            return Err(NoView);
        }
        self.seen = shown;
        Ok(answer)
    }

    /// Shows its worker this history, which begins with all that was handed in and shown through it before.
    pub fn show(&mut self, asks: &Beginning<L, Ask>)
        requires { HasMostOf (history_of L.rules asks.now) self.old }
        ensures same { KeepsHanded self.old self.new }
        ensures shown { self.new.seen ≡ history_of L.rules asks.now }
    {
        self.seen = asks.again();
    }

    /// Notes that the lines of this history are stored. If it begins with all that was handed in through the seat, that
    /// counts as stored, and the result is true.
    pub fn note_stored(&mut self, stored: &Beginning<L, Ask>) -> bool
        ensures noted { result ≡ true → self.new ≡ all_stored self.old }
        ensures there { (result ≡ true) ↔ IsPrefix self.old.handed (history_of L.rules stored.now) }
        ensures waits { result ≡ false → self.new ≡ self.old }
    {
        if !self.handed.begins(stored) {
            return false;
        }
        self.stored = self.handed.again();
        true
    }

    /// Whether what counts as stored for it begins a history whose lines are stored.
    pub fn is_stored_in(&self, stored: &Beginning<L, Ask>) -> bool
        ensures { (result ≡ true) ↔ IsPrefix self.now.stored (history_of L.rules stored.now) }
    {
        self.stored.begins(stored)
    }

    /// Whether a history begins with all that was handed in and shown through it.
    pub fn begins(&self, asks: &Beginning<L, Ask>) -> bool
        ensures most { result ≡ true → HasMostOf (history_of L.rules asks.now) self.now }
        ensures all { IsPrefix self.now.handed (history_of L.rules asks.now)
            → IsPrefix self.now.seen (history_of L.rules asks.now) → result ≡ true }
    {
        self.handed.begins(asks) && self.seen.begins(asks)
    }
}
