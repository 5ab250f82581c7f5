//! What lies under a board's lock.

ghost use Rattle.std.specs.Prelude.{◌≡◌, ◌≤◌, ◌<◌, ◌^◌, ◌+◌, ◌∷◌, [], true, false, All, length, sum_by};
ghost use Rattle.std.specs.Prelude.{IfOk, OnOk, OnErr};
ghost use mathlib.Core.List.{IsPrefix};
ghost use Rattle.fl_record.specs.Asks.{history_of};
ghost use Rattle.fl_record.specs.Seats.{HasMostOf};
ghost use Rattle.fl_record.specs.Seats.{all_stored};
ghost use Rattle.fl_board.specs.Refused.{CantClose, FallsShort};
ghost use Rattle.fl_record.specs.Seats.{AreApart};
ghost use Rattle.fl_board.specs.Shown.{HaveMet};
ghost use Rattle.fl_record.specs.Shown.{AreHandedIn, IsHandedIn, KeepsHanded};
ghost use Rattle.fl_counter.specs.Tolds.{HasRoom};
ghost use Rattle.fl_desk.specs.Legal.{IsLegalFromNothing, LeavesLawful, orders_asked};

use crate::idle::Idle;
use fl_core::{Rules, Tolds};
use fl_desk::{HandFault, NoView, ToldLists};
use fl_history::Journal;
use fl_log::{Ask, Beginning, FreshLog};
use fl_order::{NoMemory, Order};
use fl_record::laws::asks_lead;
use fl_record::{Record, Seat, are_apart};
use fl_replica::BoardName;
use std::alloc::Global;
use std::marker::Model;
use std::sync::Wait;
use std::sync::ledger::Book;

/// The record, of which all that was handed in is published. Contracts see the asks that were handed in, and a
/// beginning of them whose lines the journal has stored.
pub(crate) struct Shared<L: BoardName, R: Wait + Drop + Copy, J: Journal> {
    pub record: Record<L, R, J>,
    // What had been handed in when all lines were stored last, or didn't have to be.
    stored: Beginning<L, Ask>,
    idle: Idle,
}

impl<L: BoardName, R: Wait + Drop + Copy, J: Journal> Model for Shared<L, R, J> {
    ghost use Rattle.std.specs.Prelude.{◌≡◌, IfSome};
    ghost use mathlib.Core.List.{IsPrefix};
    ghost use Rattle.fl_record.specs.Asks.{history_of};
    ghost use Rattle.fl_board.specs.Inside.UnderLock.{UnderLock};

    ghost Value = { UnderLock };

    ghost view = { λ s. record { asks = s.record.asks; stored = s.stored } };

    ghost invariant = { λ s. IfSome s.record.shown (λ shown. shown ≡ s.record.asks)
        × IsPrefix (history_of L.rules s.stored) s.record.stored };
}

impl<L: BoardName, R: Wait + Drop + Copy, J: Journal + Drop> Drop for Shared<L, R, J> {
    // One call for an owner, and not a step for each part.
    fn drop(self) {
        let Shared {
            record: _record,
            stored: _stored,
            idle: _idle,
        } = self;
    }
}

impl<L: BoardName, R: Wait + Drop + Copy, J: Journal> Shared<L, R, J> {
    /// What lies under the lock of a board that has taken no order, with a place for so many readers. `rt` waits for
    /// these.
    pub(crate) fn over(
        alloc: Global,
        rt: R,
        journal: J,
        ledger: Book<L>,
        log: FreshLog<Ask>,
        readers: usize,
        rules: Rules,
    ) -> Result<Shared<L, R, J>, NoMemory>
    where
        J: Drop,
        requires none { J.lines journal ≡ [] }
        requires piece { J.piece journal ≡ [] }
        requires ledger { ledger.total ≡ 0 }
        requires log { log ≡ L.log }
        requires readers { (0 < readers) × (readers < 2 ^ 32) }
        requires rules { rules ≡ L.rules }
        ensures { IfOk result (λ shared. shared ≡ record { asks = []; stored = [] }) }
    {
        let Ok(record) = Record::over(alloc, rt, journal, ledger, log, readers, rules) else {
            return Err(NoMemory);
        };
        let stored = record.asks().again();
        Ok(Shared {
            record,
            stored,
            idle: Idle::new(rules),
        })
    }

    /// Takes an order of the seat's worker, counts it, and publishes it. It says whether its lines are stored, or need
    /// not be: if so, they count as stored at the seat. It is refused while lines of orders before it wait to be stored.
    pub(crate) fn hand_in(
        &mut self,
        seat: &mut Seat<L>,
        order: &Order,
        tolds: &mut Tolds,
    ) -> Result<bool, HandFault>
        requires { HasRoom L.rules tolds.old }
        ensures worker { seat.new.worker ≡ seat.old.worker }
        ensures handed { OnOk result (IsHandedIn L.rules seat.old order.now tolds.new.told seat.new) }
        ensures stored { IfOk result (λ stored. stored ≡ true → seat.new.stored ≡ seat.new.handed) }
        ensures room { tolds.new.room ≡ tolds.old.room }
        ensures all { OnOk result (history_of L.rules self.new.asks ≡ seat.new.handed) }
        ensures refused { OnErr result ((seat.new ≡ seat.old) × (tolds.new ≡ tolds.old)
            × (self.new.asks ≡ self.old.asks)) }
    {
        match self.take(seat, order, tolds) {
            Ok(()) => Ok(self.store_if_due(seat)),
            Err(fault) => Err(fault),
        }
    }

    // Takes an order of the seat's worker, counts it, and publishes it. It is refused while lines of orders before it
    // wait to be stored.
    fn take(
        &mut self,
        seat: &mut Seat<L>,
        order: &Order,
        tolds: &mut Tolds,
    ) -> Result<(), HandFault>
        requires { HasRoom L.rules tolds.old }
        ensures worker { seat.new.worker ≡ seat.old.worker }
        ensures handed { OnOk result (IsHandedIn L.rules seat.old order.now tolds.new.told seat.new) }
        ensures room { tolds.new.room ≡ tolds.old.room }
        ensures all { OnOk result (history_of L.rules self.new.asks ≡ seat.new.handed) }
        ensures refused { OnErr result ((seat.new ≡ seat.old) × (tolds.new ≡ tolds.old)
            × (self.new.asks ≡ self.old.asks)) }
    {
        if !self.store_waiting() {
            return Err(HandFault::NoMemory);
        }
        let taken = self.record.take(seat, order, tolds);
        self.record.publish();
        taken
    }

    /// Takes orders of the seat's worker, one after another, and publishes them together. They are refused while lines
    /// of orders before them wait to be stored.
    pub(crate) fn hand_in_all(
        &mut self,
        seat: &mut Seat<L>,
        orders: &[Order],
        tolds: &mut Tolds,
        lists: &mut ToldLists,
    ) -> Result<(), HandFault>
        requires room { HasRoom L.rules tolds.old }
        requires lists { (L.rules.parked + 1 ≤ lists.old.room) × (0 < lists.old.places) }
        ensures room { tolds.new.room ≡ tolds.old.room }
        ensures lists { (lists.new.room ≡ lists.old.room) × (lists.new.places ≡ lists.old.places) }
        ensures handed { AreHandedIn L.rules seat.old orders.now lists.new.lists seat.new }
        ensures some { OnOk result (0 < length orders.now → 0 < length lists.new.lists) }
        ensures refused { OnErr result (length lists.new.lists < length orders.now) }
    {
        if !self.store_waiting() && !orders.is_empty() {
            lists.clear();
            return Err(HandFault::NoMemory);
        }
        let taken = self.record.take_all(seat, orders, tolds, lists);
        self.record.publish();
        taken
    }

    /// So many orders come, and somebody looked since the last ones, or not. Lets what looks read go, if nobody has for
    /// long: they find nothing from here on, until `warm`.
    pub(crate) fn cool_if_idle(&mut self, looked: bool, orders: usize)
        ensures { self.new ≡ self.old }
    {
        if self.idle.is_long(looked, orders) {
            self.record.cool();
        }
    }

    /// Makes what looks read anew, if it was let go, and gives the seat a reader of it. It isn't let go again. If memory
    /// runs out, looks find nothing still.
    pub(crate) fn warm(&mut self, alloc: Global, seat: &mut Seat<L>)
        ensures same { self.new ≡ self.old }
        ensures seat { seat.new ≡ seat.old }
    {
        if self.record.warm(alloc, seat).is_ok() {
            self.idle.end();
        }
    }

    /// Shows two workers all that was handed in.
    pub(crate) fn meet(&self, one: &mut Seat<L>, other: &mut Seat<L>) -> Result<(), NoView>
        ensures one { KeepsHanded one.old one.new }
        ensures other { KeepsHanded other.old other.new }
        ensures met { OnOk result (HaveMet L.rules one.old other.old one.new other.new) }
        ensures refused { OnErr result ((one.new ≡ one.old) × (other.new ≡ other.old)) }
        ensures no_view { OnErr result (FallsShort L.rules (one.old ∷ other.old ∷ [])) }
    {
        asks_lead();
        let all = self.record.asks();
        if !one.begins(all) || !other.begins(all) {
            return Err(NoView);
        }
        one.show(all);
        other.show(all);
        Ok(())
    }

    /// Whether no two seats are of one worker, and the history begins with all that was handed in and shown through
    /// each, and with what counts as stored for it, which the journal has to have stored.
    pub(crate) fn can_close(&self, seats: &[Seat<L>]) -> bool
        ensures most { result ≡ true → All (λ seat. HasMostOf (history_of L.rules self.now.asks) seat) seats.now }
        ensures stored { result ≡ true
            → All (λ seat. IsPrefix seat.stored (history_of L.rules self.now.stored)) seats.now }
        ensures apart { result ≡ true → AreApart seats.now }
        ensures cant { result ≡ false → CantClose L.rules seats.now }
    {
        asks_lead();
        if !are_apart(seats) {
            return false;
        }
        let all = self.record.asks();
        for seat in seats {
            if !seat.begins(all) || !seat.is_stored_in(&self.stored) {
                return false;
            }
        }
        true
    }

    /// Stores the desk's lines if they must be stored before replies leave, and says whether all that was handed in
    /// through a seat is stored. If so, it counts as that.
    pub(crate) fn store_if_due(&mut self, seat: &mut Seat<L>) -> bool
        ensures same { self.new.asks ≡ self.old.asks }
        ensures noted { result ≡ true → seat.new ≡ all_stored seat.old }
        ensures there { result ≡ true → IsPrefix seat.old.handed (history_of L.rules self.new.stored) }
        ensures waits { result ≡ false → seat.new ≡ seat.old }
    {
        let _ = self.store_waiting();
        seat.note_stored(&self.stored)
    }

    /// Stores the desk's lines, if it can.
    pub(crate) fn store_all(&mut self)
        ensures { self.new ≡ self.old }
    {
        self.record.store_all();
    }

    // Stores the desk's lines, if some wait that must be stored before replies leave. It says whether none is left.
    fn store_waiting(&mut self) -> bool
        ensures { self.new.asks ≡ self.old.asks }
    {
        if self.stored.is(self.record.asks()) {
            return true;
        }
        if !self.record.store_if_due() {
            return false;
        }
        self.stored = self.record.asks().again();
        true
    }

    /// The desk's journal, for all its seats.
    pub(crate) fn into_journal(self, seats: Vec<Seat<L>>) -> J
        requires all { (0 < L.parts) × (L.parts ≤ length seats.items) }
        ensures lines { J.lines result ≡ history_of L.rules self.asks }
        ensures stored { IsPrefix (history_of L.rules self.stored) (J.stored result) }
        ensures legal { IsLegalFromNothing L.rules (J.lines result) }
        ensures lawful { LeavesLawful L.rules (J.lines result) }
        ensures counted { orders_asked (J.lines result) ≡ sum_by (λ seat. seat.count) seats.items }
    {
        let Shared {
            record,
            stored: _stored,
            idle: _idle,
        } = self;
        record.into_journal(seats)
    }
}
