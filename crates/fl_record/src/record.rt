//! What several workers hand in, recorded once.

ghost use Rattle.std.specs.Prelude.{◌≡◌, ◌↔◌, ◌<◌, ◌≤◌, ◌^◌, ◌+◌, ◌++◌, ◌∷◌, ◌⊎◌, [], Err, None, Some, IsSome, length};
ghost use Rattle.std.specs.Prelude.{All, IfOk, IfSome, OnOk, OnErr, IsTrue, MatchResult, List, map, sum_by};
ghost use Rattle.std.specs.List.{range_with_len};
ghost use mathlib.Core.List.{IsPrefix};
ghost use Rattle.fl_record.specs.Asks.{history_of};
ghost use Rattle.fl_record.specs.Seats.{HasMostOf};
ghost use Rattle.fl_record.specs.Shown.{AreHandedIn, IsHandedIn};
ghost use Rattle.fl_counter.specs.Tolds.{HasRoom};
ghost use Rattle.fl_desk.specs.Legal.{IsLegalFromNothing, LeavesLawful, orders_asked};
ghost use Rattle.fl_log.specs.Longer.{IsLonger};
ghost use Rattle.fl_log.specs.Asked.{Ask as Handed, ask_of};

use crate::laws::asks_lead;
use crate::seat::Seat;
use crate::seats::{OpenFault, merged, seats_of};
use fl_core::{Core, Rules, Tolds};
use fl_desk::{Desk, HandFault, MOST_IN_BATCH, ToldLists};
use fl_history::Journal;
use fl_log::{AsAsk, Ask, Asking, Beginning, FreshLog, Log, MOST_ENTRIES};
use fl_order::{NoMemory, Order};
use fl_replica::{BoardName, ReplicaWriter};
use std::alloc::Global;
use std::marker::Model;
use std::mem;
use std::sync::Wait;
use std::sync::ledger::{Book, Share};

/// One desk; the ledger's book, whose total is the number of orders in the desk's history; the log of what was handed
/// in, and all of it; and the writer that publishes it. Contracts see the asks that were handed in, those that are
/// published, and the lines that the desk's journal has stored.
#[derive(Drop)]
pub struct Record<L: BoardName, R: Wait + Drop + Copy, J: Journal> {
    desk: Desk<J>,
    book: Book<L>,
    log: Log<L, Ask>,
    all: Beginning<L, Ask>,
    writer: ReplicaWriter<L, Core, R>,
}

impl<L: BoardName, R: Wait + Drop + Copy, J: Journal> Model for Record<L, R, J> {
    ghost use Rattle.std.specs.Prelude.{◌≡◌};
    ghost use Rattle.fl_record.specs.Asks.{history_of, present_after};
    ghost use Rattle.fl_desk.specs.Legal.{orders_asked};
    ghost use Rattle.fl_record.specs.Recorded.{Recorded};

    ghost Value = { Recorded };

    ghost view = { λ s. record { asks = s.all; shown = s.writer.shown; stored = s.desk.stored } };

    ghost invariant = { λ s. (s.writer.asks ≡ s.all) × (s.desk.lines ≡ history_of L.rules s.all)
        × (s.desk.present ≡ present_after L.rules s.all) × (s.book.total ≡ orders_asked s.desk.lines) };
}

impl<L: BoardName, R: Wait + Drop + Copy, J: Journal> Record<L, R, J> {
    /// A record of no order, with a place for so many readers, whose lines go to this journal. Requests will wait by
    /// these rules. `rt` waits for readers. If it is refused, the journal is dropped.
    pub fn over(
        alloc: Global,
        rt: R,
        journal: J,
        ledger: Book<L>,
        log: FreshLog<Ask>,
        readers: usize,
        rules: Rules,
    ) -> Result<Record<L, R, J>, NoMemory>
    where
        J: Drop,
        requires none { J.lines journal ≡ [] }
        requires piece { J.piece journal ≡ [] }
        requires ledger { ledger.total ≡ 0 }
        requires log { log ≡ L.log }
        requires readers { (0 < readers) × (readers < 2 ^ 32) }
        requires rules { rules ≡ L.rules }
        ensures asks { IfOk result (λ made. made.asks ≡ []) }
        ensures shown { IfOk result (λ made. made.shown ≡ Some []) }
        ensures stored { IfOk result (λ made. made.stored ≡ J.stored journal) }
    {
        let Ok(desk) = Desk::over(alloc, journal, rules) else {
            return Err(NoMemory);
        };
        let (log, all) = log.named::<L>();
        let made = ReplicaWriter::new(alloc, rt, desk.present(), &all, readers, MOST_IN_BATCH);
        let Ok(writer) = made else {
            return Err(NoMemory);
        };
        Ok(Record {
            desk,
            book: ledger,
            log,
            all,
            writer,
        })
    }

    /// A seat for each of so many workers: the seat at place i is worker i's. It is refused if memory runs out, or there
    /// is no place for so many readers.
    pub fn seats(
        &self,
        alloc: Global,
        parts: Share<L>,
        workers: u32,
    ) -> Result<Vec<Seat<L>>, OpenFault>
        requires none { self.now.asks ≡ [] }
        requires parts { (parts.parts ≡ workers) × (parts.amount ≡ 0) }
        ensures workers { IfOk result (λ seats. map (λ seat. seat.worker) seats.items ≡ range_with_len 0 workers) }
        ensures fresh { IfOk result (λ seats.
            All (λ seat. (seat.count ≡ 0) × (seat.handed ≡ []) × (seat.seen ≡ []) × (seat.stored ≡ [])) seats.items) }
    {
        seats_of(alloc, &self.writer, &self.all, parts, workers)
    }

    /// All that was handed in.
    pub fn asks(&self) -> &Beginning<L, Ask>
        ensures { result.now ≡ self.now.asks }
    {
        &self.all
    }

    // The most replies that one order is given by the record's rules.
    fn most_tolds(&self) -> usize
        ensures { result ≡ L.rules.parked + 1 }
    {
        asks_lead();
        self.desk.most_tolds()
    }

    /// Takes an order of the seat's worker, and counts it. It is published later.
    pub fn take(
        &mut self,
        seat: &mut Seat<L>,
        order: &Order,
        tolds: &mut Tolds,
    ) -> Result<(), HandFault>
        requires { HasRoom L.rules tolds.old }
        ensures worker { seat.new.worker ≡ seat.old.worker }
        ensures handed { OnOk result (IsHandedIn L.rules seat.old order.now tolds.new.told seat.new) }
        ensures few { OnOk result (length tolds.new.told ≤ L.rules.parked + 1) }
        ensures room { tolds.new.room ≡ tolds.old.room }
        ensures all { OnOk result (history_of L.rules self.new.asks ≡ seat.new.handed) }
        ensures shown { (self.new.shown ≡ None) ⊎ (self.new.shown ≡ self.old.shown) }
        ensures stored { IsPrefix self.old.stored self.new.stored }
        ensures refused { OnErr result ((seat.new ≡ seat.old) × (tolds.new ≡ tolds.old)
            × (self.new.asks ≡ self.old.asks) × (self.new.shown ≡ self.old.shown)) }
    {
        asks_lead();
        let before = match entered(&mut self.desk, &self.log, &mut self.all, seat, order) {
            Ok(before) => before,
            Err(fault) => return Err(fault),
        };
        let Ok(()) = self.desk.take(seat.worker, order, tolds) else {
            unreachable!();
        };
        self.book.add(&mut seat.share, 1);
        self.writer
            .add(order, tolds.own_alone(order), &before, &self.all);
        seat.handed = self.all.again();
        Ok(())
    }

    /// Takes orders of the seat's worker, one after another, and hands out the replies to each. It ends when there may
    /// be no room for those to one more.
    pub fn take_all(
        &mut self,
        seat: &mut Seat<L>,
        orders: &[Order],
        tolds: &mut Tolds,
        lists: &mut ToldLists,
    ) -> Result<(), HandFault>
        requires room { HasRoom L.rules tolds.old }
        requires lists { (L.rules.parked + 1 ≤ lists.old.room) × (0 < lists.old.places) }
        ensures room { tolds.new.room ≡ tolds.old.room }
        ensures lists { (lists.new.room ≡ lists.old.room) × (lists.new.places ≡ lists.old.places) }
        ensures handed { AreHandedIn L.rules seat.old orders.now lists.new.lists seat.new }
        ensures all { 0 < length lists.new.lists → history_of L.rules self.new.asks ≡ seat.new.handed }
        ensures stored { IsPrefix self.old.stored self.new.stored }
        ensures some { OnOk result (0 < length orders.now → 0 < length lists.new.lists) }
        ensures refused { OnErr result (length lists.new.lists < length orders.now) }
    {
        lists.clear();
        let most = self.most_tolds();
        for order in orders {
            if !lists.has_room(most) {
                return Ok(());
            }
            if let Err(fault) = self.take(seat, order, tolds) {
                return Err(fault);
            }
            lists.push(tolds.as_slice());
        }
        Ok(())
    }

    /// Lets what is published go. Nothing is published from here on, until `warm`.
    pub fn cool(&mut self)
        ensures asks { self.new.asks ≡ self.old.asks }
        ensures shown { self.new.shown ≡ None }
        ensures stored { self.new.stored ≡ self.old.stored }
    {
        self.writer.cool();
    }

    /// Publishes all that was taken, if nothing is published, and gives the seat a reader of it, if there is memory and
    /// a place for one. A refusal changes nothing.
    pub fn warm(&mut self, alloc: Global, seat: &mut Seat<L>) -> Result<(), NoMemory>
        ensures seat { seat.new ≡ seat.old }
        ensures asks { self.new.asks ≡ self.old.asks }
        ensures shown { OnOk result ((self.new.shown ≡ Some self.old.asks)
            ⊎ (IsSome self.old.shown × (self.new.shown ≡ self.old.shown))) }
        ensures stored { self.new.stored ≡ self.old.stored }
        ensures refused { OnErr result (self.new ≡ self.old) }
    {
        self.writer.warm(alloc, self.desk.present())?;
        if let Ok(reader) = self.writer.reader() {
            seat.reader = reader;
        }
        Ok(())
    }

    /// Publishes all that was taken.
    pub fn publish(&mut self)
        ensures asks { self.new.asks ≡ self.old.asks }
        ensures shown { IfSome self.new.shown (λ shown. shown ≡ self.new.asks) }
        ensures kept { IsSome self.new.shown ↔ IsSome self.old.shown }
        ensures stored { self.new.stored ≡ self.old.stored }
    {
        self.writer.publish();
    }

    /// Stores the desk's lines if they must be stored before replies leave, and says whether all are stored, or need
    /// not be.
    pub fn store_if_due(&mut self) -> bool
        ensures same { (self.new.asks ≡ self.old.asks) × (self.new.shown ≡ self.old.shown) }
        ensures stored { IsPrefix self.old.stored self.new.stored }
        ensures all { IsTrue result → self.new.stored ≡ history_of L.rules self.new.asks }
    {
        self.desk.store_if_due()
    }

    /// Stores the desk's lines, if it can.
    pub fn store_all(&mut self)
        ensures same { (self.new.asks ≡ self.old.asks) × (self.new.shown ≡ self.old.shown) }
        ensures stored { IsPrefix self.old.stored self.new.stored }
    {
        let _ = self.desk.store_all();
    }

    /// The journal of its desk, once all seats are handed back.
    pub fn into_journal(self, seats: Vec<Seat<L>>) -> J
        requires all { (0 < L.parts) × (L.parts ≤ length seats.items) }
        ensures lines { J.lines result ≡ history_of L.rules self.asks }
        ensures stored { J.stored result ≡ self.stored }
        ensures legal { IsLegalFromNothing L.rules (J.lines result) }
        ensures lawful { LeavesLawful L.rules (J.lines result) }
        ensures counted { orders_asked (J.lines result) ≡ sum_by (λ seat. seat.count) seats.items }
    {
        let Record {
            desk,
            mut book,
            log: _log,
            all: _all,
            writer: _writer,
        } = self;
        asks_lead();
        let mut whole = merged(seats);
        book.audit(&mut whole);
        desk.into_journal()
    }
}

// Makes room for an order's lines, and adds it to the log, which has to begin with all that its worker handed in and
// was shown. It gives what had been handed in before.
fn entered<L: BoardName, J: Journal>(
    desk: &mut Desk<J>,
    log: &Log<L, Ask>,
    all: &mut Beginning<L, Ask>,
    seat: &Seat<L>,
    order: &Order,
) -> Result<Beginning<L, Ask>, HandFault>
    ensures same { (desk.new.lines ≡ desk.old.lines) × (desk.new.present ≡ desk.old.present) }
    ensures stored { IsPrefix desk.old.stored desk.new.stored }
    ensures room { OnOk result (desk.old.present.rules.parked + 2 ≤ desk.new.room) }
    ensures most { OnOk result (HasMostOf (history_of L.rules all.old) seat.now) }
    ensures before { IfOk result (λ before. before ≡ all.old) }
    ensures added { OnOk result (all.new ≡ all.old ++ ask_of seat.now.worker order.now ∷ []) }
    ensures refused { OnErr result (all.new ≡ all.old) }
{
    if desk.ready().is_err() {
        return Err(HandFault::NoMemory);
    }
    if !seat.begins(all) {
        return Err(HandFault::NoView);
    }
    let Ok(before) = added(log, all, seat.worker, order) else {
        return Err(HandFault::NoView);
    };
    Ok(before)
}

// Why an order isn't in the log.
#[derive(Drop)]
enum NotAdded<L: BoardName> {
    // The log has as many asks as it may have.
    Full,
    // This is what the log has, and it is more than was known.
    Longer(Beginning<L, Ask>),
}

// Adds a worker's order to the log, and to what is known of it. It gives what was known before.
fn added<L: BoardName>(
    log: &Log<L, Ask>,
    all: &mut Beginning<L, Ask>,
    worker: u32,
    order: &Order,
) -> Result<Beginning<L, Ask>, NotAdded<L>>
    ensures before { IfOk result (λ before. before ≡ all.old) }
    ensures added { MatchResult result (λ _. all.new ≡ all.old ++ ask_of worker order.now ∷ [])
        (λ _. all.new ≡ all.old) }
    ensures full { result ≡ Err NotAdded.Full → 2 ^ 62 ≤ length all.old }
    ensures longer { (more : List Handed) → result ≡ Err (NotAdded.Longer more) → IsLonger all.old more }
{
    if all.len() >= MOST_ENTRIES {
        return Err(NotAdded::Full);
    }
    let mut next = all.again();
    if !next.add::<Asking, AsAsk>(log, &Asking { worker, order }) {
        return Err(NotAdded::Longer(next));
    }
    Ok(mem::replace(all, next))
}
