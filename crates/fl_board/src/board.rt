//! The board: workers with seats hand in orders under one lock, and look without it. One history of all orders is kept.

ghost use Rattle.std.specs.Prelude.{◌≡◌, ◌<◌, ◌≤◌, ◌+◌, ◌↔◌, ◌⊎◌, [], ◌∷◌, true, Err, All, IfOk, IfErr};
ghost use Rattle.std.specs.Prelude.{OnOk, OnErr, length, map, sum_by};
ghost use Rattle.std.specs.List.{range_with_len};
ghost use mathlib.Core.List.{IsPrefix};
ghost use Rattle.fl_record.specs.Seats.{all_stored};
ghost use Rattle.fl_board.specs.Refused.{CantClose, FallsShort};
ghost use Rattle.fl_record.specs.Seats.{AreApart};
ghost use Rattle.fl_board.specs.Shown.{HasAllOf, HaveMet};
ghost use Rattle.fl_record.specs.Shown.{AreHandedIn, IsHandedIn, IsShown, KeepsHanded};
ghost use Rattle.fl_counter.specs.Tolds.{HasRoom};
ghost use Rattle.fl_desk.specs.Legal.{IsLegalFromNothing, LeavesLawful, orders_asked};
ghost use Rattle.fl_order.specs.Order.{only_reads};

use crate::shared::Shared;
use fl_core::{Rules, Tolds};
use fl_desk::{HandFault, NoView, Outgoing, ToldLists};
use fl_history::{History, Journal, Lines};
use fl_log::{Ask, FreshLog};
use fl_order::{Answer, Errno, Order};
use fl_record::{OpenFault, Seat};
use fl_replica::BoardName;
use std::alloc::Global;
use std::sync::atomic::{AtomicBool, AtomicU64, Ordering};
use std::sync::ledger::Blank;
use std::sync::{Mutex, Wait};
use std::time::Duration;

// How many milliseconds it is until lines that couldn't be stored are stored again.
const PAUSE: u64 = 100;

/// A board of 1 to 16 workers, whose lines go to a journal: they stay in memory, if nothing else is said.
pub struct Board<L: BoardName, R: Wait + Drop + Copy, J: Journal = Lines> {
    // In a box: a proof spells out the layout of what a `Mutex` has.
    shared: Mutex<Box<Shared<L, R, J>>>,
    alloc: Global,
    // Somebody looked since `hand_in_one` or `hand_in_all` was called last.
    looked: AtomicBool,
    workers: usize,
    ghost all: { workers ≡ L.workers },
    ghost some: { (0 < workers) × (workers ≤ 16) },
}

/// Why a board is not closed. Board and seats come back.
#[derive(Drop)]
pub enum CloseFault<L: BoardName, R: Wait + Drop + Copy, J: Journal = Lines> {
    /// There are fewer seats than were made.
    NotAll {
        /// The board, as it was.
        board: Board<L, R, J>,
        /// The seats that were handed back.
        seats: Vec<Seat<L>>,
    },
    /// The history doesn't begin with all that some worker handed in or was shown, what counts as stored for it isn't,
    /// or two seats are of one worker.
    NoView {
        /// The board.
        board: Board<L, R, J>,
        /// The seats that were handed back.
        seats: Vec<Seat<L>>,
    },
}

impl<L: BoardName, R: Wait + Drop + Copy, J: Journal + Drop> Drop for Board<L, R, J> {
    // One call for an owner, and not a step for each part.
    fn drop(self) {
        let Board {
            shared: _shared,
            alloc: _,
            looked: _looked,
            workers: _workers,
        } = self;
    }
}

impl<L: BoardName, R: Wait + Drop + Copy, J: Journal> Board<L, R, J> {
    /// A board whose lines go to this journal, which has none so far, and a seat for each of 1 to 16 workers: the
    /// seat at place i is worker i's. `rt` waits for readers. Requests will wait by these rules. If it is refused,
    /// the journal is dropped.
    pub fn over(
        alloc: Global,
        rt: R,
        journal: J,
        blank: Blank,
        log: FreshLog<Ask>,
        workers: u32,
        rules: Rules,
    ) -> Result<(Board<L, R, J>, Vec<Seat<L>>), OpenFault>
    where
        J: Drop,
        requires none { J.lines journal ≡ [] }
        requires piece { J.piece journal ≡ [] }
        requires named { (blank.name ≡ L.name) × (blank.parts ≡ L.parts) }
        requires log { log ≡ L.log }
        requires parts { (workers ≡ L.parts) × (L.workers ≡ L.parts) }
        requires workers { (0 < workers) × (workers ≤ 16) }
        requires rules { rules ≡ L.rules }
        ensures workers { IfOk result (λ made. map (λ seat. seat.worker) made.1.items ≡ range_with_len 0 workers) }
        ensures fresh { IfOk result (λ made.
            All (λ seat. (seat.count ≡ 0) × (seat.handed ≡ []) × (seat.seen ≡ []) × (seat.stored ≡ [])) made.1.items) }
    {
        let (book, rest) = blank.open::<L>();
        let Ok(shared) = Shared::over(alloc, rt, journal, book, log, workers as usize, rules) else {
            return Err(OpenFault::NoMemory);
        };
        let seats = match shared.record.seats(alloc, rest, workers) {
            Ok(seats) => seats,
            Err(fault) => return Err(fault),
        };
        let Ok(shared) = Box::new(alloc, shared) else {
            return Err(OpenFault::NoMemory);
        };
        let board = Board {
            shared: Mutex::new(shared),
            alloc,
            looked: AtomicBool::new(false),
            workers: workers as usize,
        };
        Ok((board, seats))
    }

    /// Takes an order of the seat's worker, as `Desk::take` does: records it, answers it, and hands out the replies
    /// that it records. If lines must be stored before replies leave, it waits until its own are: they count as stored
    /// at the seat. A refusal changes no line, lock, count or seat. `NoView` comes if the history doesn't begin with
    /// all that the worker handed in or was shown, has 2^62 orders, or isn't all that was logged.
    pub fn hand_in<W: Wait>(
        &self,
        rt: &W,
        seat: &mut Seat<L>,
        order: &Order,
        tolds: &mut Tolds,
    ) -> Result<(), HandFault>
        requires { HasRoom L.rules tolds.old }
        ensures worker { seat.new.worker ≡ seat.old.worker }
        ensures handed { OnOk result (IsHandedIn L.rules seat.old order.now tolds.new.told seat.new) }
        ensures stored { OnOk result (seat.new.stored ≡ seat.new.handed) }
        ensures room { tolds.new.room ≡ tolds.old.room }
        ensures refused { OnErr result ((seat.new ≡ seat.old) × (tolds.new ≡ tolds.old)) }
    {
        let taken = self.shared.lock(rt).hand_in(seat, order, tolds);
        let stored = taken?;
        if !stored {
            self.wait_until_stored(rt, seat);
        }
        Ok(())
    }

    /// Takes an order as `hand_in` does. Before it waits it sends what is outgoing. It counts toward letting what looks
    /// read go, as orders do that are handed in together.
    pub fn hand_in_one<W: Wait, O: Outgoing>(
        &self,
        rt: &W,
        outgoing: &O,
        seat: &mut Seat<L>,
        order: &Order,
        tolds: &mut Tolds,
    ) -> Result<(), HandFault>
        requires { HasRoom L.rules tolds.old }
        ensures worker { seat.new.worker ≡ seat.old.worker }
        ensures handed { OnOk result (IsHandedIn L.rules seat.old order.now tolds.new.told seat.new) }
        ensures stored { OnOk result (seat.new.stored ≡ seat.new.handed) }
        ensures room { tolds.new.room ≡ tolds.old.room }
        ensures refused { OnErr result ((seat.new ≡ seat.old) × (tolds.new ≡ tolds.old)) }
    {
        let taken = {
            let mut shared = self.shared.lock(rt);
            shared.cool_if_idle(was_read(&self.looked), 1);
            shared.hand_in(seat, order, tolds)
        };
        let stored = taken?;
        if !stored {
            outgoing.send(rt);
            self.wait_until_stored(rt, seat);
        }
        Ok(())
    }

    /// Takes orders of the seat's worker one after another under one lock, each as `hand_in` does, and then publishes
    /// them together. If lines must be stored before replies leave, it waits until those of all that it took are: they
    /// count as stored at the seat. Before that it sends what is outgoing. Until they are, others are refused. It hands
    /// out the replies to each in `lists`, in the place of those before; `tolds` has room for those to one. It may end
    /// before it took all, when there may be no room for the replies to one more or no place for their list. It takes
    /// one at least, or is refused. What is refused is the first order that has no list.
    pub fn hand_in_all<W: Wait, O: Outgoing>(
        &self,
        rt: &W,
        outgoing: &O,
        seat: &mut Seat<L>,
        orders: &[Order],
        tolds: &mut Tolds,
        lists: &mut ToldLists,
    ) -> Result<(), HandFault>
        requires room { HasRoom L.rules tolds.old }
        requires lists { (L.rules.parked + 1 ≤ lists.old.room) × (0 < lists.old.places) }
        ensures room { tolds.new.room ≡ tolds.old.room }
        ensures lists { (lists.new.room ≡ lists.old.room) × (lists.new.places ≡ lists.old.places) }
        ensures handed { AreHandedIn L.rules seat.old orders.now lists.new.lists seat.new }
        ensures stored { 0 < length lists.new.lists → seat.new.stored ≡ seat.new.handed }
        ensures some { OnOk result (0 < length orders.now → 0 < length lists.new.lists) }
        ensures refused { OnErr result (length lists.new.lists < length orders.now) }
    {
        let (taken, stored) = {
            let mut shared = self.shared.lock(rt);
            shared.cool_if_idle(was_read(&self.looked), orders.len());
            let taken = shared.hand_in_all(seat, orders, tolds, lists);
            let stored = lists.count() == 0 || shared.store_if_due(seat);
            (taken, stored)
        };
        if !stored {
            outgoing.send(rt);
            self.wait_until_stored(rt, seat);
        }
        taken
    }

    // Tries again and again to store lines, until all that was handed in through a seat is stored, or need not be.
    // Until it is, others are refused.
    fn wait_until_stored<W: Wait>(&self, rt: &W, seat: &mut Seat<L>)
        ensures { seat.new ≡ all_stored seat.old }
    {
        for _ in rt.forever() {
            pause(rt);
            if self.shared.lock(rt).store_if_due(seat) {
                return;
            }
        }
        unreachable!()
    }

    /// As `Seat::look`: it needs nothing of the board but what is published. Nothing is once nobody has looked for many
    /// orders that `hand_in_one` and `hand_in_all` were given: then `warm` makes it anew, and it stays.
    pub fn look(&self, seat: &mut Seat<L>, order: &Order) -> Result<Result<Answer, Errno>, NoView>
        requires { only_reads order.now.op ≡ true }
        ensures same { KeepsHanded seat.old seat.new }
        ensures shown { IfOk result (λ answer. IsShown L.rules seat.old order.now answer seat.new) }
        ensures refused { OnErr result (seat.new ≡ seat.old) }
    {
        note_look(&self.looked);
        seat.look(order)
    }

    /// Makes ready what looks read, if it was let go, and gives the seat a reader of it. If memory runs out, looks find
    /// nothing still. No line, lock, count or history of a seat changes.
    pub fn warm<W: Wait>(&self, rt: &W, seat: &mut Seat<L>)
        ensures { seat.new ≡ seat.old }
    {
        note_look(&self.looked);
        let mut shared = self.shared.lock(rt);
        shared.warm(self.alloc, seat);
    }

    /// Shows two workers all that both handed in and were shown: looks of either show the orders of both from now on.
    pub fn meet<W: Wait>(
        &self,
        rt: &W,
        one: &mut Seat<L>,
        other: &mut Seat<L>,
    ) -> Result<(), NoView>
        ensures one { KeepsHanded one.old one.new }
        ensures other { KeepsHanded other.old other.new }
        ensures met { OnOk result (HaveMet L.rules one.old other.old one.new other.new) }
        ensures refused { OnErr result ((one.new ≡ one.old) × (other.new ≡ other.old)) }
        ensures no_view { OnErr result (FallsShort L.rules (one.old ∷ other.old ∷ [])) }
    {
        let shared = self.shared.lock(rt);
        shared.meet(one, other)
    }

    /// Stores all its lines: a worker has no order at hand. No line, lock, count or seat changes.
    pub fn pause<W: Wait>(&self, rt: &W) {
        let mut shared = self.shared.lock(rt);
        shared.store_all();
    }

    /// The journal of its lines, which are the history of all that was handed in, if no seat is missing. It is
    /// legal under the board's rules, and no two owners have conflicting locks after it. It begins with all that was
    /// handed in and shown through each seat, and has as many orders of each worker as its seat's count. The journal
    /// has stored what counts as stored at each seat.
    pub fn into_journal(self, seats: Vec<Seat<L>>) -> Result<J, CloseFault<L, R, J>>
        requires { L.workers ≡ L.parts }
        ensures legal { IfOk result (λ journal. IsLegalFromNothing L.rules (J.lines journal)) }
        ensures lawful { IfOk result (λ journal. LeavesLawful L.rules (J.lines journal)) }
        ensures counted { IfOk result (λ journal.
            orders_asked (J.lines journal) ≡ sum_by (λ seat. seat.count) seats.items) }
        ensures each { IfOk result (λ journal. All (λ seat. HasAllOf (J.lines journal) seat) seats.items) }
        ensures stored { IfOk result (λ journal. All (λ seat. IsPrefix seat.stored (J.stored journal)) seats.items) }
        ensures apart { IfOk result (λ _. AreApart seats.items) }
        ensures not_all { (result ≡ Err (CloseFault.NotAll self seats)) ↔ (length seats.items < L.workers) }
        ensures back { IfErr result (λ fault. (fault ≡ CloseFault.NotAll self seats)
            ⊎ ((board : _) × (fault ≡ CloseFault.NoView board seats) × CantClose L.rules seats.items)) }
    {
        if seats.len() < self.workers {
            return Err(CloseFault::NotAll { board: self, seats });
        }
        let Board {
            shared,
            alloc,
            looked,
            workers,
        } = self;
        let shared = shared.into_inner();
        if !shared.can_close(&seats) {
            let board = Board {
                shared: Mutex::new(shared),
                alloc,
                looked,
                workers,
            };
            return Err(CloseFault::NoView { board, seats });
        }
        Ok(Box::into_inner(shared).into_journal(seats))
    }
}

impl<L: BoardName, R: Wait + Drop + Copy> Board<L, R> {
    /// A board, and a seat for each of 1 to 16 workers: the seat at place i is worker i's. `rt` waits for readers.
    /// Requests will wait by these rules.
    pub fn new(
        alloc: Global,
        rt: R,
        blank: Blank,
        log: FreshLog<Ask>,
        workers: u32,
        rules: Rules,
    ) -> Result<(Board<L, R>, Vec<Seat<L>>), OpenFault>
        requires named { (blank.name ≡ L.name) × (blank.parts ≡ L.parts) }
        requires log { log ≡ L.log }
        requires parts { (workers ≡ L.parts) × (L.workers ≡ L.parts) }
        requires workers { (0 < workers) × (workers ≤ 16) }
        requires rules { rules ≡ L.rules }
        ensures workers { IfOk result (λ made. map (λ seat. seat.worker) made.1.items ≡ range_with_len 0 workers) }
        ensures fresh { IfOk result (λ made.
            All (λ seat. (seat.count ≡ 0) × (seat.handed ≡ []) × (seat.seen ≡ []) × (seat.stored ≡ [])) made.1.items) }
    {
        Board::over(alloc, rt, Lines::new(alloc), blank, log, workers, rules)
    }

    /// The history of all that was handed in, if no seat is missing. It is legal under the board's rules, and no two
    /// owners have conflicting locks after it. It begins with all that was handed in and shown through each seat, and
    /// with what counts as stored there. It has as many orders of each worker as its seat's count.
    pub fn close(self, seats: Vec<Seat<L>>) -> Result<History, CloseFault<L, R>>
        requires { L.workers ≡ L.parts }
        ensures legal { IfOk result (IsLegalFromNothing L.rules) }
        ensures lawful { IfOk result (LeavesLawful L.rules) }
        ensures counted { IfOk result (λ history. orders_asked history ≡ sum_by (λ seat. seat.count) seats.items) }
        ensures each { IfOk result (λ history. All (λ seat. HasAllOf history seat) seats.items) }
        ensures stored { IfOk result (λ history. All (λ seat. IsPrefix seat.stored history) seats.items) }
        ensures apart { IfOk result (λ _. AreApart seats.items) }
        ensures not_all { (result ≡ Err (CloseFault.NotAll self seats)) ↔ (length seats.items < L.workers) }
        ensures back { IfErr result (λ fault. (fault ≡ CloseFault.NotAll self seats)
            ⊎ ((board : _) × (fault ≡ CloseFault.NoView board seats) × CantClose L.rules seats.items)) }
    {
        match self.into_journal(seats) {
            Ok(lines) => Ok(History::of(lines)),
            Err(fault) => Err(fault),
        }
    }
}

// Whether somebody looked since this was asked last.
fn was_read(looked: &AtomicBool) -> bool {
    let was = looked.load(Ordering::SeqCst);
    if was {
        looked.store(false, Ordering::SeqCst);
    }
    was
}

// Somebody looks.
fn note_look(looked: &AtomicBool) {
    if !looked.load(Ordering::SeqCst) {
        looked.store(true, Ordering::SeqCst);
    }
}

// Waits a while before lines are stored again.
fn pause<W: Wait>(rt: &W) {
    AtomicU64::new(0).park_timeout(rt, 0, Duration::from_millis(PAUSE));
}
