//! What a worker needs: a counter at which it hands orders in and looks, and a gate, which is called for each.

ghost use Rattle.std.specs.Prelude.{◌≡◌, ◌<◌, ◌≤◌, ℕ, ◌+◌, [], ◌∷◌, true, length, List, Result, IfOk, OnOk, OnErr};
ghost use mathlib.Core.List.{IsPrefix};
ghost use Rattle.fl_counter.specs.Answered.{Answered, AreAnsweredLast, AreBehind, IsAnsweredLast, answered_by};
ghost use Rattle.fl_history.specs.declared.history.Line.{Line};
ghost use Rattle.fl_order.specs.Order.{only_reads};
ghost use Rattle.fl_order.specs.declared.errno.Errno.{Errno};
ghost use Rattle.fl_order.specs.declared.order.Order.{Order};
ghost use Rattle.fl_order.specs.declared.told.Answer.{Answer};

use crate::fault::{HandFault, NoView};
use crate::told_lists::ToldLists;
use crate::tolds::Tolds;
use fl_order::{Answer, Errno, Order};
use std::sync::Wait;

/// Where workers hand in orders, each at its seat.
pub trait Counter {
    /// A worker's place.
    type Seat;

    /// How many orders were taken through a seat.
    ghost count: { Self.Seat → ℕ };

    /// The number of the worker whose place a seat is.
    ghost worker: { Self.Seat → ℕ };

    /// The orders of the seat's worker in the history up to the last that was taken through it, each with its replies.
    ghost answered: { Self.Seat → List Answered };

    /// The longest history that was shown through a seat, or that ends with an order that was taken through it.
    ghost front: { Self.Seat → List Line };

    /// A beginning of the history whose lines are stored, or need not be before replies leave.
    ghost stored: { Self.Seat → List Line };

    /// What an order that only reads is answered after a history.
    ghost shows: { List Line → Order → Result Answer Errno → Type 0 };

    /// How many replies an order may be given.
    ghost most_tolds: { ℕ };

    /// Takes orders one after another, and hands out a list of replies for each that it took: in `lists`, in the place
    /// of those before. `tolds` has room for the replies to one. It may end before it took all, but takes one at least,
    /// or is refused. What is refused is the first order that has no list, and it changes nothing. Each stands in the
    /// history behind all that was taken and shown through the seat before. It comes back when the lines of all that it
    /// took are stored, or need not be. Before it waits for long it sends what is outgoing.
    fn hand_in_all<R: Wait, O: Outgoing>(
        &self,
        rt: &R,
        outgoing: &O,
        seat: &mut Self::Seat,
        orders: &[Order],
        tolds: &mut Tolds,
        lists: &mut ToldLists,
    ) -> Result<(), HandFault>
        requires room { most_tolds ≤ tolds.old.room }
        requires lists { (most_tolds ≤ lists.old.room) × (0 < lists.old.places) }
        ensures room { tolds.new.room ≡ tolds.old.room }
        ensures lists { (lists.new.room ≡ lists.old.room) × (lists.new.places ≡ lists.old.places) }
        ensures own { worker seat.new ≡ worker seat.old }
        ensures count { count seat.new ≡ count seat.old + length lists.new.lists }
        ensures taken { AreAnsweredLast (answered seat.old) orders.now lists.new.lists (answered seat.new) }
        ensures behind { AreBehind (worker seat.old) (front seat.old) orders.now lists.new.lists (front seat.new) }
        ensures stored { 0 < length lists.new.lists
            → answered_by (worker seat.new) (stored seat.new) ≡ answered seat.new }
        ensures no_more { length lists.new.lists ≡ 0 → stored seat.new ≡ stored seat.old }
        ensures some { OnOk result (0 < length orders.now → 0 < length lists.new.lists) }
        ensures refused { OnErr result (length lists.new.lists < length orders.now) };

    /// Takes one order, as `hand_in_all` takes an order that comes alone, and hands out its replies in `tolds`, in the
    /// place of those before. If it is refused, it changes nothing.
    fn hand_in_one<R: Wait, O: Outgoing>(
        &self,
        rt: &R,
        outgoing: &O,
        seat: &mut Self::Seat,
        order: &Order,
        tolds: &mut Tolds,
    ) -> Result<(), HandFault>
        requires { most_tolds ≤ tolds.old.room }
        ensures room { tolds.new.room ≡ tolds.old.room }
        ensures own { worker seat.new ≡ worker seat.old }
        ensures count { OnOk result (count seat.new ≡ count seat.old + 1) }
        ensures taken { OnOk result
            (IsAnsweredLast (answered seat.old) order.now tolds.new.told (answered seat.new)) }
        ensures behind { OnOk result (AreBehind (worker seat.old) (front seat.old) (order.now ∷ [])
            (tolds.new.told ∷ []) (front seat.new)) }
        ensures stored { OnOk result (answered_by (worker seat.new) (stored seat.new) ≡ answered seat.new) }
        ensures refused { OnErr result ((count seat.new ≡ count seat.old) × (answered seat.new ≡ answered seat.old)
            × (front seat.new ≡ front seat.old) × (stored seat.new ≡ stored seat.old)) };

    /// What an order that only reads is answered, without taking it: after a history that has all that was taken and
    /// shown through the seat before, and that is shown now. It waits for nobody.
    fn look(&self, seat: &mut Self::Seat, order: &Order) -> Result<Result<Answer, Errno>, NoView>
        requires { only_reads order.now.op ≡ true }
        ensures own { worker seat.new ≡ worker seat.old }
        ensures kept { (count seat.new ≡ count seat.old) × (answered seat.new ≡ answered seat.old) }
        ensures stored { stored seat.new ≡ stored seat.old }
        ensures front { IsPrefix (front seat.old) (front seat.new) }
        ensures had { IfOk result (λ _.
            IsPrefix (answered seat.old) (answered_by (worker seat.old) (front seat.new))) }
        ensures shown { IfOk result (λ answer. shows (front seat.new) order.now answer) };

    /// Gets ready what looks read, after one for which nothing could be shown. It may wait, and takes memory. It
    /// concerns only what later looks are shown.
    fn warm<R: Wait>(&self, rt: &R, seat: &mut Self::Seat)
        ensures own { worker seat.new ≡ worker seat.old }
        ensures kept { (count seat.new ≡ count seat.old) × (answered seat.new ≡ answered seat.old) }
        ensures stored { stored seat.new ≡ stored seat.old }
        ensures front { front seat.new ≡ front seat.old };

    /// Stores what is held back: a worker has no order at hand, and waits for one. It concerns no seat.
    fn pause<R: Wait>(&self, rt: &R);
}

/// Replies that were collected, to be sent together. No contract speaks of it.
pub trait Outgoing {
    /// Sends them.
    fn send<R: Wait>(&self, rt: &R);
}

/// Nothing is outgoing.
#[derive(Clone, Copy, Debug)]
pub struct NothingOutgoing;

impl Outgoing for NothingOutgoing {
    fn send<R: Wait>(&self, _rt: &R) {}
}

/// A hook, called for each order that a worker took: before one of its batch is handed in or looked for, and after each
/// reply that was given out to be sent. It must not wait for a reply to another order, which may be of the same batch.
pub trait Gate {
    /// An order of this unique is about to be handled.
    fn pass(&self, unique: u64);

    /// A reply of this unique was given out to be sent.
    fn sent(&self, unique: u64);
}

/// A gate that is always open.
#[derive(Clone, Copy, Debug)]
pub struct OpenGate;

impl Gate for OpenGate {
    fn pass(&self, _unique: u64) {}

    fn sent(&self, _unique: u64) {}
}
