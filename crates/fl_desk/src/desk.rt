//! The desk: takes orders one after another, and keeps their history.

ghost use Rattle.std.specs.Prelude.{◌≡◌, ◌≤◌, ◌+◌, ◌++◌, [], length, IfOk, IsOk, OnOk, OnErr, IsTrue};
ghost use mathlib.Core.List.{IsPrefix};
ghost use Rattle.fl_desk.specs.Replay.{state_after};
ghost use Rattle.fl_core.specs.Arenas.{AreLinked, Hold};
ghost use Rattle.fl_core.specs.State.{opening, snapshot_of};
ghost use Rattle.fl_core.specs.Step.{next, replies_in};
ghost use Rattle.fl_counter.specs.Tolds.{HasRoom};
ghost use Rattle.fl_counter.specs.Answered.{step_lines};
ghost use Rattle.fl_desk.specs.Legal.{IsLegal, LeavesLawful};
ghost use Rattle.fl_desk.specs.Kept.{IsKept, opening_book};
ghost use Rattle.fl_desk.specs.Pieces.{IsPiece};
ghost use Rattle.fl_waiting.specs.Waiting.{is_parked};

use crate::drafting::draft_head;
use fl_core::{Arenas, Core, Rules, Tolds};
use fl_history::{History, Journal, Lines};
use fl_order::{NoMemory, Order, Told};
use std::alloc::Global;
use std::marker::Model;

/// A desk that takes orders one after another, and keeps their history where its journal puts the lines: in memory,
/// if nothing else is said. Contracts see it as a `Book`: its lines, those that its journal stored, what is there
/// now, and for how many more lines there is room.
pub struct Desk<J: Journal = Lines> {
    journal: J,
    present: Core,
}

impl<J: Journal> Model for Desk<J> {
    ghost use Rattle.fl_desk.specs.Kept.{Book, IsKept};
    ghost use Rattle.fl_desk.specs.Pieces.{IsPiece};
    ghost use Rattle.fl_desk.specs.BookCode.{book_code};

    ghost Value = { Book };

    ghost coded = { book_code };

    ghost view = { λ d. record {
      lines = J.lines d.journal;
      stored = J.stored d.journal;
      present = d.present;
      room = J.room d.journal;
    } };

    ghost invariant = { λ d. IsKept (J.lines d.journal) d.present
        × IsPiece d.present.rules (J.lines d.journal) (J.piece d.journal) };
}

impl<J: Journal + Drop> Drop for Desk<J> {
    // One call for an owner, and not a step for each part.
    fn drop(self) {
        let Desk {
            journal: _journal,
            present: _present,
        } = self;
    }
}

impl<J: Journal> Desk<J> {
    /// A desk that has taken no order, whose lines go to this journal, which has none so far. Requests will wait by
    /// these rules. If it is refused, the journal is dropped.
    pub fn over(alloc: Global, journal: J, rules: Rules) -> Result<Desk<J>, NoMemory>
    where
        J: Drop,
        requires none { J.lines journal ≡ [] }
        requires piece { J.piece journal ≡ [] }
        ensures lines { IfOk result (λ desk. desk.lines ≡ []) }
        ensures present { IfOk result (λ desk. desk.present ≡ snapshot_of (opening rules)) }
        ensures stored { IfOk result (λ desk. desk.stored ≡ J.stored journal) }
        ensures room { IfOk result (λ desk. desk.room ≡ J.room journal) }
    {
        let present = Core::new(alloc, rules)?;
        Ok(Desk { journal, present })
    }

    /// A desk that goes on behind the lines of a journal, from what is there after them.
    pub fn resume(journal: J, present: Core) -> Desk<J>
        requires kept { IsKept (J.lines journal) present }
        requires piece { J.piece journal ≡ J.lines journal }
        ensures lines { result.lines ≡ J.lines journal }
        ensures stored { result.stored ≡ J.stored journal }
        ensures present { result.present ≡ present }
        ensures room { result.room ≡ J.room journal }
    {
        Desk { journal, present }
    }

    /// Makes room for the lines of one order by its rules, its own and one for each reply: 258 by the standard rules.
    /// The next `take` succeeds, and takes no memory. A refusal changes no line, and doesn't come if there is that
    /// room.
    pub fn ready(&mut self) -> Result<(), NoMemory>
        ensures same { (self.new.lines ≡ self.old.lines) × (self.new.present ≡ self.old.present) }
        ensures stored { IsPrefix self.old.stored self.new.stored }
        ensures room { OnOk result (self.old.present.rules.parked + 2 ≤ self.new.room) }
        ensures succeeds { self.old.present.rules.parked + 2 ≤ self.old.room → IsOk result }
    {
        let count = self.present.most_tolds() + 1;
        self.journal.reserve(count)
    }

    /// The most replies that it gives to one order, by its rules: the order's own, and one to each request that may be
    /// parked.
    pub fn most_tolds(&self) -> usize
        ensures { result ≡ self.now.present.rules.parked + 1 }
    {
        self.present.most_tolds()
    }

    /// What is there now.
    pub fn present(&self) -> &Core
        ensures is { result.now ≡ self.now.present }
        ensures kept { IsKept self.now.lines self.now.present }
    {
        &self.present
    }

    /// Whether a request of this unique is parked.
    pub fn has_parked(&self, unique: u64) -> bool
        ensures parked { result ≡ is_parked unique self.now.present.view.parked }
        ensures kept { IsKept self.now.lines self.now.present }
    {
        self.present.parked().has(unique)
    }

    /// The arenas that hold what is there.
    pub fn arenas(&self) -> Arenas<'_>
        ensures hold { Hold result self.now.present }
        ensures linked { AreLinked result }
    {
        self.present.arenas()
    }

    /// Takes an order of a worker: records it, answers it, and hands out the replies that it records. A refusal
    /// changes nothing, and doesn't come if there is room for the lines of one order by its rules, which `ready`
    /// makes.
    pub fn take(&mut self, worker: u32, order: &Order, tolds: &mut Tolds) -> Result<(), NoMemory>
        requires { HasRoom self.old.present.rules tolds.old }
        ensures replies { OnOk result
            (tolds.new.told ≡ replies_in (state_after self.old.present.rules self.old.lines) order.now) }
        ensures few { OnOk result (length tolds.new.told ≤ self.old.present.rules.parked + 1) }
        ensures room { tolds.new.room ≡ tolds.old.room }
        ensures lines { OnOk result (self.new.lines ≡ self.old.lines ++ step_lines worker order.now tolds.new.told) }
        ensures next { OnOk result (self.new.present ≡ next self.old.present order.now) }
        ensures rules { self.new.present.rules ≡ self.old.present.rules }
        ensures refused { OnErr result
            ((self.new.lines ≡ self.old.lines) × (self.new.present ≡ self.old.present) × (tolds.new ≡ tolds.old)) }
        ensures succeeds { self.old.present.rules.parked + 2 ≤ self.old.room → IsOk result }
        ensures stored { IsPrefix self.old.stored self.new.stored }
        ensures kept { IsKept self.new.lines self.new.present }
    {
        let Desk { journal, present } = self;
        journal.reserve(present.most_tolds() + 1)?;
        present.step(order, tolds);
        append(journal, worker, order, tolds.as_slice());
        Ok(())
    }

    /// Stores all lines, and says whether it did. Neither lines nor what is there change.
    pub fn store_all(&mut self) -> bool
        ensures lines { self.new.lines ≡ self.old.lines }
        ensures present { self.new.present ≡ self.old.present }
        ensures stored { IsPrefix self.old.stored self.new.stored }
        ensures all { IsTrue result → self.new.stored ≡ self.new.lines }
        ensures infallible { IsTrue J.infallible → IsTrue result }
    {
        self.journal.store_all()
    }

    /// Stores all lines if they must be stored before replies leave, and says whether that is so. Neither lines nor
    /// what is there change.
    pub fn store_if_due(&mut self) -> bool
        ensures lines { self.new.lines ≡ self.old.lines }
        ensures present { self.new.present ≡ self.old.present }
        ensures stored { IsPrefix self.old.stored self.new.stored }
        ensures all { IsTrue result → self.new.stored ≡ self.new.lines }
    {
        self.journal.store_if_due()
    }

    /// Begins a new piece, if its journal says that one is due: tells a head of what is there, behind which the next
    /// lines go. If the journal doesn't take all of it, they go where the last ones went. It takes no memory.
    pub fn turn(&mut self)
        ensures lines { self.new.lines ≡ self.old.lines }
        ensures present { self.new.present ≡ self.old.present }
        ensures stored { IsPrefix self.old.stored self.new.stored }
        ensures room { self.old.room ≤ self.new.room }
    {
        let Desk { journal, present } = self;
        let Some(lines) = journal.due() else {
            return;
        };
        if !journal.begin_piece() {
            return;
        }
        let whole = draft_head(journal, present, lines);
        journal.end_piece(whole);
    }

    /// Its journal, with the lines of all that it took. They are legal under its rules, and no two owners have
    /// conflicting locks after them. The piece at hand tells the same.
    pub fn into_journal(self) -> J
        ensures lines { J.lines result ≡ self.lines }
        ensures stored { J.stored result ≡ self.stored }
        ensures legal { IsLegal self.present.rules (J.lines result) }
        ensures lawful { LeavesLawful self.present.rules (J.lines result) }
        ensures piece { IsPiece self.present.rules (J.lines result) (J.piece result) }
    {
        let Desk {
            journal,
            present: _,
        } = self;
        journal
    }
}

impl Desk {
    /// A desk that has taken no order. Requests will wait by these rules.
    pub fn new(alloc: Global, rules: Rules) -> Result<Desk, NoMemory>
        ensures { IfOk result (λ desk. desk ≡ opening_book rules) }
    {
        Desk::over(alloc, Lines::new(alloc), rules)
    }

    /// The history of all that it took. It is legal under its rules, and no two owners have conflicting locks after
    /// it.
    pub fn into_history(self) -> History
        ensures lines { result ≡ self.lines }
        ensures legal { IsLegal self.present.rules result }
        ensures lawful { LeavesLawful self.present.rules result }
    {
        let journal = self.into_journal();
        History::of(journal)
    }
}

// Adds an order and its replies to the lines.
#[tactic(auto, using(crate::proofs::Prefixes::of_itself, crate::proofs::Prefixes::of_another))]
fn append<J: Journal>(journal: &mut J, worker: u32, order: &Order, tolds: &[Told])
    requires { 1 + length tolds.now ≤ J.room journal.old }
    ensures lines { J.lines journal.new ≡ J.lines journal.old ++ step_lines worker order.now tolds.now }
    ensures piece { J.piece journal.new ≡ J.piece journal.old ++ step_lines worker order.now tolds.now }
    ensures stored { IsPrefix (J.stored journal.old) (J.stored journal.new) }
{
    journal.push_asked(worker, order);
    for told in tolds {
        journal.push_told(told);
    }
}
