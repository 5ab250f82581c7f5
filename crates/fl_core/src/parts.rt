//! What a core consists of, and what an order changes in it before parked requests are settled.

ghost use Rattle.std.specs.Prelude.{◌≡◌, ◌≤◌, ◌↔◌, ◌+◌, ◌++◌, min, true, false, length, IfOk, IsSome};
ghost use Rattle.std.specs.List.{AllByRecursion};
ghost use Rattle.fl_core.specs.Effects.{by_reply, flushed, listing_replied, released, made};
ghost use Rattle.fl_core.specs.Inside.Parts.{left_by, with_parked};
ghost use Rattle.fl_core.specs.Inside.Touched.{SameOff, OthersWait};
ghost use Rattle.fl_core.specs.Replies.{directory_reply, ended_by, file_reply, reply_to};
ghost use Rattle.fl_core.specs.State.{opening, snapshot_of};
ghost use Rattle.fl_core.specs.Step.{settling, with_present};
ghost use Rattle.fl_waiting.specs.Waiting.{is_parked, AllWait, AreApart};
ghost use Rattle.fl_dir.specs.Changes.{after_close};
ghost use Rattle.fl_order.specs.Order.{only_reads};
ghost use Rattle.fl_marks.specs.Change.{after_changes};
ghost use Rattle.fl_marks.specs.Conflict.{IsLawful, SameElsewhere, SameOffNode};
ghost use Rattle.fl_marks.specs.declared.lock.Class.TheVariants.{Record};

use crate::ending::{end_all, ending_of};
use crate::locking::{release_locks, set_lock, set_or_wait, test_lock, unlock};
use crate::settling::{Touched, settle};
use fl_counter::Tolds;
use fl_dir::Dir;
use fl_marks::Class;
use fl_order::{Answer, Errno, NoMemory, Op, Order};
use fl_ranges::Table;
use fl_waiting::{Parked, Rules};
use std::alloc::Global;
use std::marker::Model;

/// The directory (names, nodes and open files), the locks that are held, and the parked requests. Contracts see a
/// `Snapshot`.
#[derive(Drop)]
pub(crate) struct Parts {
    pub rules: Rules,
    pub directory: Dir,
    pub locks: Table,
    pub parked: Parked,
}

impl Model for Parts {
    ghost use Rattle.std.specs.Prelude.{◌≡◌};
    ghost use Rattle.fl_core.specs.Kept.{IsRuled};
    ghost use Rattle.fl_core.specs.State.{Snapshot};
    ghost use Rattle.fl_core.specs.Codes.{snapshot_code};

    ghost Value = { Snapshot };

    ghost coded = { snapshot_code };

    ghost view = { λ p.
        record {
          rules = p.rules;
          view = record { directory = p.directory; parked = p.parked };
          marking = p.locks.marking;
        } };

    ghost invariant = { λ p. (p.locks.limit ≡ p.rules.runs) × IsRuled p.rules p.directory };
}

impl Parts {
    /// No files, no locks, and no request waits.
    pub(crate) fn new(alloc: Global, rules: Rules) -> Result<Parts, NoMemory>
        ensures opening { IfOk result (λ p. p ≡ snapshot_of (opening rules)) }
        ensures lawful { IfOk result (λ p. IsLawful p.marking) }
    {
        Ok(Parts {
            rules,
            directory: Dir::new(alloc, rules.files, rules.open_files)?,
            locks: Table::new(alloc, rules.runs, chains_for(rules.files))?,
            parked: Parked::new(alloc)?,
        })
    }

    /// The same once more.
    pub(crate) fn try_clone(&self, alloc: Global) -> Result<Parts, NoMemory>
        ensures { IfOk result (λ p. p ≡ self.now) }
    {
        Ok(Parts {
            rules: self.rules,
            directory: self.directory.try_clone(alloc)?,
            locks: self.locks.try_clone(alloc)?,
            parked: self.parked.try_clone(alloc)?,
        })
    }

    /// What an order is answered that only reads; none for any other.
    pub(crate) fn read(&self, order: &Order) -> Option<Result<Answer, Errno>>
        ensures reads { IsSome result ↔ (only_reads order.now.op ≡ true) }
        ensures reply { IsSome result →
            result ≡ reply_to self.now.rules self.now.view self.now.marking order.now order.now.op }
    {
        match &order.op {
            Op::Getattr => Some(self.directory.getattr(order.node)),
            Op::Getlk(ask) => Some(test_lock(&self.directory, &self.locks, order.node, ask)),
            _ => None,
        }
    }

    /// The order's own reply, if it has one now, with its change made. Beside it, which locks may have gone by that.
    pub(crate) fn take(&mut self, order: &Order) -> (Option<Result<Answer, Errno>>, Touched)
        requires { is_parked order.now.unique self.old.view.parked ≡ false }
        ensures reply { result.0 ≡ reply_to self.old.rules self.old.view self.old.marking order.now order.now.op }
        ensures changed { self.new ≡ made (by_reply order.now result.0) self.old }
        ensures lawful { IsLawful self.old.marking → IsLawful self.new.marking }
        ensures elsewhere { SameOff result.1 self.old.marking self.new.marking }
    {
        let node = order.node;
        match &order.op {
            Op::Release { fh, drop, owner } => {
                let own = self.release(node, *fh, *drop, *owner);
                (Some(own), Touched::OfNode(node))
            }
            Op::Flush { fh, owner } => {
                let own = self.flush(node, *fh, *owner);
                (Some(own), Touched::OfClass(node, Class::Record))
            }
            Op::Getlk(ask) => {
                let own = test_lock(&self.directory, &self.locks, node, ask);
                (Some(own), Touched::Nothing)
            }
            Op::Setlk(ask) => {
                let own = set_lock(&self.directory, &mut self.locks, node, ask);
                (Some(own), Touched::of_ask(node, ask))
            }
            Op::Setlkw(ask) => {
                let own = set_or_wait(
                    self.rules,
                    &self.directory,
                    &mut self.locks,
                    &mut self.parked,
                    order.unique,
                    node,
                    ask,
                );
                (own, Touched::of_ask(node, ask))
            }
            Op::Interrupt(unique) if self.parked.has(*unique) => (None, Touched::Nothing),
            Op::Interrupt(_) => (Some(Err(Errno::EAGAIN)), Touched::Nothing),
            _ => (in_directory(&mut self.directory, order), Touched::Nothing),
        }
    }

    /// Ends the parked requests which the order ends, by what it was answered itself, and tells them. Gives what was
    /// touched then, if the order's own change touched this.
    pub(crate) fn end(
        &mut self,
        order: &Order,
        own: &Option<Result<Answer, Errno>>,
        touched: Touched,
        tolds: &mut Tolds,
    ) -> Touched
        requires { length tolds.old.told + length self.old.view.parked ≤ tolds.old.room }
        ensures tolds { tolds.new.told ≡ tolds.old.told ++ ended_by self.old.view.parked order.now.op own.now }
        ensures parked { self.new ≡ with_parked (left_by self.old.view.parked order.now.op own.now) self.old }
        ensures few { length tolds.new.told + length self.new.view.parked
            ≤ length tolds.old.told + length self.old.view.parked }
        ensures room { tolds.new.room ≡ tolds.old.room }

        // Only parked requests for locks which were touched can be free now, if that was so.
        ensures others { OthersWait touched self.old.rules self.old.marking self.old.view.parked →
            OthersWait result self.new.rules self.new.marking self.new.view.parked }
    {
        let Some(ending) = ending_of(order, own) else {
            return touched;
        };
        let ended = end_all(&mut self.parked, ending, tolds);
        if self.rules.fair && ended {
            return Touched::Anything;
        }
        touched
    }

    /// Answers parked requests until each waits, if an order touched these locks.
    pub(crate) fn settle(&mut self, touched: Touched, tolds: &mut Tolds)
        requires others { OthersWait touched self.old.rules self.old.marking self.old.view.parked }
        requires room { length tolds.old.told + length self.old.view.parked ≤ tolds.old.room }
        ensures tolds { tolds.new.told ≡ tolds.old.told ++ (settling self.old).tolds }
        ensures present { self.new ≡ with_present (settling self.old).present self.old }
        ensures few { length tolds.new.told + length self.new.view.parked
            ≤ length tolds.old.told + length self.old.view.parked }
        ensures room { tolds.new.room ≡ tolds.old.room }
        ensures lawful { IsLawful self.old.marking → IsLawful self.new.marking }
        ensures apart { AreApart self.old.view.parked → AreApart self.new.view.parked }
    {
        settle(
            self.rules,
            &mut self.locks,
            &mut self.parked,
            touched,
            tolds,
        );
    }

    // FUSE_FLUSH: the owner's record locks on the node go.
    fn flush(&mut self, node: u64, fh: u64, owner: u64) -> Result<Answer, Errno>
        ensures reply { result ≡ file_reply self.old.view.directory node fh }
        ensures rules { self.new.rules ≡ self.old.rules }
        ensures view { self.new.view ≡ self.old.view }
        ensures marking { self.new.marking ≡ after_changes (flushed node owner result) self.old.marking }
        ensures lawful { IsLawful self.old.marking → IsLawful self.new.marking }
        ensures elsewhere { SameElsewhere (record { class = Record; node = node; owner = owner })
            self.old.marking self.new.marking }
    {
        if self.directory.node_of(fh) != Some(node) {
            return Err(Errno::EBADF);
        }
        unlock(&mut self.locks, Class::Record, node, owner);
        Ok(Answer::Done)
    }

    // FUSE_RELEASE: the fh is closed, with `drop` the owner's whole-file lock goes, and with the last fh all locks of
    // the node.
    fn release(&mut self, node: u64, fh: u64, drop: bool, owner: u64) -> Result<Answer, Errno>
        ensures reply { result ≡ file_reply self.old.view.directory node fh }
        ensures rules { self.new.rules ≡ self.old.rules }
        ensures view { self.new.view
            ≡ record self.old.view { directory = after_close self.old.view.directory node fh result } }
        ensures marking { self.new.marking
            ≡ after_changes (released node fh drop owner result self.old.view.directory) self.old.marking }
        ensures lawful { IsLawful self.old.marking → IsLawful self.new.marking }
        ensures elsewhere { SameOffNode node self.old.marking self.new.marking }
    {
        let closed = self.directory.close(node, fh)?;
        release_locks(&mut self.locks, node, drop, owner, closed.last);
        Ok(Answer::Done)
    }
}

// As many chains for rows of locks as there may be files, but 256 to 32,768, so that rows of other files cost nothing.
fn chains_for(files: u32) -> u32
    requires { files ≤ 65536 }
    ensures some { 256 ≤ result }
    ensures enough { min files 32768 ≤ result }
    ensures few { result ≤ 32768 }
{
    files.next_power_of_two().clamp(256, 32_768)
}

// The own reply of an order that goes to the directory alone, with its change made; none of any other, or of a FORGET.
fn in_directory(directory: &mut Dir, order: &Order) -> Option<Result<Answer, Errno>>
    ensures reply { result ≡ directory_reply directory.old order.now order.now.op }
    ensures listing { directory.new ≡ listing_replied order.now result directory.old }
{
    let (node, uid, gid) = (order.node, order.uid, order.gid);
    Some(match &order.op {
        Op::Lookup(name) => directory.lookup(node, name),
        Op::Forget(n) => {
            directory.forget(node, *n);
            return None;
        }
        Op::Getattr => directory.getattr(node),
        Op::Mknod { mode, name } => directory.mknod(node, uid, gid, *mode, name),
        Op::Mkdir { mode, name } => directory.mkdir(node, uid, gid, *mode, name),
        Op::Unlink(name) => directory.unlink(node, name),
        Op::Rmdir(name) => directory.rmdir(node, name),
        Op::Open => directory.open(node),
        Op::Create { excl, mode, name } => directory.create(node, uid, gid, *excl, *mode, name),
        _ => return None,
    })
}
