//! What takes orders: each is tested, answered and carried out, and parked requests are settled.

ghost use Rattle.std.specs.Prelude.{◌≡◌, ◌≤◌, ◌<◌, ◌+◌, ◌↔◌, [], true, length, IfOk, IsSome};
ghost use Rattle.fl_waiting.specs.Circle.{closes_circle};
ghost use Rattle.fl_core.specs.State.{State, opening, snapshot_of};
ghost use Rattle.fl_core.specs.Effects.{replied, recorded};
ghost use Rattle.fl_core.specs.Replies.{taken_reply};
ghost use Rattle.fl_counter.specs.Tolds.{HasRoom, own_replies};
ghost use Rattle.fl_core.specs.Step.{next, replies, ChangesNothing};
ghost use Rattle.fl_waiting.specs.Waiting.{is_waiting, AllWait, AreApart};
ghost use Rattle.fl_order.specs.Order.{only_reads};
ghost use Rattle.fl_marks.specs.Conflict.{IsLawful};

use crate::parts::Parts;
use fl_circle::close_circle;
use fl_counter::Tolds;
use fl_dir::Dir;
use fl_marks::{Key, Kind, Range};
use fl_order::{Answer, Errno, NoMemory, Op, Order, Told};
use fl_ranges::Table;
use fl_waiting::{MOST_PARKED, Parked, Rules};
use std::alloc::Global;
use std::marker::Model;

/// The directory, the locks, and the parked requests. Contracts see them as a `Snapshot`. Each parked request
/// has to wait, behind those before it, and there are at most as many as the rules allow.
pub struct Core {
    pub(crate) parts: Parts,
}

impl Model for Core {
    ghost use Rattle.std.specs.Prelude.{◌≤◌, length};
    ghost use Rattle.fl_core.specs.State.{Snapshot};
    ghost use Rattle.fl_core.specs.Codes.{snapshot_code};
    ghost use Rattle.fl_waiting.specs.Waiting.{AllWait, AreApart};

    ghost Value = { Snapshot };

    ghost coded = { snapshot_code };

    ghost view = { λ c. c.parts };

    ghost invariant = { λ c. AllWait c.parts.rules c.parts.marking c.parts.view.parked × AreApart c.parts.view.parked
        × (length c.parts.view.parked ≤ c.parts.rules.parked) };
}

impl Drop for Core {
    // One call: with a derived one, whoever owns a core would prove a step for each vector in it.
    fn drop(self) {
        let Core { parts: _parts } = self;
    }
}

impl Core {
    /// No files and no locks. Requests will wait by these rules.
    pub fn new(alloc: Global, rules: Rules) -> Result<Core, NoMemory>
        ensures opening { IfOk result (λ s. s ≡ snapshot_of (opening rules)) }
        ensures lawful { IfOk result (λ s. IsLawful s.marking) }
    {
        let parts = Parts::new(alloc, rules)?;
        Ok(Core { parts })
    }

    /// The same core once more. It fails only if memory runs out.
    pub fn try_clone(&self, alloc: Global) -> Result<Core, NoMemory>
        ensures { IfOk result (λ core. core ≡ self.now) }
    {
        let parts = self.parts.try_clone(alloc)?;
        Ok(Core { parts })
    }

    /// Answers an order, makes its change, and answers parked requests until each waits. It leaves the replies in
    /// `tolds`, in the place of those before; its room stays.
    pub fn step(&mut self, order: &Order, tolds: &mut Tolds)
        requires { HasRoom self.old.rules tolds.old }
        ensures replies { tolds.new.told ≡ replies self.old order.now }
        ensures few { length tolds.new.told ≤ self.old.rules.parked + 1 }
        ensures room { tolds.new.room ≡ tolds.old.room }
        ensures next { self.new ≡ next self.old order.now }
        ensures rules { self.new.rules ≡ self.old.rules }

        // A state that the core stands for goes the same way by the order and its replies alone.
        ensures recorded { (s : State) → snapshot_of s ≡ self.old →
            snapshot_of (recorded (replied order.now tolds.new.told) s) ≡ self.new }
        ensures an_error_changes_nothing { ChangesNothing self.old order.now tolds.new.told self.new }
        ensures lawful { IsLawful self.old.marking → IsLawful self.new.marking }
        ensures waiting { AllWait self.new.rules self.new.marking self.new.view.parked }
        ensures apart { AreApart self.new.view.parked }
    {
        tolds.clear();
        if self.parts.parked.has(order.unique) {
            tell(order, &refusal(order), tolds);
            return;
        }
        let (own, touched) = self.parts.take(order);
        tell(order, &own, tolds);
        let touched = self.parts.end(order, &own, touched.if_done(&own), tolds);
        self.parts.settle(touched, tolds);
    }

    /// What an order that only reads, GETLK or GETATTR, is answered; none for any other.
    pub fn answer(&self, order: &Order) -> Option<Result<Answer, Errno>>
        ensures reads { IsSome result ↔ (only_reads order.now.op ≡ true) }

        // `step` would answer the same, and change nothing.
        ensures replies { IsSome result → replies self.now order.now ≡ own_replies order.now result }
        ensures unchanged { IsSome result → next self.now order.now ≡ self.now }
    {
        let result = self.parts.read(order)?;
        if self.parts.parked.has(order.unique) {
            return Some(Err(Errno::EINVAL));
        }
        Some(result)
    }

    /// Whether a request for this lock would close a circle of owners who wait for each other, if it waited: an owner
    /// in its way waits for the owner who asks, through others or not. Requests for whole-file locks never do.
    pub fn circle(&self, key: &Key, range: &Range, kind: Kind) -> bool
        ensures { result ≡ closes_circle self.now.rules self.now.marking self.now.view.parked
            (record { key = key.now; start = range.now.start; end = range.now.end; kind = kind }) }
    {
        let parts = &self.parts;
        close_circle(&parts.parked, parts.rules, &parts.locks, key, range, kind)
    }

    /// The most replies that one order gives by its rules: its own, and one to each request that may be parked.
    pub fn most_tolds(&self) -> usize
        ensures is { result ≡ self.now.rules.parked + 1 }
        ensures any_rules { result ≤ MOST_PARKED + 1 }
    {
        self.parts.rules.parked as usize + 1
    }

    /// The locks that are held.
    pub fn table(&self) -> &Table
        ensures { result.now.marking ≡ self.now.marking }
    {
        &self.parts.locks
    }

    /// The requests that wait, the oldest first.
    pub fn parked(&self) -> &Parked
        ensures { result.now ≡ self.now.view.parked }
    {
        &self.parts.parked
    }

    /// Names, nodes and open files.
    pub fn directory(&self) -> &Dir
        ensures { result.now ≡ self.now.view.directory }
    {
        &self.parts.directory
    }

    /// By which rules requests wait.
    pub fn rules(&self) -> Rules
        ensures { result ≡ self.now.rules }
    {
        self.parts.rules
    }

    /// Whether a request of this owner for a record lock is parked.
    pub fn is_waiting(&self, owner: u64) -> bool
        ensures { result ≡ is_waiting owner self.now.view.parked }
    {
        self.parts.parked.has_wish_of(owner)
    }
}

// What an order is answered whose unique is that of a parked request.
fn refusal(order: &Order) -> Option<Result<Answer, Errno>>
    ensures { result ≡ taken_reply order.now.op }
{
    match order.op {
        Op::Forget(_) => None,
        _ => Some(Err(Errno::EINVAL)),
    }
}

// Tells an order its own reply, if it has one.
fn tell(order: &Order, own: &Option<Result<Answer, Errno>>, tolds: &mut Tolds)
    requires none { tolds.old.told ≡ [] }
    requires room { 0 < tolds.old.room }
    ensures told { tolds.new.told ≡ own_replies order.now own.now }
    ensures room { tolds.new.room ≡ tolds.old.room }
{
    if let Some(result) = own {
        tolds.push(Told {
            unique: order.unique,
            result: *result,
        });
    }
}
