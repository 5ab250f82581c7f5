//! Parked requests, answered once locks have changed.

ghost use Rattle.std.specs.Prelude.{◌≡◌, ◌≤◌, ◌+◌, ◌++◌, false, None, Some, MatchOption, List, [], length};
ghost use Rattle.std.specs.List.{AllByRecursion};
ghost use Rattle.fl_marks.specs.Conflict.{IsLawful, SameElsewhere};
ghost use Rattle.fl_waiting.specs.LockRequest.{key_of, mark_of, stroke_of};
ghost use Rattle.fl_core.specs.Inside.Touched.{concerns_request, touched_if_done, OthersWait};
ghost use Rattle.fl_core.specs.declared.settling.Touched.TheVariants as touched;
ghost use Rattle.fl_core.specs.Settling.{granted_told, marking_granted, oldest_free, present, settled};
ghost use Rattle.fl_waiting.specs.Waiting.{conflicts_with_held, AreApart};
ghost use Rattle.fl_waiting.specs.declared.parked.Request.{Request};

use crate::locking::{conflicts_with_held, set_range};
use fl_counter::Tolds;
use fl_marks::Class;
use fl_order::{Answer, Errno, LockAsk, Told};
use fl_ranges::Table;
use fl_waiting::lock_request::key_of;
use fl_waiting::{Claim, Parked, Rules};

/// Which locks may have gone, so that parked requests for them may be free.
#[derive(Clone, Copy)]
pub(crate) enum Touched {
    Nothing,
    /// Locks of one class on a node.
    OfClass(u64, Class),
    /// Locks of both classes on a node.
    OfNode(u64),
    /// Any lock.
    Anything,
}

impl Touched {
    /// Locks of the class and node that a request asks for.
    pub(crate) fn of_ask(node: u64, ask: &LockAsk) -> Touched
        ensures { result ≡ touched.OfClass node (key_of node ask.now).class }
    {
        Touched::OfClass(node, key_of(node, ask).class)
    }

    /// What an order with this answer touched; `self` is what it touches if it is done.
    pub(crate) fn if_done(self, own: &Option<Result<Answer, Errno>>) -> Touched
        ensures { result ≡ touched_if_done own.now self }
    {
        match own {
            Some(Ok(_)) => self,
            _ => Touched::Nothing,
        }
    }
}

/// Grants waiting requests, oldest first, until all that are left are blocked. It tests only those for locks that were
/// touched.
pub(crate) fn settle(
    rules: Rules,
    locks: &mut Table,
    parked: &mut Parked,
    touched: Touched,
    tolds: &mut Tolds,
)
    requires limit { locks.old.limit ≡ rules.runs }
    requires others { OthersWait touched rules locks.old.marking parked.old }
    requires room { length tolds.old.told + length parked.old ≤ tolds.old.room }
    ensures tolds { tolds.new.told ≡ tolds.old.told ++ (settled rules (present locks.old.marking parked.old)).tolds }
    ensures present { present locks.new.marking parked.new
        ≡ (settled rules (present locks.old.marking parked.old)).present }
    ensures few { length tolds.new.told + length parked.new ≤ length tolds.old.told + length parked.old }
    ensures room { tolds.new.room ≡ tolds.old.room }
    ensures apart { AreApart parked.old → AreApart parked.new }
    ensures lawful { IsLawful locks.old.marking → IsLawful locks.new.marking }
    ensures limit { locks.new.limit ≡ rules.runs }
{
    if !may_concern(touched, parked) {
        return;
    }
    while let Some(claim) = take_free(rules, locks, parked, touched) {
        tolds.push(grant(locks, &claim));
    }
}

// Whether locks were touched that a request waits for. It may give false positives, never false negatives.
fn may_concern(touched: Touched, parked: &Parked) -> bool
    ensures { result ≡ false → AllByRecursion (λ (r : Request). concerns_request touched r ≡ false) parked.now }
{
    match touched {
        Touched::Nothing => false,
        Touched::OfClass(node, _) | Touched::OfNode(node) => parked.may_be_on(node),
        Touched::Anything => true,
    }
}

// Takes out the oldest request that doesn't wait.
fn take_free(rules: Rules, locks: &Table, parked: &mut Parked, touched: Touched) -> Option<Claim>
    requires { OthersWait touched rules locks.now.marking parked.old }
    ensures { MatchOption result
        ((oldest_free rules locks.now.marking parked.old ≡ None) × (parked.new ≡ parked.old))
        (λ taken. oldest_free rules locks.now.marking parked.old ≡ Some (taken.request, parked.new)) }
{
    parked.take_free(rules, |claim| {
        concerns(touched, claim) && !in_conflict(locks, claim)
    })
}

// The request's lock is set if there is room.
fn grant(locks: &mut Table, claim: &Claim) -> Told
    requires { conflicts_with_held locks.old.marking (stroke_of claim.now.request.node claim.now.request.ask)
        (mark_of claim.now.request.ask) ≡ false }
    ensures told { result ≡ granted_told locks.old.limit locks.old.marking claim.now.request }
    ensures marking { locks.new.marking ≡ marking_granted locks.old.limit locks.old.marking claim.now.request }
    ensures elsewhere { SameElsewhere claim.now.key locks.old.marking locks.new.marking }
    ensures lawful { IsLawful locks.old.marking → IsLawful locks.new.marking }
    ensures limit { locks.new.limit ≡ locks.old.limit }
{
    Told {
        unique: claim.request.unique,
        result: set_range(locks, &claim.key, &claim.range, claim.mark),
    }
}

fn concerns(touched: Touched, claim: &Claim) -> bool
    ensures { result ≡ concerns_request touched claim.now.request }
{
    let key = &claim.key;
    match touched {
        Touched::Nothing => false,
        Touched::OfClass(node, class) => key.class == class && key.node == node,
        Touched::OfNode(node) => key.node == node,
        Touched::Anything => true,
    }
}

// Whether a lock that is held blocks a request.
fn in_conflict(locks: &Table, claim: &Claim) -> bool
    ensures { result ≡ conflicts_with_held locks.now.marking (stroke_of claim.now.request.node claim.now.request.ask)
        (mark_of claim.now.request.ask) }
{
    conflicts_with_held(locks, &claim.key, &claim.range, claim.mark)
}
