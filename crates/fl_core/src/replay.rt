//! Recorded orders, carried out again by their replies.

ghost use Rattle.std.specs.Prelude.{◌≡◌, ◌≤◌, ◌&&◌, ◌++◌, ◌∷◌, [], true, false, nat_le, not, length, Some, None, Ok};
ghost use Rattle.fl_core.specs.Effects.{at_once, locked, made};
ghost use Rattle.fl_counter.specs.Tolds.{HasRoom, own_replies};
ghost use Rattle.fl_core.specs.Step.{next, replies};
ghost use Rattle.fl_order.specs.declared.told.Answer.{Answer};
ghost use Rattle.fl_marks.specs.Change.{after_changes};
ghost use Rattle.fl_waiting.specs.LockRequest.{is_malformed};
ghost use Rattle.fl_waiting.specs.Waiting.{is_parked};

use crate::locking::set_range;
use crate::parts::Parts;
use crate::state::Core;
use fl_counter::Tolds;
use fl_order::{Answer, Errno, LockAsk, Op, Order};
use fl_ranges::Table;
use fl_waiting::lock_request::{key_of, mark_of, range_of};
use fl_waiting::{Claim, Parked, Request, Rules};

impl Core {
    /// Carries out an order that was told this itself, a reply or none yet, and nobody else anything, when `step` took
    /// it in this state. A lock is set or taken away and a request is parked with no test, and an error changes
    /// nothing. `tolds` is room for what an order is told that has to be tested again; what it has afterwards is left
    /// open.
    pub fn replay(
        &mut self,
        order: &Order,
        reply: &Option<Result<Answer, Errno>>,
        tolds: &mut Tolds,
    )
        requires alone { replies self.old order.now ≡ own_replies order.now reply.now }
        requires room { HasRoom self.old.rules tolds.old }
        ensures next { self.new ≡ next self.old order.now }
        ensures room { tolds.new.room ≡ tolds.old.room }
    {
        if !self.parts.replay(order, reply) {
            self.step(order, tolds);
        }
    }
}

impl Parts {
    // Makes the change of an order that was told this, if that can be done with no test. Says whether it was.
    fn replay(&mut self, order: &Order, reply: &Option<Result<Answer, Errno>>) -> bool
        ensures made { result ≡ true → self.new ≡ made (at_once order.now reply.now) self.old }
        ensures few { result ≡ true → length self.old.view.parked ≤ self.old.rules.parked →
            length self.new.view.parked ≤ self.old.rules.parked }
        ensures not_made { result ≡ false → self.new ≡ self.old }
    {
        if let Some(Err(_)) = reply {
            return true;
        }
        if self.parked.has(order.unique) {
            return false;
        }
        match reply {
            Some(_) => self.set_again(order),
            None => self.park_again(order),
        }
    }

    // Sets the lock that was granted to an order.
    fn set_again(&mut self, order: &Order) -> bool
        requires fresh { is_parked order.now.unique self.old.view.parked ≡ false }
        ensures made { result ≡ true
            → (answer : Answer) → self.new ≡ made (at_once order.now (Some (Ok answer))) self.old }
        ensures parked { self.new.view.parked ≡ self.old.view.parked }
        ensures not_made { result ≡ false → self.new ≡ self.old }
    {
        match &order.op {
            Op::Setlk(ask) | Op::Setlkw(ask) => restore(&mut self.locks, order.node, ask),
            _ => false,
        }
    }

    // Parks the request of an order that got no reply.
    fn park_again(&mut self, order: &Order) -> bool
        requires fresh { is_parked order.now.unique self.old.view.parked ≡ false }
        ensures made { result ≡ true → self.new ≡ made (at_once order.now None) self.old }
        ensures few { result ≡ true → length self.new.view.parked ≤ self.old.rules.parked }
        ensures not_made { result ≡ false → self.new ≡ self.old }
    {
        let Op::Setlkw(ask) = order.op else {
            return false;
        };
        let request = Request {
            unique: order.unique,
            node: order.node,
            ask,
        };
        park(self.rules, &mut self.parked, request)
    }
}

// Sets the lock that was asked for, or takes it away, and tests no conflict. Says whether there was room.
fn restore(locks: &mut Table, node: u64, ask: &LockAsk) -> bool
    ensures set { result ≡ true
        → (answer : Answer) → locks.new.marking ≡ after_changes (locked node ask.now (Ok answer)) locks.old.marking }
    ensures full { result ≡ false → locks.new.marking ≡ locks.old.marking }
    ensures limit { locks.new.limit ≡ locks.old.limit }
{
    match range_of(ask) {
        Some(range) => set_range(locks, &key_of(node, ask), &range, mark_of(ask)).is_ok(),
        None => false,
    }
}

// Parks a request behind the others, whatever blocks it. Says whether there was room.
pub(crate) fn park(rules: Rules, parked: &mut Parked, request: Request) -> bool
    ensures fits { result ≡ (not (is_malformed request.ask) && not (nat_le rules.parked (length parked.old))) }
    ensures parks { result ≡ true → parked.new ≡ parked.old ++ request ∷ [] }
    ensures few { result ≡ true → length parked.new ≤ rules.parked }
    ensures full { result ≡ false → parked.new ≡ parked.old }
{
    let Some(range) = range_of(&request.ask) else {
        return false;
    };
    if parked.is_full(rules) {
        return false;
    }
    parked.push(Claim {
        request,
        key: key_of(request.node, &request.ask),
        range,
        mark: mark_of(&request.ask),
    });
    true
}
