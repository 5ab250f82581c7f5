//! Parked requests, in the order of asking.

ghost use Rattle.std.specs.Prelude.{◌≡◌, ◌==◌, ◌↔◌, ◌≤◌, ◌<◌, ◌%◌, ◌++◌, ◌∷◌, [], nat_le, Bool, true, false, None};
ghost use Rattle.std.specs.Prelude.{Some, IfOk, MatchOption, length, map, take};
ghost use Rattle.std.specs.List.{list_any, AllByRecursion};
ghost use Rattle.fl_arena.specs.Chains.{items, IsLinked};
ghost use Rattle.fl_arena.specs.Cursors.{Tests, cursor_at};
ghost use Rattle.fl_waiting.specs.Inside.Claims.{requests_of, ruled, IsFirstBehind};
ghost use Rattle.fl_waiting.specs.Waiting.{older_blocks, is_blocked_by_older, is_parked, passes_free, taken_behind};
ghost use Rattle.fl_waiting.specs.Waiting.{taken_first, wishes};
ghost use Rattle.fl_waiting.specs.Wanted.{meant};
ghost use Rattle.fl_waiting.specs.declared.claim.Claim.{Claim};
ghost use Rattle.fl_waiting.specs.declared.parked.Request.{Request};

use crate::claim::Claim;
use crate::rules::Rules;
use crate::wanted::{Wanted, older_blocks, wanted_of};
use fl_arena::{Arena, Cursor};
use fl_marks::{Key, Kind, Range};
use fl_order::{LockAsk, NoMemory};
use std::alloc::{AllocError, Global};
use std::marker::Model;

/// The most parked requests that rules may allow.
pub const MOST_PARKED: usize = 1024;

const BUCKETS: usize = 256;

/// A parked lock request: the unique of its order, and what it asks on which node.
#[derive(Clone, Copy, Debug, PartialEq, Eq)]
pub struct Request {
    /// The unique of its order.
    pub unique: u64,
    /// The node whose bytes it asks for.
    pub node: u64,
    /// What it asks.
    pub ask: LockAsk,
}

/// Parked requests, the oldest first. Contracts see their list.
#[derive(Drop)]
pub struct Parked {
    pub(crate) claims: Arena<Claim>,
    // No parked request has a greater unique. Those of a kernel rise, so that a new one is past all.
    greatest: u64,
    // How many wait on the nodes whose number has this remainder modulo 256.
    on_nodes: [u16; BUCKETS],
}

impl Model for Parked {
    ghost use Rattle.std.specs.Prelude.{◌≡◌, List, length};
    ghost use Rattle.fl_arena.specs.Chains.{items};
    ghost use Rattle.fl_waiting.specs.declared.parked.Request.{Request};
    ghost use Rattle.fl_waiting.specs.declared.parked.TheConstants.{MOST_PARKED};
    ghost use Rattle.fl_waiting.specs.Inside.Claims.{requests_of};
    ghost use Rattle.fl_waiting.specs.Inside.Counts.{AreUpTo, AreCounted};

    ghost Value = { List Request };

    ghost view = { λ p. requests_of p.claims };

    ghost invariant = { λ p. (length p.claims.chains ≡ 1) × (p.claims.slots ≡ MOST_PARKED)
        × AreUpTo p.greatest (requests_of p.claims) × AreCounted p.on_nodes (requests_of p.claims) };
}

impl Parked {
    /// No request waits.
    pub fn new(alloc: Global) -> Result<Parked, NoMemory>
        ensures { IfOk result (λ parked. parked ≡ []) }
    {
        Ok(Parked {
            claims: Arena::new(alloc, 1, MOST_PARKED)?,
            greatest: 0,
            on_nodes: [0; BUCKETS],
        })
    }

    /// The same list once more. It fails only if memory runs out.
    pub fn try_clone(&self, alloc: Global) -> Result<Parked, NoMemory>
        ensures { IfOk result (λ parked. parked ≡ self.now) }
    {
        Ok(Parked {
            claims: self.claims.try_clone(alloc)?,
            greatest: self.greatest,
            on_nodes: self.on_nodes,
        })
    }

    /// How many wait.
    pub fn count(&self) -> usize
        ensures is { result ≡ length self.now }
        ensures few { result ≤ MOST_PARKED }
    {
        MOST_PARKED - self.claims.free()
    }

    /// Whether as many wait as these rules allow.
    pub fn is_full(&self, rules: Rules) -> bool
        ensures few { length self.now ≤ MOST_PARKED }
        ensures full { result ≡ nat_le rules.parked (length self.now) }
    {
        rules.parked as usize <= self.count()
    }

    /// Whether none waits.
    pub fn is_empty(&self) -> bool
        ensures few { length self.now ≤ MOST_PARKED }
        ensures empty { result ≡ (length self.now == 0) }
    {
        self.count() == 0
    }

    /// Whether a request of this unique waits.
    pub fn has(&self, unique: u64) -> bool
        ensures found { result ≡ is_parked unique self.now }
        ensures few { length self.now ≤ MOST_PARKED }
    {
        if self.is_empty() || unique > self.greatest {
            return false;
        }
        let cursor = self
            .claims
            .first_where(0, |claim| claim.request.unique == unique);
        self.claims.item(&cursor).is_some()
    }

    /// Whether a request on this node may wait; if none may, none does. One that always says yes meets the clause,
    /// and no test refuses it: it would cost a walk along the parked requests, and change no reply.
    pub fn may_be_on(&self, node: u64) -> bool
        ensures { result ≡ false → AllByRecursion (λ (r : Request). (r.node == node) ≡ false) self.now }
    {
        self.on_nodes[bucket(node)] != 0
    }

    /// A request more, after the others.
    pub fn push(&mut self, claim: Claim)
        requires { length self.old < MOST_PARKED }
        ensures { self.new ≡ self.old ++ claim.request ∷ [] }
    {
        self.greatest = self.greatest.max(claim.request.unique);
        self.on_nodes[bucket(claim.request.node)] += 1;
        let mut end = Cursor {
            chain: 0,
            index: 0,
            slot: None,
        };
        let Ok(()) = self.claims.insert(&mut end, claim) else {
            unreachable!()
        };
    }

    /// Takes out the oldest request that passes the test.
    pub fn take_first<F: Fn(&Claim) -> bool>(&mut self, test: F) -> Option<Claim>
        requires { F.IsAlwaysCallable test }
        ensures { (p : Request → Bool) → Tests F.Fn (λ (claim : Claim). p claim.request) test → MatchOption result
            ((taken_first p self.old ≡ None) × (self.new ≡ self.old))
            (λ taken. taken_first p self.old ≡ Some (taken.request, self.new)) }
    {
        let mut cursor = self.claims.first_where(0, test);
        if self.claims.item(&cursor).is_none() {
            return None;
        }
        let claim = self.claims.remove(&mut cursor);
        self.on_nodes[bucket(claim.request.node)] -= 1;
        Some(claim)
    }

    /// The same of those requests before which, by these rules, no older one goes.
    pub fn take_free<F: Fn(&Claim) -> bool>(&mut self, rules: Rules, test: F) -> Option<Claim>
        requires { F.IsAlwaysCallable test }
        ensures { (p : Request → Bool) → Tests F.Fn (λ (claim : Claim). p claim.request) test → MatchOption result
            ((taken_behind (passes_free rules p) [] self.old ≡ None) × (self.new ≡ self.old))
            (λ taken. taken_behind (passes_free rules p) [] self.old ≡ Some (taken.request, self.new)) }
    {
        if !rules.fair {
            return self.take_first(test);
        }
        let mut cursor = first_free(&self.claims, test);
        if self.claims.item(&cursor).is_none() {
            return None;
        }
        let claim = self.claims.remove(&mut cursor);
        self.on_nodes[bucket(claim.request.node)] -= 1;
        Some(claim)
    }

    /// The requests with the locks that they want, the oldest first. It fails only if memory runs out.
    pub fn claims(&self, alloc: Global) -> Result<Vec<Claim>, AllocError>
        ensures { IfOk result (λ claims. map (λ (claim : Claim). claim.request) claims.items ≡ self.now) }
    {
        copied(alloc, &self.claims)
    }

    /// The arena that holds the requests, the oldest first.
    pub fn arena(&self) -> &Arena<Claim>
        ensures requests { map (λ (claim : Claim). claim.request) (items result.now 0) ≡ self.now }
        ensures one_chain { length result.now.chains ≡ 1 }
        ensures linked { IsLinked result.now }
    {
        self.claims.keeps_links();
        &self.claims
    }

    /// Whether some request goes, under fair rules, before one for this lock which is younger.
    pub fn any_older_blocks(&self, key: &Key, range: &Range, kind: Kind) -> bool
        ensures { result ≡ list_any
            (older_blocks (record { key = key.now; start = range.now.start; end = range.now.end; kind = kind }))
            (wishes self.now) }
    {
        let wanted = Wanted {
            key: *key,
            range: *range,
            kind,
            place: 0,
        };
        let cursor = self
            .claims
            .first_where(0, |claim| any_older_blocks(claim, &wanted));
        self.claims.item(&cursor).is_some()
    }
}

// The claims, the oldest first.
fn copied(alloc: Global, claims: &Arena<Claim>) -> Result<Vec<Claim>, AllocError>
    requires { 0 < length claims.now.chains }
    ensures { IfOk result (λ copies. copies.items ≡ items claims.now 0) }
{
    let mut copies = Vec::new(alloc);
    let mut cursor = claims.cursor(0);
    while let Some(claim) = claims.item(&cursor) {
        copies.push(*claim)?;
        claims.step(&mut cursor);
    }
    Ok(copies)
}

// The first request that passes the test and before which no older one goes, or the end.
fn first_free<F: Fn(&Claim) -> bool>(claims: &Arena<Claim>, test: F) -> Cursor
    requires chain { 0 < length claims.now.chains }
    requires callable { F.IsAlwaysCallable test }
    ensures at { result ≡ cursor_at claims.now 0 result.index }
    ensures first { (p : Request → Bool) → Tests F.Fn (λ (claim : Claim). p claim.request) test →
        IsFirstBehind (passes_free (ruled true) p) (requests_of claims.now) result.index }
{
    let mut cursor = claims.cursor(0);
    while let Some(claim) = claims.item(&cursor) {
        if test(claim) && !is_blocked_by_older(claims, claim, cursor.index) {
            break;
        }
        claims.step(&mut cursor);
    }
    cursor
}

// Whether one of the requests before this place blocks this one.
fn is_blocked_by_older(claims: &Arena<Claim>, claim: &Claim, place: usize) -> bool
    requires chain { 0 < length claims.now.chains }
    requires within { place ≤ length (items claims.now 0) }
    ensures { result ≡ is_blocked_by_older (ruled true) (take place (requests_of claims.now)) claim.now.request }
{
    let Some(mark) = claim.mark else {
        return false;
    };
    let wanted = Wanted {
        key: claim.key,
        range: claim.range,
        kind: mark.kind,
        place: 0,
    };
    let first = claims.first_where(0, |older| any_older_blocks(older, &wanted));
    first.index < place
}

// Whether a request that is older blocks one for this lock.
fn any_older_blocks(older: &Claim, wanted: &Wanted) -> bool
    ensures { result ≡ list_any (older_blocks (meant wanted.now)) (wishes (older.now.request ∷ [])) }
{
    match wanted_of(older) {
        Some(older) => older_blocks(wanted, &older),
        None => false,
    }
}

fn bucket(node: u64) -> usize
    ensures is { result ≡ node % 256 }
    ensures below { result < BUCKETS }
{
    (node % 256) as usize
}
