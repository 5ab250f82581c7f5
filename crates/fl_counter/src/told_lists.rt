//! The replies to a batch of orders: a list for each.

ghost use Rattle.std.specs.Prelude.{◌≡◌, ◌<◌, ◌≤◌, ◌+◌, ◌↔◌, [], ◌∷◌, ◌++◌, true, Some, length, vec_capacity, IfOk};
ghost use Rattle.std.specs.List.{slice_get};

use fl_order::{NoMemory, Told};
use fl_waiting::Rules;
use std::alloc::Global;
use std::marker::Model;

/// The most orders of a batch.
pub const MOST_IN_BATCH: usize = 16;

/// The replies to a batch of orders that were taken one after another: a list for each of at most 16. Contracts see the
/// lists; for how many replies there is room in all, and for how many more; and for how many lists.
pub struct ToldLists {
    // All replies, in their order.
    tolds: Vec<Told>,
    // Where each list stands among them.
    spans: Vec<Span>,
}

// Where a list stands among all replies.
#[derive(Clone, Copy)]
struct Span {
    start: usize,
    len: usize,
}

impl Model for ToldLists {
    ghost use Rattle.std.specs.Prelude.{◌+◌, ◌-◌, ◌≤◌, All, drop, length, map, take, vec_capacity};
    ghost use Rattle.fl_counter.specs.Lists.{Lists};

    ghost Value = { Lists };

    ghost view = { λ l. record {
      lists = map (λ span. take span.len (drop span.start l.tolds.items)) l.spans.items;
      room = vec_capacity l.tolds;
      free = vec_capacity l.tolds - length l.tolds.items;
      places = vec_capacity l.spans;
    } };

    ghost invariant = { λ l. All (λ span. span.start + span.len ≤ length l.tolds.items) l.spans.items };
}

impl Drop for ToldLists {
    // One call for an owner, and not a step for each part.
    fn drop(self) {
        let ToldLists {
            tolds: _tolds,
            spans: _spans,
        } = self;
    }
}

impl ToldLists {
    /// No lists, with room for those of 16 orders if all but the last have one reply each, and the last has as many as
    /// one may have under these rules.
    pub fn new(alloc: Global, rules: Rules) -> Result<ToldLists, NoMemory>
        ensures none { IfOk result (λ made. made.lists ≡ []) }
        ensures room { IfOk result (λ made. (made.room ≡ rules.parked + 16) × (made.free ≡ made.room)) }
        ensures places { IfOk result (λ made. made.places ≡ 16) }
    {
        Ok(ToldLists {
            tolds: Vec::with_capacity(alloc, rules.parked as usize + MOST_IN_BATCH)?,
            spans: Vec::with_capacity(alloc, MOST_IN_BATCH)?,
        })
    }

    /// How many lists there are.
    pub fn count(&self) -> usize
        ensures { result ≡ length self.now.lists }
    {
        self.spans.len()
    }

    /// The list at this place, from 0.
    pub fn list(&self, place: usize) -> &[Told]
        requires { place < length self.now.lists }
        ensures { slice_get self.now.lists place ≡ Some result.now }
    {
        let Span { start, len } = self.spans[place];
        &self.tolds[start..start + len]
    }

    /// Whether there is room for one more list of so many replies.
    pub fn has_room(&self, most: usize) -> bool
        ensures { (result ≡ true) ↔ ((most ≤ self.now.free) × (length self.now.lists < self.now.places)) }
    {
        most <= self.tolds.capacity() - self.tolds.len() && self.spans.len() < self.spans.capacity()
    }

    /// Forgets all lists. The room stays.
    pub fn clear(&mut self)
        ensures none { self.new.lists ≡ [] }
        ensures room { (self.new.room ≡ self.old.room) × (self.new.free ≡ self.old.room) }
        ensures places { self.new.places ≡ self.old.places }
    {
        self.tolds.clear();
        self.spans.clear();
    }

    /// One list more, behind the others.
    pub fn push(&mut self, list: &[Told])
        requires room { length list.now ≤ self.old.free }
        requires place { length self.old.lists < self.old.places }
        ensures lists { self.new.lists ≡ self.old.lists ++ list.now ∷ [] }
        ensures room { (self.new.room ≡ self.old.room) × (self.new.free + length list.now ≡ self.old.free) }
        ensures places { self.new.places ≡ self.old.places }
    {
        let ToldLists { tolds, spans } = self;
        let start = tolds.len();
        copy_to(tolds, list);
        spans.push_reserved(Span {
            start,
            len: list.len(),
        });
    }
}

// Puts these replies behind the others.
fn copy_to(tolds: &mut Vec<Told>, list: &[Told])
    requires { length tolds.old.items + length list.now ≤ vec_capacity tolds.old }
    ensures items { tolds.new.items ≡ tolds.old.items ++ list.now }
    ensures room { vec_capacity tolds.new ≡ vec_capacity tolds.old }
{
    for told in list {
        tolds.push_reserved(*told);
    }
}
