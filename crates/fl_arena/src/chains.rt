//! The arena.
ghost use Rattle.std.specs.Prelude.{◌≡◌, ◌≢◌, ◌↔◌, ◌+◌, ◌-◌, ◌<◌, ◌≤◌, ◌^◌, ℕ, Bool, [], length, drop, replicate};
ghost use Rattle.std.specs.Prelude.{insert};
ghost use Rattle.std.specs.Prelude.{remove, slice_get, slice_set, Some, IsSome, IsNone, IsErr, OnOk, OnErr, IfOk};
ghost use Rattle.std.specs.Prelude.{IfSome};
ghost use Rattle.std.specs.Option.{option_copied};
ghost use Rattle.std.specs.List.{find, position_or_len};
ghost use Rattle.fl_arena.specs.Chains.{entries, items, slot_at, item_count, free_count, unlinked_count, HasSizeOf, IsLinked};
ghost use Rattle.fl_arena.specs.Cursors.{Tests, cursor_at, IsInPlace, index_of, item_of, with_item};
ghost use Rattle.fl_arena.specs.Cursors.{without, Inserts, Shifts};
ghost use Rattle.fl_arena.specs.Inside.Links.{link_before};

use crate::cursors::{Cursor, Full, Place};
use crate::nodes::{
    Ends, Member, Node, copied, free_nodes, item_at, link_in, link_out, link_over, links_at,
    next_free, slot_number,
};
use std::alloc::{AllocError, Global};
use std::marker::Model;

/// Chains of items over a fixed number of slots, each of which is free or holds one item of one chain.
///
/// Contracts see the entries of each chain in order, an item with its slot each, and the number of
/// slots.
pub struct Arena<T: Copy> {
    nodes: Vec<Node<T>>,
    ends: Vec<Ends>,
    // The first slot of the free list, and how many slots are in it.
    spare: Option<u16>,
    free: usize,
}

impl<T: Copy> Model for Arena<T> {
    ghost use Rattle.fl_arena.specs.Chains.{Chains};

    ghost Value = { Chains T };

    ghost use Rattle.fl_arena.specs.Inside.Links.{Spells, spelled};

    ghost view = { λ a. spelled a.nodes.items a.ends.items };

    ghost invariant = { λ a. Spells a.nodes.items a.ends.items a.spare a.free (spelled a.nodes.items a.ends.items) };
}

impl<T: Copy> Drop for Arena<T> {
    // One call for an owner, and not a step for each vector.
    fn drop(self) {
        let Arena {
            nodes: _nodes,
            ends: _ends,
            spare: _spare,
            free: _free,
        } = self;
    }
}

impl<T: Copy> Arena<T> {
    ghost use Rattle.std.specs.Borrow.{sem};
    ghost use Rattle.fl_arena.specs.Lending.{LendsItem};

    /// An arena of so many empty chains and so many free slots, which are numbered from 0. It fails
    /// only if memory runs out.
    pub fn new(alloc: Global, chains: usize, slots: usize) -> Result<Self, AllocError>
        requires chains { chains ≤ 2 ^ 16 }
        requires slots { slots ≤ 2 ^ 16 }
        ensures empty { IfOk result (λ a. a ≡ record { chains = replicate chains []; slots = slots }) }
        ensures linked { IfOk result (λ a. IsLinked a) }
    {
        let (nodes, spare) = free_nodes(alloc, slots)?;
        let ends = vec![in alloc; Ends::EMPTY; chains]?;
        Ok(Arena {
            nodes,
            ends,
            spare,
            free: slots,
        })
    }

    /// The same arena once more. It fails only if memory runs out.
    pub fn try_clone(&self, alloc: Global) -> Result<Arena<T>, AllocError>
        ensures { IfOk result (λ a. a ≡ self.now) }
    {
        Ok(Arena {
            nodes: copied(alloc, &self.nodes)?,
            ends: Vec::from_slice(alloc, &self.ends)?,
            spare: self.spare,
            free: self.free,
        })
    }

    /// The cursor at the first item of the chain, or at its end.
    pub fn cursor(&self, chain: usize) -> Cursor
        requires { chain < length self.now.chains }
        ensures first { result ≡ cursor_at self.now chain 0 }
        ensures in_range { IfSome result.slot (λ slot. slot < self.now.slots) }
    {
        Cursor {
            chain,
            index: 0,
            slot: self.ends[chain].first,
        }
    }

    /// The cursor at the last item of the chain, or at its end if it has no item.
    pub fn last(&self, chain: usize) -> Cursor
        requires { chain < length self.now.chains }
        ensures last { result ≡ cursor_at self.now chain (length (entries self.now chain) - 1) }
        ensures in_range { IfSome result.slot (λ slot. slot < self.now.slots) }
    {
        let ends = self.ends[chain];
        Cursor {
            chain,
            index: ends.len.saturating_sub(1),
            slot: ends.last,
        }
    }

    /// The item at the cursor, or none at the end.
    pub fn item(&self, cursor: &Cursor) -> Option<&T>
        requires { IsInPlace self.now cursor.now }
        ensures item { option_copied result ≡ item_of self.now cursor.now }
        ensures some { IsSome result ↔ IsSome cursor.now.slot }
        ensures at_index { (c i : ℕ) → cursor.now ≡ cursor_at self.now c i → option_copied result
            ≡ slice_get (items self.now c) i }
    {
        let slot = cursor.slot?;
        Some(item_at(&self.nodes, slot))
    }

    /// The cursor at the first item of the chain that passes the test, or at its end.
    pub fn first_where<F: Fn(&T) -> bool>(&self, chain: usize, test: F) -> Cursor
        requires chain { chain < length self.now.chains }
        requires callable { F.IsAlwaysCallable test }
        ensures chain { result.chain ≡ chain }
        ensures in_place { IsInPlace self.now result }
        ensures first { (p : T → Bool) → Tests F.Fn p test → result
            ≡ cursor_at self.now chain (position_or_len p (items self.now chain)) }
        ensures found { (p : T → Bool) → Tests F.Fn p test → item_of self.now result ≡ find p (items self.now chain) }
    {
        self.next_where(self.cursor(chain), test)
    }

    /// The cursor at the first item that passes the test, of those at a cursor and behind it, or at the end
    /// of its chain.
    pub fn next_where<F: Fn(&T) -> bool>(&self, from: Cursor, test: F) -> Cursor
        requires at { from ≡ cursor_at self.now from.chain from.index }
        requires callable { F.IsAlwaysCallable test }
        ensures chain { result.chain ≡ from.chain }
        ensures in_place { IsInPlace self.now result }
        ensures first { (p : T → Bool) → Tests F.Fn p test → result
            ≡ cursor_at self.now from.chain
            (from.index + position_or_len p (drop from.index (items self.now from.chain))) }
        ensures found { (p : T → Bool) → Tests F.Fn p test → item_of self.now result
            ≡ find p (drop from.index (items self.now from.chain)) }
    {
        let mut cursor = from;
        while let Some(item) = self.item(&cursor) {
            if test(item) {
                break;
            }
            self.step(&mut cursor);
        }
        cursor
    }

    /// A copy of the item at the cursor, or none at the end.
    pub fn get(&self, cursor: &Cursor) -> Option<T>
        requires { IsInPlace self.now cursor.now }
        ensures item { result ≡ item_of self.now cursor.now }
        ensures some { IsSome result ↔ IsSome cursor.now.slot }
        ensures at_index { (c i : ℕ) → cursor.now ≡ cursor_at self.now c i → result ≡ slice_get (items self.now c) i }
    {
        self.item(cursor).copied()
    }

    /// Takes the cursor on to the next item. At the end it stays.
    pub fn step(&self, cursor: &mut Cursor)
        requires { IsInPlace self.now cursor.old }
        ensures on { IsSome cursor.old.slot → cursor.new ≡ cursor_at self.now cursor.old.chain (cursor.old.index + 1) }
        ensures stays { IsNone cursor.old.slot → cursor.new ≡ cursor.old }
        ensures at_index { (c i : ℕ) → IsSome cursor.old.slot → cursor.old ≡ cursor_at self.now c i → cursor.new
            ≡ cursor_at self.now c (i + 1) }
        ensures in_range { IfSome cursor.new.slot (λ slot. slot < self.now.slots) }
    {
        if let Some(slot) = cursor.slot {
            cursor.index += 1;
            cursor.slot = links_at(&self.nodes, slot).1;
        }
    }

    /// Puts another item in place of the one at the cursor.
    pub fn set(&mut self, cursor: &Cursor, item: T)
        requires at_item { IsSome cursor.now.slot }
        requires in_place { IsInPlace self.old cursor.now }
        ensures chains { self.new ≡ with_item self.old cursor.now item }
        ensures items { items self.new cursor.now.chain
            ≡ slice_set (items self.old cursor.now.chain) cursor.now.index item }
        ensures others { (c : ℕ) → c ≢ cursor.now.chain → entries self.new c ≡ entries self.old c }
        ensures size { HasSizeOf self.old self.new }
        ensures linked { IsLinked self.new }
    {
        *self.item_mut(cursor) = item;
    }

    /// The item at the cursor, to be changed in place.
    pub fn item_mut(&mut self, cursor: &Cursor) -> &mut T
        requires at_item { IsSome cursor.now.slot }
        requires in_place { IsInPlace self.old cursor.now }
        ensures* writes_back { sem 𝓛 (LendsItem T.row self.entry cursor.now result) }
        ensures item { item_of self.old cursor.now ≡ Some result.now }
        ensures items { (item : T) → items (with_item self.old cursor.now item) cursor.now.chain
            ≡ slice_set (items self.old cursor.now.chain) cursor.now.index item }
        ensures others { (item : T) (c : ℕ) → c ≢ cursor.now.chain
            → entries (with_item self.old cursor.now item) c ≡ entries self.old c }
        ensures size { (item : T) → HasSizeOf self.old (with_item self.old cursor.now item) }
        ensures linked { (item : T) → IsLinked (with_item self.old cursor.now item) }
    {
        let Some(slot) = cursor.slot else {
            unreachable!()
        };
        self.nodes[usize::from(slot)].item_mut()
    }

    /// Takes the item at the cursor off its chain, and frees its slot. The cursor is then at the next
    /// item.
    pub fn remove(&mut self, cursor: &mut Cursor) -> T
        requires at_item { IsSome cursor.old.slot }
        requires in_place { IsInPlace self.old cursor.old }
        ensures value { slice_get (items self.old cursor.old.chain) cursor.old.index ≡ Some result }
        ensures chains { self.new ≡ without self.old cursor.old.chain cursor.old.index }
        ensures items { items self.new cursor.old.chain ≡ remove (items self.old cursor.old.chain) cursor.old.index }
        ensures others { (c : ℕ) → c ≢ cursor.old.chain → entries self.new c ≡ entries self.old c }
        ensures size { HasSizeOf self.old self.new }
        ensures cursor { cursor.new ≡ cursor_at self.new cursor.old.chain cursor.old.index }
        ensures linked { IsLinked self.new }
    {
        let Some(slot) = cursor.slot else {
            unreachable!()
        };
        let (before, after) = links_at(&self.nodes, slot);
        let item = *item_at(&self.nodes, slot);
        let ends = self.ends[cursor.chain];
        link_out(&mut self.nodes, slot, (before, after), self.spare);
        self.ends[cursor.chain] = ends.without(before, after);
        self.spare = Some(slot);
        self.free += 1;
        cursor.slot = after;
        item
    }

    /// Puts an item before the cursor, which then stands at it. At the end of a chain, the item becomes
    /// the last. A refusal changes neither the arena nor the cursor.
    pub fn insert(&mut self, cursor: &mut Cursor, item: T) -> Result<(), Full>
        requires chain { cursor.old.chain < length self.old.chains }
        requires in_place { IsInPlace self.old cursor.old }
        ensures full { IsErr result ↔ (free_count self.old ≡ 0) }
        ensures ok { OnOk result (Inserts self.old self.new cursor.old cursor.new item) }
        ensures items { OnOk result (items self.new cursor.old.chain
            ≡ insert (items self.old cursor.old.chain) (index_of self.old cursor.old) item) }
        ensures others { (c : ℕ) → c ≢ cursor.old.chain → entries self.new c ≡ entries self.old c }
        ensures size { HasSizeOf self.old self.new }
        ensures cursor { OnOk result (cursor.new ≡ cursor_at self.new cursor.old.chain (index_of self.old cursor.old)) }
        ensures at_index { (c i : ℕ) → cursor.old ≡ cursor_at self.old c i
            → OnOk result (items self.new c ≡ insert (items self.old c) i item) }
        ensures err { OnErr result (self.new ≡ self.old) }
        ensures err_cursor { OnErr result (cursor.new ≡ cursor.old) }
        ensures linked { IsLinked self.new }
    {
        let Some(slot) = self.spare else {
            return Err(Full);
        };
        let ends = self.ends[cursor.chain];
        let (previous, index) = self.spot_before(cursor);
        let member = Member {
            chain: cursor.chain as u16,
            previous,
            next: cursor.slot,
            item,
        };
        self.spare = next_free(&self.nodes, slot);
        self.free -= 1;
        link_in(&mut self.nodes, slot, member);
        self.ends[cursor.chain] = ends.with(member.previous, member.next, slot);
        cursor.index = index;
        cursor.slot = Some(slot);
        Ok(())
    }

    /// Takes the item at the first cursor off its chain, and puts it before the second one, on another
    /// chain. It stays in its slot. The first cursor is then at the next item, and the second at the one that
    /// was moved.
    pub fn shift(&mut self, from: &mut Cursor, to: &mut Cursor)
        requires at_item { IsSome from.old.slot }
        requires from { IsInPlace self.old from.old }
        requires chain { to.old.chain < length self.old.chains }
        requires to { IsInPlace self.old to.old }
        requires apart { from.old.chain ≢ to.old.chain }
        ensures chains { Shifts self.old self.new from.old to.old }
        ensures left { items self.new from.old.chain ≡ remove (items self.old from.old.chain) from.old.index }
        ensures joined { (item : T) → slice_get (items self.old from.old.chain) from.old.index ≡ Some item
            → items self.new to.old.chain ≡ insert (items self.old to.old.chain) (index_of self.old to.old) item }
        ensures others { (c : ℕ) → c ≢ from.old.chain → c ≢ to.old.chain → entries self.new c ≡ entries self.old c }
        ensures size { HasSizeOf self.old self.new }
        ensures free { free_count self.new ≡ free_count self.old }
        ensures from_cursor { from.new ≡ cursor_at self.new from.old.chain from.old.index }
        ensures to_cursor { to.new ≡ cursor_at self.new to.old.chain (index_of self.old to.old) }
        ensures slot { to.new.slot ≡ from.old.slot }
        ensures at_index { (c i : ℕ) (item : T) → to.old ≡ cursor_at self.old c i
            → slice_get (items self.old from.old.chain) from.old.index ≡ Some item
            → items self.new c ≡ insert (items self.old c) i item }
        ensures linked { IsLinked self.new }
    {
        let Some(slot) = from.slot else {
            unreachable!()
        };
        let (before, after) = links_at(&self.nodes, slot);
        let (previous, index) = self.spot_before(to);
        let next = to.slot;
        link_over(
            &mut self.nodes,
            slot,
            (before, after),
            to.chain as u16,
            (previous, next),
        );
        self.ends[from.chain] = self.ends[from.chain].without(before, after);
        self.ends[to.chain] = self.ends[to.chain].with(previous, next, slot);
        from.slot = after;
        to.index = index;
        to.slot = Some(slot);
    }

    // The slot before the cursor, and the index that it stands at.
    fn spot_before(&self, cursor: &Cursor) -> (Option<u16>, usize)
        requires chain { cursor.now.chain < length self.now.chains }
        requires in_place { IsInPlace self.now cursor.now }
        ensures previous { result.0 ≡ link_before (entries self.now cursor.now.chain) (index_of self.now cursor.now) }
        ensures index { result.1 ≡ index_of self.now cursor.now }
    {
        match cursor.slot {
            Some(slot) => (links_at(&self.nodes, slot).0, cursor.index),
            None => {
                let ends = self.ends[cursor.chain];
                (ends.last, ends.len)
            }
        }
    }

    /// How many slots hold no item.
    pub fn free(&self) -> usize
        ensures total { item_count self.now + result ≡ self.now.slots }
        ensures unlinked { result ≡ unlinked_count self.now }
        ensures linked { IsLinked self.now }
    {
        self.free
    }

    /// What each arena keeps, whatever was done with it. It changes nothing: whoever lends an arena calls it, to
    /// promise the same.
    pub fn keeps_links(&self)
        ensures { IsLinked self.now }
    {
        // A proof learns what a type keeps where a field is read.
        let _free = self.free;
    }

    /// Where the slot is. This walks along its chain.
    pub fn place(&self, slot: usize) -> Place
        requires { slot < self.now.slots }
        ensures on { (c i : ℕ) → (result ≡ Place.On c i) ↔ (slot_at self.now c i ≡ Some slot) }
        ensures free { result ≡ Place.Free → 0 < free_count self.now }
    {
        match self.nodes[slot].chain() {
            None => Place::Free,
            Some(chain) => {
                let chain = usize::from(chain);
                Place::On(chain, self.index_on(chain, slot))
            }
        }
    }

    // The index of a slot on the chain that it is on.
    fn index_on(&self, chain: usize, slot: usize) -> usize
        requires { (i : ℕ) × (slot_at self.now chain i ≡ Some slot) }
        ensures { slot_at self.now chain result ≡ Some slot }
    {
        let mut cursor = self.cursor(chain);
        while let Some(found) = cursor.slot {
            if usize::from(found) == slot {
                return cursor.index;
            }
            self.step(&mut cursor);
        }
        unreachable!()
    }

    /// The slot of the item at an index of a chain, or none past the last. This walks along the chain.
    pub fn slot_at(&self, chain: usize, index: usize) -> Option<usize>
        requires { chain < length self.now.chains }
        ensures slot { result ≡ slot_at self.now chain index }
        ensures in_range { IfSome result (λ slot. slot < self.now.slots) }
    {
        let mut cursor = self.cursor(chain);
        while cursor.index < index && cursor.slot.is_some() {
            self.step(&mut cursor);
        }
        slot_number(cursor.slot)
    }
}
