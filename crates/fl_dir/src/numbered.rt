//! Values under numbers that only grow.
ghost use Rattle.std.specs.Prelude.{◌≡◌, ◌+◌, ◌-◌, ◌≤◌, ◌^◌, ℕ, None, Some, IfOk, IsSome, length, true, false};
ghost use Rattle.std.specs.FinMap as map;
ghost use Rattle.std.specs.Option.{option_copied};
ghost use Rattle.std.specs.Borrow.{Lends, sem};
ghost use Rattle.std.specs.Int.{IsPowerOfTwo};
ghost use Rattle.std.specs.Int.Bits.{bit_and};
ghost use Rattle.fl_arena.specs.Chains.{IsLinked};
ghost use Rattle.fl_dir.specs.Arenas.{values_on};
ghost use Rattle.fl_dir.specs.Inside.Numbers.{has_place, is_full, with_value, IsHome};
ghost use Rattle.fl_dir.specs.Inside.Spread.{IsSpread};

use crate::chain::{push, put, seek, take_out, value_at};
use fl_arena::Arena;
use fl_order::NoMemory;
use std::alloc::Global;
use std::marker::Model;

/// Values, each under a number that is given once. Contracts see the values by number, the number that comes next,
/// and how many values there may be.
#[derive(Drop)]
pub(crate) struct Numbered<T: Copy> {
    // A number stands on the chain that its low bits say, those of this mask. Numbers rise along a chain.
    entries: Arena<(u64, T)>,
    mask: usize,
    next: u64,
}

impl<T: Copy> Model for Numbered<T> {
    ghost use Rattle.fl_dir.specs.Arenas.{values_on};
    ghost use Rattle.fl_dir.specs.Inside.Numbers.{Numbers, numbers_code, AreNumbered};

    ghost Value = { Numbers T };

    ghost coded = { numbers_code T.code };

    ghost view = { λ n. record { values = values_on n.entries; next = n.next; limit = n.entries.slots } };

    ghost invariant = { λ n. AreNumbered n.entries n.mask n.next };
}

/// How many chains there are for so many values: a power of two, at least so many and at least 256.
pub(crate) fn chains_for(limit: usize) -> usize
    requires { limit ≤ 2 ^ 16 }
    ensures power { IsPowerOfTwo result }
    ensures enough { limit ≤ result }
    ensures least { 256 ≤ result }
    ensures most { result ≤ 2 ^ 16 }
{
    limit.next_power_of_two().clamp(256, 65_536)
}

/// The chain of a number or a hash: its low bits.
pub(crate) fn chain_of(number: u64, mask: usize) -> usize
    ensures { result ≡ bit_and number mask }
{
    (number & mask as u64) as usize
}

impl<T: Copy> Numbered<T> {
    ghost use Rattle.fl_dir.specs.contracts.numbered.Numbered.{the_row};

    /// No value, and room for so many; the first gets this number.
    pub(crate) fn new(alloc: Global, limit: usize, first: u64) -> Result<Numbered<T>, NoMemory>
        requires { limit ≤ 2 ^ 16 }
        ensures { IfOk result (λ made. made ≡ record { values = map.empty; next = first; limit = limit }) }
    {
        let chains = chains_for(limit);
        Ok(Numbered {
            entries: Arena::new(alloc, chains, limit)?,
            mask: chains - 1,
            next: first,
        })
    }

    /// The same once more.
    pub(crate) fn try_clone(&self, alloc: Global) -> Result<Numbered<T>, NoMemory>
        ensures { IfOk result (λ made. made ≡ self.now) }
    {
        Ok(Numbered {
            entries: self.entries.try_clone(alloc)?,
            mask: self.mask,
            next: self.next,
        })
    }

    /// The value of a number.
    pub(crate) fn get(&self, number: u64) -> Option<&T>
        ensures { option_copied result ≡ map.get self.now.values number }
    {
        value_at(&self.entries, chain_of(number, self.mask), number)
    }

    /// The value of a number that has one.
    pub(crate) fn at(&self, number: u64) -> &T
        requires { IsSome (map.get self.now.values number) }
        ensures { map.get self.now.values number ≡ Some result.now }
    {
        match self.get(number) {
            None => unreachable!(),
            Some(value) => value,
        }
    }

    /// The arena that holds the values, each under its number, and how many chains it has.
    pub(crate) fn arena(&self) -> (&Arena<(u64, T)>, usize)
        ensures values { values_on result.0.now ≡ self.now.values }
        ensures home { IsHome result.0.now self.now }
        ensures spread { IsSpread result.0.now self.now.values }
        ensures chains { result.1 ≡ length result.0.now.chains }
        ensures linked { IsLinked result.0.now }
    {
        self.entries.keeps_links();
        (&self.entries, self.mask + 1)
    }

    /// The number that comes next.
    pub(crate) fn next(&self) -> u64
        ensures { result ≡ self.now.next }
    {
        self.next
    }

    /// Whether so many values are there as there may be, or all numbers are given.
    pub(crate) fn is_full(&self) -> bool
        ensures { result ≡ is_full self.now }
    {
        self.entries.free() == 0 || self.next == u64::MAX
    }

    /// How many more values there may be.
    pub(crate) fn free(&self) -> usize
        ensures { result ≡ self.now.limit - map.len self.now.values }
    {
        self.entries.free()
    }

    /// Puts a value under the next number, which it tells.
    pub(crate) fn push(&mut self, value: T) -> u64
        requires { is_full self.old ≡ false }
        ensures number { result ≡ self.old.next }
        ensures above { (q : ℕ) → self.old.next ≤ q → map.get self.old.values q ≡ None }
        ensures after { self.new ≡ record self.old {
          values = map.insert self.old.values self.old.next value;
          next = self.old.next + 1;
        } }
    {
        let number = self.next;
        let chain = chain_of(number, self.mask);
        push(&mut self.entries, chain, number, value);
        self.next += 1;
        number
    }

    /// This number comes next. Only `put` fills those between.
    pub(crate) fn skip_to(&mut self, number: u64)
        requires { self.old.next ≤ number }
        ensures { self.new ≡ record self.old { next = number } }
    {
        self.next = number;
    }

    /// Whether a number that was given before can have a value again: it has none, and there is room.
    pub(crate) fn has_place(&self, number: u64) -> bool
        ensures { result ≡ has_place self.now number }
    {
        if number >= self.next {
            return false;
        }
        match self.get(number) {
            Some(_) => false,
            None => self.entries.free() != 0,
        }
    }

    /// Puts a value under a number that was given before.
    pub(crate) fn put(&mut self, number: u64, value: T)
        requires { has_place self.old number ≡ true }
        ensures fresh { map.get self.old.values number ≡ None }
        ensures after { self.new ≡ with_value self.old number value }
    {
        let chain = chain_of(number, self.mask);
        put(&mut self.entries, chain, number, value);
    }

    /// The value of a number that has one, to be changed in place.
    pub(crate) fn at_mut(&mut self, number: u64) -> &mut T
        requires { IsSome (map.get self.old.values number) }
        ensures* writes_back { sem 𝓛 (Lends (the_row T.row) T.row self.entry result (with_value self.old number)) }
        ensures value { map.get self.old.values number ≡ Some result.now }
    {
        let cursor = seek(&self.entries, chain_of(number, self.mask), number);
        let entry = self.entries.item_mut(&cursor);
        &mut entry.1
    }

    /// Takes the value of a number away.
    pub(crate) fn remove(&mut self, number: u64)
        requires { IsSome (map.get self.old.values number) }
        ensures { self.new ≡ record self.old { values = map.remove self.old.values number } }
    {
        let chain = chain_of(number, self.mask);
        take_out(&mut self.entries, chain, number);
    }
}
