//! A vector in chunks of one size, which never moves what it holds.

ghost use Rattle.std.specs.Prelude.{◌≡◌, ◌+◌, ◌^◌, ◌<◌, ◌≤◌, ◌++◌, ◌∷◌, [], length, take, drop, Some, IsOk, IfOk, OnOk};
ghost use Rattle.std.specs.Prelude.{OnErr};
ghost use Rattle.std.specs.List.{slice_get};

use std::alloc::{AllocError, Global};
use std::marker::Model;

// How many items a chunk has room for.
const CHUNK: usize = 4096;

// There are fewer items than this.
const MOST: usize = 1 << 63;

// Items in room for `CHUNK` of them. Contracts see their list.
#[derive(Debug, Drop)]
struct Chunk<T: Copy> {
    items: Vec<T>,
}

impl<T: Copy> Model for Chunk<T> {
    ghost use Rattle.std.specs.Prelude.{List, ◌≤◌, vec_capacity};
    ghost use Rattle.fl_history.specs.declared.chunks.TheConstants.{CHUNK};

    ghost Value = { List T };

    ghost view = { λ c. c.items.items };

    ghost invariant = { λ c. CHUNK ≤ vec_capacity c.items };
}

impl<T: Copy> Chunk<T> {
    fn new(alloc: Global) -> Result<Self, AllocError>
        ensures { IfOk result (λ chunk. chunk ≡ []) }
    {
        Ok(Chunk {
            items: Vec::with_capacity(alloc, CHUNK)?,
        })
    }

    fn push(&mut self, item: T)
        requires { length self.old < CHUNK }
        ensures { self.new ≡ self.old ++ item ∷ [] }
    {
        self.items.push_reserved(item);
    }

    fn get(&self, at: usize) -> T
        requires { at < length self.now }
        ensures { slice_get self.now at ≡ Some result }
    {
        self.items[at]
    }
}

/// A vector that grows by chunks, so that no growth copies what it holds. Contracts see its items, and for how many
/// more memory is there.
#[derive(Debug, Drop)]
pub(crate) struct ChunkedVec<T: Copy> {
    chunks: Vec<Chunk<T>>,
    len: usize,
    capacity: usize,
}

impl<T: Copy> Model for ChunkedVec<T> {
    ghost use Rattle.std.specs.Prelude.{◌-◌};
    ghost use Rattle.fl_history.specs.Stock.{Stock};
    ghost use Rattle.fl_history.specs.Inside.Chunks.{joined, IsStocked};
    ghost use Rattle.fl_history.specs.declared.chunks.TheConstants.{CHUNK};

    ghost Value = { Stock T };

    ghost view = { λ v. record { items = joined v.chunks.items; room = v.capacity - v.len } };

    ghost invariant = { λ v. IsStocked CHUNK v.chunks.items v.len v.capacity };
}

impl<T: Copy> ChunkedVec<T> {
    /// Nothing, and no memory for anything.
    pub(crate) fn new(alloc: Global) -> Self
        ensures { result ≡ record { items = []; room = 0 } }
    {
        ChunkedVec {
            chunks: Vec::new(alloc),
            len: 0,
            capacity: 0,
        }
    }

    /// How many items it has.
    pub(crate) fn len(&self) -> usize
        ensures len { result ≡ length self.now.items }
        ensures few { result < 2 ^ 63 }
    {
        self.len
    }

    /// The item at this place, from 0.
    pub(crate) fn get(&self, at: usize) -> T
        requires { at < length self.now.items }
        ensures { slice_get self.now.items at ≡ Some result }
    {
        self.chunks[at / CHUNK].get(at % CHUNK)
    }

    /// Makes room for so many items more. A refusal changes no item.
    pub(crate) fn reserve(&mut self, count: usize) -> Result<(), AllocError>
        ensures items { self.new.items ≡ self.old.items }
        ensures room { OnOk result (count ≤ self.new.room) }
        ensures grows { self.old.room ≤ self.new.room }
        ensures succeeds { count ≤ self.old.room → IsOk result }
    {
        while self.capacity - self.len < count {
            self.grow()?;
        }
        Ok(())
    }

    // One chunk more.
    fn grow(&mut self) -> Result<(), AllocError>
        ensures items { self.new.items ≡ self.old.items }
        ensures room { OnOk result (self.new.room ≡ self.old.room + CHUNK) }
        ensures refused { OnErr result (self.new.room ≡ self.old.room) }
    {
        if self.capacity >= MOST - CHUNK {
            return Err(AllocError);
        }
        let chunk = Chunk::new(*self.chunks.allocator())?;
        self.chunks.push(chunk)?;
        self.capacity += CHUNK;
        Ok(())
    }

    /// One item more, after the others.
    pub(crate) fn push(&mut self, item: T)
        requires { 0 < self.old.room }
        ensures items { self.new.items ≡ self.old.items ++ item ∷ [] }
        ensures room { self.new.room + 1 ≡ self.old.room }
    {
        self.chunks[self.len / CHUNK].push(item);
        self.len += 1;
    }

    /// More items, after the others.
    pub(crate) fn extend_from_slice(&mut self, more: &[T])
        requires { length more.now ≤ self.old.room }
        ensures items { self.new.items ≡ self.old.items ++ more.now }
        ensures room { self.new.room + length more.now ≡ self.old.room }
    {
        for &item in more {
            self.push(item);
        }
    }

    /// Copies the items from a place on, as many as there is room for.
    pub(crate) fn copy_from(&self, start: usize, out: &mut [T])
        requires { start + length out.old ≤ length self.now.items }
        ensures { out.new ≡ take (length out.old) (drop start self.now.items) }
    {
        // Here the proof learns that there are fewer items than numbers.
        let _ = &self.len;
        for i in 0..out.len() {
            out[i] = self.get(start + i);
        }
    }
}
