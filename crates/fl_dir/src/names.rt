//! Names, and the numbers of the nodes that are linked under them.
ghost use Rattle.std.specs.Prelude.{◌≡◌, ◌+◌, ◌≤◌, ◌<◌, ◌^◌, ℕ, [], replicate, length, Some, None, IfOk, IsSome};
ghost use Rattle.std.specs.Int.Bits.{bit_and};
ghost use Rattle.fl_arena.specs.Chains.{item_count};
ghost use Rattle.fl_dir.specs.Directory.{is_named, is_reserved};
ghost use Rattle.fl_dir.specs.Inside.Kept.{hash_of};
ghost use Rattle.fl_dir.specs.Inside.Spread.{at, AreSorted, IsAltered};

use crate::chain::{push, put, take_out};
use crate::node::Node;
use crate::numbered::{chain_of, chains_for};
use fl_arena::Arena;
use fl_order::{Name, NoMemory};
use std::alloc::Global;

// No file can have this name.
pub(crate) fn is_reserved(name: &Name) -> bool
    ensures { result ≡ is_reserved name.now }
{
    let bytes = name.as_bytes();
    bytes.is_empty()
        || bytes == b".".as_slice()
        || bytes == b"..".as_slice()
        || bytes.contains(&b'/')
}

/// Whether a node is linked under this name.
pub(crate) fn is_named(node: &Node, name: &Name) -> bool
    ensures { result ≡ is_named node.now name.now }
{
    node.linked && node.name == *name
}

/// A hash of the name, which spreads names over chains (FNV-1a, 32 bits). It is no defence: names that collide are
/// easy to find, and make orders slower.
pub(crate) fn hash_of(name: &Name) -> u32
    ensures { result ≡ hash_of name.now }
{
    let bytes = name.as_bytes();
    let mut hash = 2_166_136_261u32;
    for byte in bytes {
        hash = (hash ^ u32::from(*byte)).wrapping_mul(16_777_619);
    }
    hash
}

/// The numbers of the linked nodes, by the hashes of their names.
#[derive(Drop)]
pub(crate) struct Names {
    // A number and its hash stand on the chain that the hash's low bits say, those of the mask.
    pub(crate) entries: Arena<(u64, u32)>,
    pub(crate) mask: usize,
}

impl Names {
    /// No name, and room for so many.
    pub(crate) fn new(alloc: Global, limit: usize) -> Result<Names, NoMemory>
        requires { limit ≤ 2 ^ 16 }
        ensures { IfOk result (λ n.
            n.entries ≡ record { chains = replicate (n.mask + 1) []; slots = limit }) }
    {
        let chains = chains_for(limit);
        Ok(Names {
            entries: Arena::new(alloc, chains, limit)?,
            mask: chains - 1,
        })
    }

    /// The same once more.
    pub(crate) fn try_clone(&self, alloc: Global) -> Result<Names, NoMemory>
        ensures { IfOk result (λ made. (made.entries ≡ self.now.entries) × (made.mask ≡ self.now.mask)) }
    {
        Ok(Names {
            entries: self.entries.try_clone(alloc)?,
            mask: self.mask,
        })
    }

    /// Adds the number of a node with this name, above all numbers that are there.
    pub(crate) fn link(&mut self, name: &Name, number: u64)
        requires chains { self.old.mask + 1 ≡ length self.old.entries.chains }
        requires room { item_count self.old.entries < self.old.entries.slots }
        requires sorted { AreSorted self.old.entries }
        requires above { (c q : ℕ) → number ≤ q → at self.old.entries c q ≡ None }
        ensures linked { IsAltered self.old.entries self.new.entries
            (bit_and (hash_of name.now) self.old.mask) number (Some (hash_of name.now)) }
        ensures mask { self.new.mask ≡ self.old.mask }
    {
        let hash = hash_of(name);
        let chain = chain_of(u64::from(hash), self.mask);
        push(&mut self.entries, chain, number, hash);
    }

    /// Adds the number of a node with this name, which isn't there.
    pub(crate) fn link_again(&mut self, name: &Name, number: u64)
        requires chains { self.old.mask + 1 ≡ length self.old.entries.chains }
        requires room { item_count self.old.entries < self.old.entries.slots }
        requires sorted { AreSorted self.old.entries }
        requires fresh { at self.old.entries (bit_and (hash_of name.now) self.old.mask) number ≡ None }
        ensures linked { IsAltered self.old.entries self.new.entries
            (bit_and (hash_of name.now) self.old.mask) number (Some (hash_of name.now)) }
        ensures mask { self.new.mask ≡ self.old.mask }
    {
        let hash = hash_of(name);
        let chain = chain_of(u64::from(hash), self.mask);
        put(&mut self.entries, chain, number, hash);
    }

    /// Takes out the number of a node with this name.
    pub(crate) fn unlink(&mut self, name: &Name, number: u64)
        requires chains { self.old.mask + 1 ≡ length self.old.entries.chains }
        requires sorted { AreSorted self.old.entries }
        requires found { IsSome (at self.old.entries (bit_and (hash_of name.now) self.old.mask) number) }
        ensures linked { IsAltered self.old.entries self.new.entries
            (bit_and (hash_of name.now) self.old.mask) number None }
        ensures mask { self.new.mask ≡ self.old.mask }
    {
        let chain = chain_of(u64::from(hash_of(name)), self.mask);
        take_out(&mut self.entries, chain, number);
    }
}
