//! The linked nodes of the directory, one after another.
ghost use Rattle.std.specs.Prelude.{◌≡◌, ◌+◌, ◌-◌, ◌^◌, ◌≤◌, ◌<◌, ◌∷◌, ℕ, [], length, None, IfSome, false};
ghost use Rattle.std.specs.FinMap.{len};
ghost use Rattle.fl_dir.specs.Naming.{linked_from, is_linked_at};
ghost use Rattle.fl_dir.specs.Inside.Next.{IsFirst, IsNext, lesser, linked_on};
ghost use Rattle.fl_dir.specs.Inside.Spread.{AreSorted};

use crate::dir::Dir;
use crate::node::Node;
use crate::nodes::Slot;
use fl_arena::Arena;

impl Dir {
    /// The linked node of the least number that is at least this one, with its number.
    ///
    /// It asks for one number after another, and for no more numbers than there are chains. If none of their nodes is
    /// linked, it walks once over all nodes.
    pub fn next_linked(&self, from: u64) -> Option<(u64, &Node)>
        ensures rest { IfSome result (λ e. linked_from self.now from
            ≡ (e.0, e.1.now) ∷ linked_from self.now (e.0 + 1)) }
        ensures none { result ≡ None → linked_from self.now from ≡ [] }
        ensures below { IfSome result (λ e. e.0 < 2 ^ 64 - 1) }
    {
        match self.next_number(from) {
            None => None,
            Some(number) => Some((number, &self.nodes.at(number).node)),
        }
    }

    /// How many more nodes there is room for.
    pub fn free_nodes(&self) -> usize
        ensures { result ≡ self.now.most_nodes - len self.now.nodes }
    {
        self.nodes.free()
    }

    // The least number of a linked node that is at least this one.
    fn next_number(&self, from: u64) -> Option<u64>
        ensures next { IsNext (is_linked_at self.now) from result }
        ensures below { IfSome result (λ number. number < 2 ^ 64 - 1) }
    {
        let (_, chains) = self.nodes.arena();
        let next = self.nodes.next();
        let end = from.saturating_add(chains as u64).min(next);
        let near = self.next_before(from, end);
        if near.is_none() && end < next {
            return self.next_on_chains(from);
        }
        near
    }

    // The least such number below an end: it asks for one after another.
    fn next_before(&self, from: u64, end: u64) -> Option<u64>
        ensures first { IfSome result (λ number. IsFirst (is_linked_at self.now) from number) }
        ensures none { result ≡ None → (q : ℕ) → from ≤ q → q < end → is_linked_at self.now q ≡ false }
    {
        for number in from..end {
            if self.is_linked(number) {
                return Some(number);
            }
        }
        None
    }

    // The least such number, by a walk over all chains.
    fn next_on_chains(&self, from: u64) -> Option<u64>
        ensures { IsNext (is_linked_at self.now) from result }
    {
        let (nodes, chains) = self.nodes.arena();
        let mut least = None;
        for chain in 0..chains {
            least = lesser(least, next_on(nodes, chain, from));
        }
        least
    }
}

// The least number of a linked node on a chain, of those that are at least this one.
fn next_on(nodes: &Arena<(u64, Slot)>, chain: usize, from: u64) -> Option<u64>
    requires chain { chain < length nodes.now.chains }
    requires sorted { AreSorted nodes.now }
    ensures { IsNext (linked_on nodes.now chain) from result }
{
    let at = nodes.first_where(chain, |here| from <= here.0 && here.1.node.linked);
    match nodes.item(&at) {
        None => None,
        Some(entry) => Some(entry.0),
    }
}

// The lesser of two numbers, either of which may be missing.
fn lesser(a: Option<u64>, b: Option<u64>) -> Option<u64>
    ensures { result ≡ lesser a b }
{
    match (a, b) {
        (None, other) => other,
        (some, None) => some,
        (Some(a), Some(b)) => Some(a.min(b)),
    }
}
