//! The nodes in the slots, and the links between them.
ghost use Rattle.std.specs.Prelude.{◌≡◌, ◌≤◌, ◌<◌, ◌^◌, length, slice_get, slice_set, Some, IsSome, IfOk};
ghost use Rattle.std.specs.Borrow.{Lends, sem};
ghost use Rattle.fl_arena.specs.Inside.Held.{Free, Taken, IsFilled};
ghost use Rattle.fl_arena.specs.Inside.Links.{alter, alter_link, with_links, with_previous, with_next};
ghost use Rattle.fl_arena.specs.Inside.Links.{relinked, ends_with, ends_without};
ghost use Rattle.fl_arena.specs.Inside.Links.{IsTaken, IsSpare, IsWithin, AreFree, item_in, chain_in, held_with};
ghost use Rattle.fl_arena.specs.Inside.Links.{HasItem, HasLinks};

use std::alloc::{AllocError, Global};
use std::marker::Model;

// An item on a chain, with the slots before and after it.
#[derive(Clone, Copy)]
pub(crate) struct Member<T> {
    pub chain: u16,
    pub previous: Option<u16>,
    pub next: Option<u16>,
    pub item: T,
}

// Room for an item, which is empty before the first.
#[derive(Clone, Copy)]
enum Room<T> {
    Empty,
    Filled(T),
}

impl<T> Room<T> {
    ghost use Rattle.fl_arena.specs.contracts.nodes.Room.{the_row};

    fn item_mut(&mut self) -> &mut T
        requires { IsFilled self.old }
        ensures* writes_back { sem 𝓛 (Lends (the_row T.row) T.row self.entry result (λ item. Room.Filled item)) }
        ensures item { self.old ≡ Room.Filled result.now }
    {
        match self {
            Room::Filled(item) => item,
            Room::Empty => unreachable!(),
        }
    }
}

// What a slot holds: an item on a chain, or the next slot of the free list. A slot that was freed keeps its item, which
// no contract sees: to overwrite that would cost as much as an insert.
#[derive(Drop)]
pub(crate) struct Node<T: Copy> {
    // None if the slot is free.
    chain: Option<u16>,
    previous: Option<u16>,
    next: Option<u16>,
    item: Room<T>,
}

impl<T: Copy> Model for Node<T> {
    ghost use Rattle.fl_arena.specs.Inside.Held.{Held, held, IsWhole};

    ghost Value = { Held T };

    ghost view = { λ n. held n.chain n.previous n.next n.item };

    ghost invariant = { λ n. IsWhole n.chain n.item };
}

impl<T: Copy> Node<T> {
    ghost use Rattle.fl_arena.specs.contracts.nodes.Node.{the_row};

    pub(crate) fn free(next: Option<u16>) -> Node<T>
        ensures { result ≡ Free next }
    {
        Node {
            chain: None,
            previous: None,
            next,
            item: Room::Empty,
        }
    }

    fn taken(member: Member<T>) -> Node<T>
        ensures { result ≡ Taken member }
    {
        Node {
            chain: Some(member.chain),
            previous: member.previous,
            next: member.next,
            item: Room::Filled(member.item),
        }
    }

    // A node that holds the same.
    fn again(&self) -> Node<T>
        ensures { result ≡ self.now }
    {
        Node {
            chain: self.chain,
            previous: self.previous,
            next: self.next,
            item: self.item,
        }
    }

    // The chain of its item, or none if it is free.
    pub(crate) fn chain(&self) -> Option<u16>
        ensures { result ≡ chain_in self.now }
    {
        self.chain
    }

    // The item of a node that has one.
    pub(crate) fn item_mut(&mut self) -> &mut T
        requires { IsSome (item_in self.old) }
        ensures* writes_back { sem 𝓛 (Lends (the_row T.row) T.row self.entry result (held_with self.old)) }
        ensures item { item_in self.old ≡ Some result.now }
    {
        self.item.item_mut()
    }

    fn set_next(&mut self, next: Option<u16>)
        ensures { self.new ≡ with_next next self.old }
    {
        if self.chain.is_some() {
            self.next = next;
        }
    }

    fn set_previous(&mut self, previous: Option<u16>)
        ensures { self.new ≡ with_previous previous self.old }
    {
        if self.chain.is_some() {
            self.previous = previous;
        }
    }

    fn set_links(&mut self, chain: u16, previous: Option<u16>, next: Option<u16>)
        ensures { self.new ≡ with_links chain previous next self.old }
    {
        if self.chain.is_some() {
            self.chain = Some(chain);
            self.previous = previous;
            self.next = next;
        }
    }

    fn set_free(&mut self, next: Option<u16>)
        ensures { self.new ≡ Free next }
    {
        self.chain = None;
        self.next = next;
    }
}

// A slot takes 24 bytes beside its item, and a chain 16.
const _: () = prove!(size_of::<Node<[u64; 3]>>() == 48);

const _: () = prove!(size_of::<Node<[u64; 4]>>() == 56);

const _: () = prove!(size_of::<Ends>() == 16);

// The ends of a chain, and how many items it has.
#[derive(Clone, Copy)]
pub(crate) struct Ends {
    pub first: Option<u16>,
    pub last: Option<u16>,
    pub len: usize,
}

impl Ends {
    pub(crate) const EMPTY: Ends = Ends {
        first: None,
        last: None,
        len: 0,
    };

    // The ends once `slot` has joined between these two.
    pub(crate) fn with(self, before: Option<u16>, after: Option<u16>, slot: u16) -> Ends
        requires { self.len < 2 ^ 16 }
        ensures { result ≡ ends_with self before after slot }
    {
        Ends {
            first: if before.is_some() {
                self.first
            } else {
                Some(slot)
            },
            last: if after.is_some() {
                self.last
            } else {
                Some(slot)
            },
            len: self.len + 1,
        }
    }

    // The ends once the slot between these two has gone.
    pub(crate) fn without(self, before: Option<u16>, after: Option<u16>) -> Ends
        requires { 0 < self.len }
        ensures { result ≡ ends_without self before after }
    {
        Ends {
            first: if before.is_some() { self.first } else { after },
            last: if after.is_some() { self.last } else { before },
            len: self.len - 1,
        }
    }
}

// So many free nodes, and the first of the free list, which leads down from the last to the first.
pub(crate) fn free_nodes<T: Copy>(
    alloc: Global,
    count: usize,
) -> Result<(Vec<Node<T>>, Option<u16>), AllocError>
    requires { count ≤ 2 ^ 16 }
    ensures { IfOk result (λ made. AreFree made.0.items made.1 count) }
{
    let mut nodes = Vec::with_capacity(alloc, count)?;
    let mut spare = None;
    for slot in 0..count {
        nodes.push(Node::free(spare))?;
        spare = Some(slot as u16);
    }
    Ok((nodes, spare))
}

pub(crate) fn slot_number(link: Option<u16>) -> Option<usize>
    ensures { result ≡ link }
{
    link.map(usize::from)
}

// The item in a slot.
pub(crate) fn item_at<T: Copy>(nodes: &Vec<Node<T>>, slot: u16) -> &T
    requires { IsTaken nodes.now.items slot }
    ensures { HasItem nodes.now.items slot result.now }
{
    match &nodes[usize::from(slot)].item {
        Room::Filled(item) => item,
        Room::Empty => unreachable!(),
    }
}

// The slots before and after that of an item.
pub(crate) fn links_at<T: Copy>(nodes: &Vec<Node<T>>, slot: u16) -> (Option<u16>, Option<u16>)
    requires { IsTaken nodes.now.items slot }
    ensures { HasLinks nodes.now.items slot result.0 result.1 }
{
    let node = &nodes[usize::from(slot)];
    (node.previous, node.next)
}

pub(crate) fn next_free<T: Copy>(nodes: &Vec<Node<T>>, slot: u16) -> Option<u16>
    requires { IsSpare nodes.now.items slot }
    ensures { slice_get nodes.now.items slot ≡ Some (Free result) }
{
    nodes[usize::from(slot)].next
}

fn set_next<T: Copy>(nodes: &mut Vec<Node<T>>, slot: Option<u16>, next: Option<u16>)
    requires { IsWithin nodes.old.items slot }
    ensures { nodes.new.items ≡ alter_link (with_next next) nodes.old.items slot }
{
    if let Some(slot) = slot {
        nodes[usize::from(slot)].set_next(next);
    }
}

fn set_previous<T: Copy>(nodes: &mut Vec<Node<T>>, slot: Option<u16>, previous: Option<u16>)
    requires { IsWithin nodes.old.items slot }
    ensures { nodes.new.items ≡ alter_link (with_previous previous) nodes.old.items slot }
{
    if let Some(slot) = slot {
        nodes[usize::from(slot)].set_previous(previous);
    }
}

// Leads the node in the one slot to `next`, and that in the other back to `previous`.
fn relink<T: Copy>(
    nodes: &mut Vec<Node<T>>,
    before: Option<u16>,
    after: Option<u16>,
    previous: Option<u16>,
    next: Option<u16>,
)
    requires before { IsWithin nodes.old.items before }
    requires after { IsWithin nodes.old.items after }
    ensures { nodes.new.items ≡ relinked nodes.old.items before after previous next }
{
    set_next(nodes, before, next);
    set_previous(nodes, after, previous);
}

// Nodes that hold the same.
pub(crate) fn copied<T: Copy>(alloc: Global, from: &[Node<T>]) -> Result<Vec<Node<T>>, AllocError>
    ensures { IfOk result (λ nodes. nodes.items ≡ from.now) }
{
    let mut nodes = Vec::with_capacity(alloc, from.len())?;
    for slot in 0..from.len() {
        nodes.push(from[slot].again())?;
    }
    Ok(nodes)
}

// Puts a member into the slot, and links it to those before and after it.
pub(crate) fn link_in<T: Copy>(nodes: &mut Vec<Node<T>>, slot: u16, member: Member<T>)
    requires slot { slot < length nodes.old.items }
    requires before { IsWithin nodes.old.items member.previous }
    requires after { IsWithin nodes.old.items member.next }
    ensures { nodes.new.items
        ≡ slice_set (relinked nodes.old.items member.previous member.next (Some slot) (Some slot)) slot
        (Taken member) }
{
    relink(nodes, member.previous, member.next, Some(slot), Some(slot));
    nodes[usize::from(slot)] = Node::taken(member);
}

// Takes the member out of the slot, links those before and after it to each other, and puts the slot
// before `spare` in the free list.
pub(crate) fn link_out<T: Copy>(
    nodes: &mut Vec<Node<T>>,
    slot: u16,
    links: (Option<u16>, Option<u16>),
    spare: Option<u16>,
)
    requires slot { slot < length nodes.old.items }
    requires before { IsWithin nodes.old.items links.0 }
    requires after { IsWithin nodes.old.items links.1 }
    ensures { nodes.new.items
        ≡ slice_set (relinked nodes.old.items links.0 links.1 links.0 links.1) slot (Free spare) }
{
    relink(nodes, links.0, links.1, links.0, links.1);
    nodes[usize::from(slot)].set_free(spare);
}

// Takes a slot from between the first links, which lead to each other then, to between the second ones
// of a chain. Its item stays where it is.
pub(crate) fn link_over<T: Copy>(
    nodes: &mut Vec<Node<T>>,
    slot: u16,
    old: (Option<u16>, Option<u16>),
    chain: u16,
    new: (Option<u16>, Option<u16>),
)
    requires slot { slot < length nodes.old.items }
    requires old_before { IsWithin nodes.old.items old.0 }
    requires old_after { IsWithin nodes.old.items old.1 }
    requires new_before { IsWithin nodes.old.items new.0 }
    requires new_after { IsWithin nodes.old.items new.1 }
    ensures { nodes.new.items
        ≡ alter (with_links chain new.0 new.1)
        (relinked (relinked nodes.old.items old.0 old.1 old.0 old.1) new.0 new.1 (Some slot) (Some slot)) slot }
{
    relink(nodes, old.0, old.1, old.0, old.1);
    relink(nodes, new.0, new.1, Some(slot), Some(slot));
    nodes[usize::from(slot)].set_links(chain, new.0, new.1);
}
