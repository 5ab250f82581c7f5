//! The arena: each public call, and all slots filled twice.
ghost use Rattle.std.specs.Prelude.{◌≡◌, ◌≢◌, ◌<◌, length};
ghost use Rattle.fl_arena.specs.Chains.{HasSizeOf};
ghost use Rattle.fl_arena.specs.Cursors.{IsInPlace};

use super::same;
use fl_arena::{Arena, Cursor, Full, Place};
use std::fmt::Debug;
use std::process::Abort;

// Adds an item at the head of a chain.
fn push_front<T: Copy>(arena: &mut Arena<T>, chain: usize, item: T) -> Result<(), Full>
    requires { chain < length arena.old.chains }
    ensures { HasSizeOf arena.old arena.new }
{
    let mut cursor = arena.cursor(chain);
    arena.insert(&mut cursor, item)
}

// Takes the item at the head of a chain, if there is one.
fn pop_front<T: Copy>(arena: &mut Arena<T>, chain: usize) -> Option<T>
    requires { chain < length arena.old.chains }
    ensures { HasSizeOf arena.old arena.new }
{
    let mut cursor = arena.cursor(chain);
    if cursor.slot.is_none() {
        return None;
    }
    Some(arena.remove(&mut cursor))
}

// Another item in place of the one at the cursor, if there is one.
fn replace(arena: &mut Arena<char>, cursor: &Cursor, item: char)
    requires { IsInPlace arena.old cursor.now }
    ensures { HasSizeOf arena.old arena.new }
{
    if cursor.slot.is_some() {
        arena.set(cursor, item);
    }
}

// The same, in place.
fn alter(arena: &mut Arena<char>, cursor: &Cursor, item: char)
    requires { IsInPlace arena.old cursor.now }
    ensures { HasSizeOf arena.old arena.new }
{
    if cursor.slot.is_some() {
        let here = arena.item_mut(cursor);
        *here = item;
    }
}

// Takes the first item of a chain over to before one of another chain, or to its end, and tells the slot that it has.
fn pass_on(arena: &mut Arena<char>, from: usize, to: usize, before: char) -> Option<u16>
    requires from { from < length arena.old.chains }
    requires to { to < length arena.old.chains }
    requires apart { from ≢ to }
    ensures { HasSizeOf arena.old arena.new }
{
    let mut first = arena.cursor(from);
    let mut second = arena.first_where(to, |item| *item == before);
    first.slot?;
    arena.shift(&mut first, &mut second);
    second.slot
}

// There was room, or not.
fn is(rt: &impl Abort, told: &Result<(), Full>, wanted: &Result<(), Full>) {
    same(rt, told, wanted);
}

// The chain holds these items and no others.
fn holds<T: Copy + Debug + PartialEq>(rt: &impl Abort, arena: &Arena<T>, chain: usize, items: &[T])
    requires { chain < length arena.now.chains }
{
    let mut cursor = arena.cursor(chain);
    for item in items {
        same(rt, &arena.get(&cursor), &Some(*item));
        arena.step(&mut cursor);
    }
    same(rt, &arena.get(&cursor), &None);
}

// The second and the third item of a chain are 'b' and 'c', and there is no other behind them.
fn has_b_and_c(rt: &impl Abort, arena: &Arena<char>, chain: usize)
    requires { chain < length arena.now.chains }
{
    let b = arena.first_where(chain, |item| *item == 'b');
    same(rt, &b.index, &1);
    same(rt, &arena.item(&b).copied(), &Some('b'));
    let c = arena.next_where(arena.cursor(chain), |item| *item == 'c');
    same(rt, &arena.last(chain), &c);
    let slot = arena.slot_at(chain, 2).expect(rt, "no slot");
    same(rt, &arena.place(slot), &Place::On(chain, 2));
}

// Three items come on chain 1, and two of them are changed.
fn come(rt: &impl Abort, arena: &mut Arena<char>)
    requires { length arena.old.chains ≡ 2 }
    ensures { HasSizeOf arena.old arena.new }
{
    is(rt, &push_front(arena, 1, 'c'), &Ok(()));
    is(rt, &push_front(arena, 1, 'b'), &Ok(()));
    is(rt, &push_front(arena, 1, 'a'), &Ok(()));
    has_b_and_c(rt, arena, 1);
    let b = arena.first_where(1, |item| *item == 'b');
    replace(arena, &b, 'x');
    let c = arena.first_where(1, |item| *item == 'c');
    alter(arena, &c, 'y');
    holds(rt, arena, 1, &['a', 'x', 'y']);
}

// The first goes over to chain 0 in its slot, and the second goes.
fn go(rt: &impl Abort, arena: &mut Arena<char>)
    requires { length arena.old.chains ≡ 2 }
{
    let slot = arena.cursor(1).slot;
    same(rt, &pass_on(arena, 1, 0, '-'), &slot);
    holds(rt, arena, 0, &['a']);
    same(rt, &pop_front(arena, 1), &Some('x'));
    holds(rt, arena, 1, &['y']);
    same(rt, &arena.free(), &2);
}

#[test]
fn items_come_and_go(rt: HostRuntime) {
    let mut arena = Arena::new(rt.alloc(), 2, 4).expect(&rt, "memory");
    come(&rt, &mut arena);
    go(&rt, &mut arena);
}

#[test]
fn fills_every_slot_twice(rt: HostRuntime) {
    let mut arena = Arena::new(rt.alloc(), 1, 65_536).expect(&rt, "memory");
    for round in 0..2u32 {
        for item in 0..65_536u32 {
            is(&rt, &push_front(&mut arena, 0, (round, item)), &Ok(()));
        }
        same(&rt, &arena.free(), &0);
        is(&rt, &push_front(&mut arena, 0, (round, 0)), &Err(Full));
        for item in (0..65_536u32).rev() {
            same(&rt, &pop_front(&mut arena, 0), &Some((round, item)));
        }
        same(&rt, &pop_front(&mut arena, 0), &None);
        same(&rt, &arena.free(), &65_536);
    }
}
