//! Entries on the chains of an arena, each under a number.
ghost use Rattle.std.specs.Prelude.{◌≡◌, ◌<◌, ◌≤◌, ◌==◌, ℕ, length, slice_get, Some, None, IsSome};
ghost use Rattle.std.specs.List.{find};
ghost use Rattle.std.specs.Option.{option_copied};
ghost use Rattle.fl_arena.specs.Chains.{items, item_count};
ghost use Rattle.fl_arena.specs.Cursors.{cursor_at};
ghost use Rattle.fl_dir.specs.Inside.Spread.{at, AreSorted, IsAltered};

use fl_arena::{Arena, Cursor};

// The cursor at the chain's entry of this number, or at its end.
pub(crate) fn seek<T: Copy>(entries: &Arena<(u64, T)>, chain: usize, number: u64) -> Cursor
    requires { chain < length entries.now.chains }
    ensures at { result ≡ cursor_at entries.now chain result.index }
    ensures found { slice_get (items entries.now chain) result.index
        ≡ find (λ e. e.0 == number) (items entries.now chain) }
{
    entries.first_where(chain, |here| here.0 == number)
}

// What stands on a chain under a number.
pub(crate) fn value_at<T: Copy>(entries: &Arena<(u64, T)>, chain: usize, number: u64) -> Option<&T>
    requires { chain < length entries.now.chains }
    ensures { option_copied result ≡ at entries.now chain number }
{
    match entries.item(&seek(entries, chain, number)) {
        None => None,
        Some(entry) => Some(&entry.1),
    }
}

// Adds an entry at the end of a chain.
pub(crate) fn push<T: Copy>(entries: &mut Arena<(u64, T)>, chain: usize, number: u64, value: T)
    requires chain { chain < length entries.old.chains }
    requires room { item_count entries.old < entries.old.slots }
    requires sorted { AreSorted entries.old }
    requires above { (q : ℕ) → number ≤ q → at entries.old chain q ≡ None }
    ensures { IsAltered entries.old entries.new chain number (Some value) }
{
    let mut end = Cursor {
        chain,
        index: 0,
        slot: None,
    };
    let Ok(()) = entries.insert(&mut end, (number, value)) else {
        unreachable!()
    };
}

// Puts an entry in its place on a chain that has none of its number.
pub(crate) fn put<T: Copy>(entries: &mut Arena<(u64, T)>, chain: usize, number: u64, value: T)
    requires chain { chain < length entries.old.chains }
    requires room { item_count entries.old < entries.old.slots }
    requires sorted { AreSorted entries.old }
    requires fresh { at entries.old chain number ≡ None }
    ensures { IsAltered entries.old entries.new chain number (Some value) }
{
    let mut place = entries.first_where(chain, |here| here.0 > number);
    let Ok(()) = entries.insert(&mut place, (number, value)) else {
        unreachable!()
    };
}

// Takes the entry of a number off its chain.
pub(crate) fn take_out<T: Copy>(entries: &mut Arena<(u64, T)>, chain: usize, number: u64)
    requires chain { chain < length entries.old.chains }
    requires sorted { AreSorted entries.old }
    requires found { IsSome (at entries.old chain number) }
    ensures { IsAltered entries.old entries.new chain number None }
{
    let mut cursor = seek(entries, chain, number);
    entries.remove(&mut cursor);
}
