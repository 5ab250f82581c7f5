//! The lock table: where its slots are, and owners in the way that no program asks for.
ghost use Rattle.std.specs.Prelude.{◌≡◌, IsTrue};
ghost use Rattle.std.specs.List.Sorted.{IsNonDecreasing};

use super::same;
use super::spans::{READ, WRITE};
use fl_marks::{Class, Key, Kind, LAST_BYTE, Mark, Range};
use fl_ranges::{Place, Table, laws};
use std::process::Abort;

// A record lock of an owner, all on one node.
fn key(owner: u64) -> Key {
    Key {
        class: Class::Record,
        node: 7,
        owner,
    }
}

// The bytes from one to another, both included.
fn range(rt: &impl Abort, start: u64, end: u64) -> Range {
    assert!(rt; start <= end && end <= LAST_BYTE);
    Range { start, end }
}

// The bytes get the owner's mark, for which there is room.
fn put(rt: &impl Abort, table: &mut Table, owner: u64, start: u64, end: u64, mark: Mark)
    ensures { table.new.limit ≡ table.old.limit }
{
    let told = table.put(&key(owner), &range(rt, start, end), mark);
    same(rt, &told, &Ok(()));
}

// At which indices of a chain the runs stand, of a table of three slots. The other slots are free. Each is where the
// rows say it is.
fn indices(rt: &impl Abort, table: &Table) -> [bool; 2]
    requires { table.now.limit ≡ 3 }
{
    let mut found = [false; 2];
    for slot in 0..3 {
        let place = table.slot_place(slot);
        same(rt, &table.rows().slot_place(slot), &place);
        match place {
            Place::On(_, index) if index < 2 => found[index] = true,
            _ => same(rt, &place, &Place::Free),
        }
    }
    found
}

// The place of a key that has no run is on chain 256.
fn is_unused(rt: &impl Abort, place: Place) {
    match place {
        Place::On(chain, _) => same(rt, &chain, &256),
        Place::Free => same(rt, &place, &Place::On(256, 0)),
    }
}

// At which indices of node 7's chain keys stand, of a table of three slots. The other keys are on chain 256.
fn heads(rt: &impl Abort, table: &Table) -> [bool; 2]
    requires { table.now.limit ≡ 3 }
{
    let mut found = [false; 2];
    for slot in 0..3 {
        match table.head_place(slot) {
            Place::On(7, index) if index < 2 => found[index] = true,
            place => is_unused(rt, place),
        }
    }
    found
}

#[test]
fn slots_are_free_or_on_a_chain_and_keys_on_their_nodes(rt: HostRuntime) {
    let mut table = Table::new(rt.alloc(), 3, 256).expect(&rt, "memory");
    put(&rt, &mut table, 1, 5, 9, READ);
    put(&rt, &mut table, 1, 0, 1, READ);
    same(&rt, &indices(&rt, &table), &[true, true]);
    same(&rt, &heads(&rt, &table), &[true, false]);
    put(&rt, &mut table, 2, 20, 20, READ);
    same(&rt, &heads(&rt, &table), &[true, true]);
    same(&rt, &table.runs(), &3);
    table.erase_owner(&key(1));
    same(&rt, &heads(&rt, &table), &[true, false]);
    same(&rt, &indices(&rt, &table), &[true, false]);
}

// Whether no owner is less than the one before.
fn are_ascending(owners: &[u64]) -> bool
    ensures { IsTrue result → IsNonDecreasing owners.now }
{
    for place in 1..owners.len() {
        if owners[place] < owners[place - 1] {
            return false;
        }
    }
    true
}

// At which of four places an owner stands who keeps owner 6 from such a lock, beside what is set before.
fn contenders(
    rt: &impl Abort,
    table: &Table,
    kind: Kind,
    owners: [u64; 4],
    before: [bool; 4],
) -> [bool; 4] {
    let mut found = before;
    assert!(rt; are_ascending(&owners));
    table.find_conflicting_owners(&key(6), &range(rt, 0, 9), kind, &owners, &mut found);
    found
}

// The owner in the way of owner 6 that comes after another one.
fn next(rt: &impl Abort, table: &Table, kind: Kind, after: Option<u64>, wanted: Option<u64>) {
    let told = table.conflicting_owner_after(&key(6), &range(rt, 0, 9), kind, after);
    same(rt, &told, &wanted);
}

#[test]
fn owners_in_the_way_are_found(rt: HostRuntime) {
    let mut table = Table::new(rt.alloc(), 8, 256).expect(&rt, "memory");
    put(&rt, &mut table, 8, 7, 8, WRITE);
    put(&rt, &mut table, 3, 0, 3, READ);
    put(&rt, &mut table, 6, 4, 5, READ);
    next(&rt, &table, Kind::Write, None, Some(3));
    next(&rt, &table, Kind::Write, Some(3), Some(8));
    next(&rt, &table, Kind::Write, Some(8), None);
    next(&rt, &table, Kind::Read, None, Some(8));
    let owners = [3, 6, 8, 8];
    let told = contenders(&rt, &table, Kind::Write, owners, [false; 4]);
    same(&rt, &told, &[true, false, true, true]);
    let told = contenders(&rt, &table, Kind::Read, owners, [false, true, false, false]);
    same(&rt, &told, &[false, true, true, true]);
}

#[test]
fn laws_hold() {
    laws::last_stroke_counts();
    laws::last_change_counts();
    laws::conflict_is_another_owners_mark();
    laws::owner_conflict_is_a_conflict_with_the_owner();
    laws::runs_are_counted_by_their_starts();
    laws::no_mark_is_left_on_the_node();
    laws::blocker_is_the_first_lock_in_conflict();
}
