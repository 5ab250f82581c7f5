//! Locks in rows, one for each key that has a mark, in the order of keys.
ghost use Rattle.std.specs.Prelude.{◌≡◌, ◌+◌, true, IsSome, drop};
ghost use Rattle.std.specs.Ordering.{eq_by_cmp};
ghost use Rattle.fl_spans.specs.Rows.{rows, chain_count, limit_of, row_cursor, IsRow};
ghost use Rattle.fl_marks.specs.Marking.{key_cmp};
ghost use Rattle.fl_ranges.specs.Placing.{home};
ghost use Rattle.fl_ranges.specs.Inside.LockRows.{key_precedes, row_index, has_row, IsLockTable};

use crate::chain::home;
use fl_marks::{Key, Mark};
use fl_spans::{Cursor, Rows, Span};

// Whether the row of a key stands before that of another one: by node, then class, then owner.
fn key_precedes(a: &Key, b: &Key) -> bool
    ensures { result ≡ key_precedes a.now b.now }
{
    if a.node != b.node {
        return a.node < b.node;
    }
    if a.class != b.class {
        return (a.class as u8) < b.class as u8;
    }
    a.owner < b.owner
}

// Whether two keys are one.
fn is_same(a: &Key, b: &Key) -> bool
    ensures { result ≡ eq_by_cmp key_cmp a.now b.now }
{
    *a == *b
}

// Where the walk to a key's place begins: at its chain's last row if the key isn't before that, since what is greater
// than all before comes last, and else at the first.
fn walk_start(table: &Rows<Key, Span<Mark>>, key: &Key) -> Cursor
    requires table { IsLockTable table.now (limit_of table.now) (chain_count table.now) }
    ensures row { IsRow table.now result }
    ensures chain { result.chain ≡ home (chain_count table.now) key.now.node }
    ensures index { let rs = rows table.now (home (chain_count table.now) key.now.node) in
        row_index key.now rs ≡ result.index + row_index key.now (drop result.index rs) }
    ensures own { let rs = rows table.now (home (chain_count table.now) key.now.node) in
        has_row key.now rs ≡ has_row key.now (drop result.index rs) }
{
    let chain = home(table, key.node);
    let last = table.last_row(chain);
    if let Some(here) = table.key(&last) {
        if !key_precedes(key, here) {
            return last;
        }
    }
    table.first_row(chain)
}

// The cursor at the first row of the key's chain that doesn't precede the key's, and whether it is the key's own.
// It looks at the first row first, since most nodes have one row.
#[inline(always)]
pub(crate) fn find_row(table: &Rows<Key, Span<Mark>>, key: &Key) -> (Cursor, bool)
    requires table { IsLockTable table.now (limit_of table.now) (chain_count table.now) }
    ensures at { let chain = home (chain_count table.now) key.now.node in
        result.0 ≡ row_cursor table.now chain (row_index key.now (rows table.now chain)) }
    ensures row { IsRow table.now result.0 }
    ensures own { result.1 ≡ has_row key.now (rows table.now (home (chain_count table.now) key.now.node)) }
    ensures at_row { result.1 ≡ true → IsSome result.0.slot }
{
    let first = table.first_row(home(table, key.node));
    let Some(here) = table.key(&first) else {
        return (first, false);
    };
    if key_precedes(here, key) {
        return walk_to_row(table, key);
    }
    (first, is_same(here, key))
}

// The same, by a walk along the rows.
fn walk_to_row(table: &Rows<Key, Span<Mark>>, key: &Key) -> (Cursor, bool)
    requires table { IsLockTable table.now (limit_of table.now) (chain_count table.now) }
    ensures at { let chain = home (chain_count table.now) key.now.node in
        result.0 ≡ row_cursor table.now chain (row_index key.now (rows table.now chain)) }
    ensures row { IsRow table.now result.0 }
    ensures own { result.1 ≡ has_row key.now (rows table.now (home (chain_count table.now) key.now.node)) }
    ensures at_row { result.1 ≡ true → IsSome result.0.slot }
{
    let mut row = walk_start(table, key);
    while let Some(here) = table.key(&row) {
        if !key_precedes(here, key) {
            return (row, is_same(here, key));
        }
        table.next_row(&mut row);
    }
    (row, false)
}
