//! The owners whose locks conflict with one that is asked for: one after another, or all that are asked for at once.
ghost use Rattle.std.specs.Prelude.{◌≡◌, ◌≤◌, ◌<◌, ◌||◌, ℕ, false, None, IsSome, is_some, length, slice_index_or};
ghost use Rattle.std.specs.List.{find, list_any};
ghost use Rattle.std.specs.List.Sorted.{IsNonDecreasing};
ghost use Rattle.fl_spans.specs.Rows.{rows, chain_count, IsRow};
ghost use Rattle.fl_spans.specs.Row.{spans_at};
ghost use Rattle.fl_spans.specs.Spans.{AreSpans};
ghost use Rattle.fl_marks.specs.Conflict.{AreFound};
ghost use Rattle.fl_ranges.specs.Inside.LockRows.{AreLockRows};
ghost use Rattle.fl_ranges.specs.Layout.{table_runs};
ghost use Rattle.fl_ranges.specs.Inside.Owners.{is_after, least_from, run_conflicts_by};
ghost use Rattle.fl_ranges.specs.Inside.Contenders.{span_conflicts};

use crate::asked::{all_set, set_all, skip_less, skip_same};
use crate::contenders::{conflicting_span, first_of_class, owner_at};
use crate::table::Table;
use fl_marks::{Conflicts, Key, Kind, Mark, Range};
use fl_spans::{Cursor, Rows, Span};

impl Table {
    ghost use Rattle.fl_marks.specs.Conflict.{owner_conflicts, IsLeastAfter};

    /// The least owner with a lock that conflicts with one of this kind, of those owners that are greater than the
    /// one that is given; of all if none is given. None if no such owner has one.
    pub fn conflicting_owner_after(
        &self,
        key: &Key,
        range: &Range,
        kind: Kind,
        after: Option<u64>,
    ) -> Option<u64>
        ensures { IsLeastAfter self.now.marking key.now range.now.start range.now.end kind after result }
    {
        least_after(&self.rows, key, range, kind, after)
    }

    /// Finds those of these owners who have a lock that conflicts with one of this kind, in one walk along the owners
    /// of the node: `found` is set at the place of each. What is set already stays, and isn't asked for again. The
    /// owners are in ascending order, and one may stand there more than once.
    pub fn find_conflicting_owners(
        &self,
        key: &Key,
        range: &Range,
        kind: Kind,
        owners: &[u64],
        found: &mut [bool],
    )
        requires same_length { length found.old ≡ length owners.now }
        requires ascending { IsNonDecreasing owners.now }
        ensures { AreFound (owner_conflicts self.now.marking key.now range.now.start range.now.end kind)
            owners.now found.old found.new }
    {
        find_among(&self.rows, key, range, kind, owners, found);
    }
}

impl Conflicts for Table {
    ghost marking = { λ t. t.marking };

    fn find_conflicting_owners(
        &self,
        key: &Key,
        range: &Range,
        kind: Kind,
        owners: &[u64],
        found: &mut [bool],
    ) {
        Table::find_conflicting_owners(self, key, range, kind, owners, found);
    }
}

// Whether an owner is greater than the one that is given.
fn is_after(after: Option<u64>, owner: u64) -> bool
    ensures { result ≡ is_after after owner }
{
    match after {
        None => true,
        Some(given) => given < owner,
    }
}

// The least owner that has a lock which conflicts with one of this kind, by this key, on the range, of those greater
// than the one that is given. The rows stand in the order of their owners, so it is that of the first row that has
// one.
fn least_after(
    table: &Rows<Key, Span<Mark>>,
    key: &Key,
    range: &Range,
    kind: Kind,
    after: Option<u64>,
) -> Option<u64>
    requires chains { 1 ≤ chain_count table.now }
    requires kept { (c : ℕ) → AreLockRows (chain_count table.now) c (rows table.now c) }
    ensures { result
        ≡ least_from key.now range.now.start range.now.end kind after None (table_runs table.now) }
{
    let mut row = first_of_class(table, key);
    while let Some(owner) = owner_at(table, key, &row) {
        if is_after(after, owner)
            && conflicting_span(table, &row, owner, key, range, kind).is_some()
        {
            return Some(owner);
        }
        table.next_row(&mut row);
    }
    None
}

// Sets the places of those of these owners who have a lock which conflicts with one of this kind, by this key, on the
// range. The rows stand in the order of their owners too, so it is one walk along both.
fn find_among(
    table: &Rows<Key, Span<Mark>>,
    key: &Key,
    range: &Range,
    kind: Kind,
    owners: &[u64],
    found: &mut [bool],
)
    requires same_length { length found.old ≡ length owners.now }
    requires ascending { IsNonDecreasing owners.now }
    requires chains { 1 ≤ chain_count table.now }
    requires kept { (c : ℕ) → AreLockRows (chain_count table.now) c (rows table.now c) }
    ensures { AreFound
        (λ o. list_any (run_conflicts_by key.now range.now.start range.now.end kind o) (table_runs table.now))
        owners.now found.old found.new }
{
    let mut row = first_of_class(table, key);
    let mut place = 0;
    while let Some(owner) = owner_at(table, key, &row) {
        let first = skip_less(owners, place, owner);
        if first == owners.len() {
            return;
        }
        place = skip_same(owners, first, owner);
        look_into(table, &row, owner, key, range, kind, found, first, place);
        table.next_row(&mut row);
    }
}

// Sets the places from one up to another if the row at the cursor has a span that conflicts with the lock. It
// doesn't look into the row if all of them are set. The row is this owner's, of the key's class and node.
fn look_into(
    table: &Rows<Key, Span<Mark>>,
    row: &Cursor,
    owner: u64,
    key: &Key,
    range: &Range,
    kind: Kind,
    found: &mut [bool],
    from: usize,
    end: usize,
)
    requires row { IsRow table.now row.now }
    requires at_row { IsSome row.now.slot }
    requires spans { AreSpans (spans_at table.now row.now) }
    requires order { from ≤ end }
    requires within { end ≤ length found.old }
    ensures set { (k : ℕ) → from ≤ k → k < end → slice_index_or found.new k false
        ≡ (slice_index_or found.old k false
        || is_some (find (span_conflicts key.now owner range.now.start range.now.end kind)
        (spans_at table.now row.now))) }
    ensures before { (k : ℕ) → k < from → slice_index_or found.new k false ≡ slice_index_or found.old k false }
    ensures behind { (k : ℕ) → end ≤ k → slice_index_or found.new k false ≡ slice_index_or found.old k false }
{
    if !all_set(found, from, end)
        && conflicting_span(table, row, owner, key, range, kind).is_some()
    {
        set_all(found, from, end);
    }
}
