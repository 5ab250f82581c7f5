//! Whether a lock in the rows conflicts with one that is asked for.
ghost use Rattle.std.specs.Prelude.{◌≡◌, ◌≤◌, ℕ};
ghost use Rattle.std.specs.List.{list_any};
ghost use Rattle.fl_spans.specs.Rows.{rows, chain_count};
ghost use Rattle.fl_ranges.specs.Inside.RunList.{run_conflicts};
ghost use Rattle.fl_ranges.specs.Inside.LockRows.{AreLockRows};
ghost use Rattle.fl_ranges.specs.Layout.{table_runs};

use crate::contenders::{conflicting_span, first_of_class, owner_at};
use fl_marks::{Key, Kind, Mark, Range};
use fl_spans::{Rows, Span};

// Whether some lock conflicts with one of this kind, by this key, on the range.
pub(crate) fn some_conflicts(
    table: &Rows<Key, Span<Mark>>,
    key: &Key,
    range: &Range,
    kind: Kind,
) -> bool
    requires chains { 1 ≤ chain_count table.now }
    requires kept { (c : ℕ) → AreLockRows (chain_count table.now) c (rows table.now c) }
    ensures { result
        ≡ list_any (run_conflicts key.now range.now.start range.now.end kind) (table_runs table.now) }
{
    let mut row = first_of_class(table, key);
    while let Some(owner) = owner_at(table, key, &row) {
        if conflicting_span(table, &row, owner, key, range, kind).is_some() {
            return true;
        }
        table.next_row(&mut row);
    }
    false
}
