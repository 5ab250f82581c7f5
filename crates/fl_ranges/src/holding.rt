//! Whether bytes have a mark.
ghost use Rattle.std.specs.Prelude.{◌≡◌, ◌≤◌, ◌↔◌, ℕ, true, Some, IsSome};
ghost use Rattle.std.specs.FinMap.{get};
ghost use Rattle.fl_spans.specs.Row.{spans_at};
ghost use Rattle.fl_spans.specs.Rows.{chain_count, limit_of, IsRow};
ghost use Rattle.fl_spans.specs.Spans.{mark_at, AreSpans};
ghost use Rattle.fl_ranges.specs.Inside.LockRows.{row_marks, IsLockTable};

use crate::find_row::find_row;
use fl_marks::{Key, Mark, Range};
use fl_spans::{Cursor, Rows, Span, find};

// Whether all bytes of the range have this mark of the key.
pub(crate) fn all_marked(
    table: &Rows<Key, Span<Mark>>,
    key: &Key,
    range: &Range,
    mark: Mark,
) -> bool
    requires table { IsLockTable table.now (limit_of table.now) (chain_count table.now) }
    ensures { (result ≡ true) ↔ ((byte : ℕ) → range.now.start ≤ byte → byte ≤ range.now.end →
        get (row_marks table.now) (key.now, byte) ≡ Some mark) }
{
    let (row, own) = find_row(table, key);
    own && all_in_row(table, &row, range, mark)
}

// Whether all bytes of the range have this mark in the row at the cursor. Each span is as long as it can be, so one has
// them all.
fn all_in_row(table: &Rows<Key, Span<Mark>>, row: &Cursor, range: &Range, mark: Mark) -> bool
    requires row { IsRow table.now row.now }
    requires at_row { IsSome row.now.slot }
    requires spans { AreSpans (spans_at table.now row.now) }
    ensures { (result ≡ true) ↔ ((byte : ℕ) → range.now.start ≤ byte → byte ≤ range.now.end →
        mark_at (spans_at table.now row.now) byte ≡ Some mark) }
{
    match find(table, row, range.start, range.end, |_| true) {
        Some(span) => has_all(&span, range, mark),
        None => false,
    }
}

// Whether a span has all bytes of the range, and this mark.
fn has_all(span: &Span<Mark>, range: &Range, mark: Mark) -> bool
    ensures { (result ≡ true) ↔
        ((span.now.start ≤ range.now.start) × (range.now.end ≤ span.now.end) × (span.now.mark ≡ mark)) }
{
    span.start <= range.start && range.end <= span.end && span.mark == mark
}
