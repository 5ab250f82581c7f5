//! The search for a span of a row.
ghost use Rattle.std.specs.Prelude.{◌≡◌, ◌≤◌, ◌<◌, Bool, IsSome, ◌&&◌, length, take};
ghost use Rattle.std.specs.List.{find, AllByRecursion};
ghost use Rattle.fl_arena.specs.Cursors.{Tests};
ghost use Rattle.fl_spans.specs.Rows.{run_cursor, IsRow};
ghost use Rattle.fl_spans.specs.Row.{spans_at, IsThere};
ghost use Rattle.fl_spans.specs.Spans.{overlaps, AreSpans};

use crate::rows::Rows;
use crate::span::{LAST_BYTE, Span};
use fl_arena::Cursor;

/// The first span of the row at the cursor that has a byte from `start` to `end` and whose mark passes the test, or
/// none. The walk begins at the last span if the range begins at the start of that one or past it, and else at the
/// first. It stops at the first span that starts past `end`.
pub fn find<K: Copy, M: Copy, F: Fn(&M) -> bool>(
    rows: &Rows<K, Span<M>>,
    row: &Cursor,
    start: u64,
    end: u64,
    test: F,
) -> Option<Span<M>>
    requires row { IsRow rows.now row.now }
    requires at_row { IsSome row.now.slot }
    requires spans { AreSpans (spans_at rows.now row.now) }
    requires ordered { start ≤ end }
    requires in_range { end ≤ LAST_BYTE }
    requires callable { F.IsAlwaysCallable test }
    ensures { (p : M → Bool) → Tests F.Fn p test → result
        ≡ find (λ s. overlaps start end s && p s.mark) (spans_at rows.now row.now) }
{
    let mut next = walk_start(rows, row, start);
    while let Some(span) = rows.run(&next) {
        if end < span.start {
            break;
        }
        if start <= span.end && test(&span.mark) {
            return Some(*span);
        }
        rows.next_run(&mut next);
    }
    None
}

// Where a walk to the first span that ends at a byte or past it begins: at the row's last span if that one begins at
// the byte or before it, since all others then end before the byte, and else at the first. Most rows have one span,
// which isn't looked at here.
pub(crate) fn walk_start<K: Copy, M: Copy>(
    rows: &Rows<K, Span<M>>,
    row: &Cursor,
    byte: u64,
) -> Cursor
    requires row { IsRow rows.now row.now }
    requires at_row { IsSome row.now.slot }
    requires spans { AreSpans (spans_at rows.now row.now) }
    ensures there { IsThere rows.now row.now }
    ensures at { result ≡ run_cursor rows.now row.now.chain row.now.index result.index }
    ensures within { result.index ≤ length (spans_at rows.now row.now) }
    ensures before { AllByRecursion (λ s. s.end < byte) (take result.index (spans_at rows.now row.now)) }
{
    let last = rows.last_run(row);
    if last.index == 0 {
        return last;
    }
    if let Some(span) = rows.run(&last) {
        if span.start <= byte {
            return last;
        }
    }
    rows.first_run(row)
}
