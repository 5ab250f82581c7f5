//! A stroke on the spans of a row: first what it takes out and puts in, then the change itself.
ghost use Rattle.std.specs.Prelude.{◌≡◌, ◌↔◌, ◌+◌, ◌≤◌, ◌<◌, ℕ, true, false, IsSome, IsErr, OnOk, OnErr, length, drop};
ghost use Rattle.std.specs.Prelude.{nat_le, ◌&&◌, if◌then◌else◌};
ghost use Rattle.std.specs.List.{prefix_len, position_or_len};
ghost use Rattle.fl_spans.specs.Rows.{row_lists, run_count, limit_of, pieces_of, row_cursor, run_cursor, IsRow};
ghost use Rattle.fl_spans.specs.Rows.{HasRoomOf};
ghost use Rattle.fl_spans.specs.Row.{spans_at, with_spans, IsThere};
ghost use Rattle.fl_spans.specs.Spans.{mark_at, AreSpans};
ghost use Rattle.fl_spans.specs.Stroke.{after_stroke};
ghost use Rattle.fl_spans.specs.Inside.Walk.{reaches, begins_by, absorbed, gathered, pieces_with};

use crate::rows::{Pieces, Rows};
use crate::search::walk_start;
use crate::span::{LAST_BYTE, Span, begins_by, is_mark, reaches};
use fl_arena::{Cursor, Full};
use std::cmp::{max, min};

// The bytes that a stroke makes one span of, and what it leaves of the spans around.
#[derive(Clone, Copy)]
pub(crate) struct Change<M> {
    pub before: Option<Span<M>>,
    pub start: u64,
    pub end: u64,
    pub after: Option<Span<M>>,
}

/// The bytes from `start` to `end` of the row at the cursor get the mark, or lose theirs. Spans of one mark that
/// touch become one, and a row that has no span left goes. This needs room if a span is cut in its middle, or
/// the mark is a new one there. A refusal changes nothing. It is one walk along the row, up to the end of the range:
/// from the last span if the range begins past the start of that one, and else from the first.
pub fn stroke<K: Copy, M: Copy + Eq>(
    rows: &mut Rows<K, Span<M>>,
    row: &mut Cursor,
    start: u64,
    end: u64,
    mark: Option<M>,
) -> Result<(), Full>
    requires row { IsRow rows.old row.old }
    requires at_row { IsSome row.old.slot }
    requires spans { AreSpans (spans_at rows.old row.old) }
    requires ordered { start ≤ end }
    requires in_range { end ≤ LAST_BYTE }
    requires exact { (a b : M) → M.eq a b ≡ true → a ≡ b }
    ensures full { let spans = spans_at rows.old row.old in IsErr result ↔
        (limit_of rows.old + length spans < run_count rows.old + length (after_stroke M.eq start end mark spans)) }
    ensures rows { OnOk result (row_lists rows.new
        ≡ with_spans rows.old row.old (after_stroke M.eq start end mark (spans_at rows.old row.old))) }
    ensures err { OnErr result (rows.new ≡ rows.old) }
    ensures cursor { row.new ≡ row_cursor rows.new row.old.chain row.old.index }
    ensures row { IsRow rows.new row.new }
    ensures size { HasRoomOf rows.old rows.new }
    // What the spans are then: in order and as long as they can be, with the mark on the range and all else as it was.
    ensures spans { AreSpans (after_stroke M.eq start end mark (spans_at rows.old row.old)) }
    ensures marks { (b : ℕ) → let spans = spans_at rows.old row.old in
        mark_at (after_stroke M.eq start end mark spans) b
        ≡ (if nat_le start b && nat_le b end then mark else mark_at spans b) }
{
    let at = seek(rows, row, start, &mark);
    let (change, taken) = gather(rows, row, at, start, end, &mark);
    let pieces = pieces_with(&change, mark);
    if rows.free() < count(&pieces).saturating_sub(taken) {
        return Err(Full);
    }
    rows.splice(row, at, taken, pieces);
    Ok(())
}

// The cursor at the first span of a row that has a byte from the start on, or ends right before it with the mark.
fn seek<K: Copy, M: Copy + Eq>(
    rows: &Rows<K, Span<M>>,
    row: &Cursor,
    start: u64,
    mark: &Option<M>,
) -> Cursor
    requires row { IsRow rows.now row.now }
    requires at_row { IsSome row.now.slot }
    requires spans { AreSpans (spans_at rows.now row.now) }
    ensures there { IsThere rows.now row.now }
    ensures at { result ≡ run_cursor rows.now row.now.chain row.now.index result.index }
    ensures first { result.index
        ≡ position_or_len (reaches M.eq start mark.now) (spans_at rows.now row.now) }
{
    let mut at = walk_start(rows, row, reach(start, mark));
    while let Some(span) = rows.run(&at) {
        if reaches(span, start, mark) {
            break;
        }
        rows.next_run(&mut at);
    }
    at
}

// No span that ends before this byte counts for a stroke. It is the start, or if a mark is set the byte before, where a
// span may end that touches the new one.
fn reach<M: Copy + Eq>(start: u64, mark: &Option<M>) -> u64
    ensures { (s : Span M) → s.end < result → reaches M.eq start mark.now s ≡ false }
{
    match mark {
        Some(_) => start.saturating_sub(1),
        None => start,
    }
}

// What a stroke makes of the spans from a cursor on, and how many of them it takes out.
fn gather<K: Copy, M: Copy + Eq>(
    rows: &Rows<K, Span<M>>,
    row: &Cursor,
    at: Cursor,
    start: u64,
    end: u64,
    mark: &Option<M>,
) -> (Change<M>, usize)
    requires row { IsRow rows.now row.now }
    requires there { IsThere rows.now row.now }
    requires at { at ≡ run_cursor rows.now row.now.chain row.now.index at.index }
    ensures change { result.0 ≡ gathered M.eq start end mark.now
        (record { before = None; start = start; end = end; after = None })
        (drop at.index (spans_at rows.now row.now)) }
    ensures taken { result.1 ≡ prefix_len (begins_by M.eq end mark.now)
        (drop at.index (spans_at rows.now row.now)) }
{
    let mut change = Change {
        before: None,
        start,
        end,
        after: None,
    };
    let mut next = at;
    while let Some(span) = rows.run(&next) {
        if !begins_by(span, end, mark) {
            break;
        }
        change = absorbed(change, span, start, end, mark);
        rows.next_run(&mut next);
    }
    (change, next.index - at.index)
}

// The change once it takes in one span more: it is made longer by one of its mark, and cut out of any other.
fn absorbed<M: Copy + Eq>(
    change: Change<M>,
    span: &Span<M>,
    start: u64,
    end: u64,
    mark: &Option<M>,
) -> Change<M>
    ensures { result ≡ absorbed M.eq start end mark.now change span.now }
{
    if is_mark(mark, &span.mark) {
        return Change {
            start: min(change.start, span.start),
            end: max(change.end, span.end),
            ..change
        };
    }
    Change {
        before: if span.start < start {
            Some(Span {
                end: start - 1,
                ..*span
            })
        } else {
            change.before
        },
        after: if end < span.end {
            Some(Span {
                start: end + 1,
                ..*span
            })
        } else {
            change.after
        },
        ..change
    }
}

// What a change puts in.
fn pieces_with<M: Copy>(change: &Change<M>, mark: Option<M>) -> Pieces<Span<M>>
    ensures { result ≡ pieces_with mark change.now }
{
    let new = match mark {
        Some(mark) => Some(Span {
            start: change.start,
            end: change.end,
            mark,
        }),
        None => None,
    };
    Pieces {
        before: change.before,
        new,
        after: change.after,
    }
}

// How many spans are put in.
fn count<M: Copy>(pieces: &Pieces<Span<M>>) -> usize
    ensures { result ≡ length (pieces_of pieces.now) }
{
    usize::from(pieces.before.is_some())
        + usize::from(pieces.new.is_some())
        + usize::from(pieces.after.is_some())
}
