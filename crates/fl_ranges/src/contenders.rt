//! The rows of a class on a node, and the locks in them that conflict with one that is asked for.
ghost use Rattle.std.specs.Prelude.{◌≡◌, ◌≤◌, ℕ, IsSome, slice_get, drop};
ghost use Rattle.std.specs.List.{find};
ghost use Rattle.fl_spans.specs.Rows.{rows, keys, chain_count, IsRow};
ghost use Rattle.fl_spans.specs.Row.{spans_at};
ghost use Rattle.fl_spans.specs.Spans.{AreSpans};
ghost use Rattle.fl_marks.specs.Conflict.{kinds_conflict};
ghost use Rattle.fl_ranges.specs.Placing.{home};
ghost use Rattle.fl_ranges.specs.Inside.Contenders.{are_kin, is_earlier, rows_from, kin_owner, span_conflicts};

use crate::chain::home;
use fl_marks::{Key, Kind, Mark, Range};
use fl_spans::{Cursor, Rows, Span, find};

// Whether two keys are of one class and node.
fn are_kin(a: &Key, b: &Key) -> bool
    ensures { result ≡ are_kin a.now b.now }
{
    a.class as u8 == b.class as u8 && a.node == b.node
}

// Whether a key is of a lower node than the other, or of the same node and a lower class.
fn is_earlier(a: &Key, b: &Key) -> bool
    ensures { result ≡ is_earlier a.now b.now }
{
    a.node < b.node || (a.node == b.node && (a.class as u8) < b.class as u8)
}

// Whether a lock that is held conflicts with another, as one of two write locks does.
fn kinds_conflict(kind: Kind, held: Kind) -> bool
    ensures { result ≡ kinds_conflict kind held }
{
    kind == Kind::Write || held == Kind::Write
}

// The cursor at the first row that isn't earlier than the key: if its class has a row on its node, at the first of
// those.
pub(crate) fn first_of_class(table: &Rows<Key, Span<Mark>>, key: &Key) -> Cursor
    requires { 1 ≤ chain_count table.now }
    ensures row { IsRow table.now result }
    ensures chain { result.chain ≡ home (chain_count table.now) key.now.node }
    ensures first { let rs = rows table.now (home (chain_count table.now) key.now.node) in
        drop result.index rs ≡ rows_from key.now rs }
{
    let mut row = table.first_row(home(table, key.node));
    while let Some(other) = table.key(&row) {
        if !is_earlier(other, key) {
            break;
        }
        table.next_row(&mut row);
    }
    row
}

// The owner of the row at the cursor, if the row is of the key's class and node.
pub(crate) fn owner_at(table: &Rows<Key, Span<Mark>>, key: &Key, row: &Cursor) -> Option<u64>
    requires { IsRow table.now row.now }
    ensures owner { result ≡ kin_owner key.now (slice_get (keys (rows table.now row.now.chain)) row.now.index) }
    ensures some { IsSome result → IsSome row.now.slot }
{
    let other = table.key(row)?;
    if are_kin(key, other) {
        Some(other.owner)
    } else {
        None
    }
}

// The first span of the row at the cursor that conflicts with a lock of this kind, by this key, on the range. The row
// is this owner's, of the key's class and node.
pub(crate) fn conflicting_span(
    table: &Rows<Key, Span<Mark>>,
    row: &Cursor,
    owner: u64,
    key: &Key,
    range: &Range,
    kind: Kind,
) -> Option<Span<Mark>>
    requires row { IsRow table.now row.now }
    requires at_row { IsSome row.now.slot }
    requires spans { AreSpans (spans_at table.now row.now) }
    ensures { result ≡ find (span_conflicts key.now owner range.now.start range.now.end kind)
        (spans_at table.now row.now) }
{
    if owner == key.owner {
        return None;
    }
    find(table, row, range.start, range.end, |mark| {
        kinds_conflict(kind, mark.kind)
    })
}
