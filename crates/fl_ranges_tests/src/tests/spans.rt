//! Spans of one row: what a stroke leaves and a search finds.
ghost use Rattle.std.specs.Prelude.{◌≡◌, ◌≤◌};
ghost use Rattle.fl_ranges_tests.specs.OneRow.{IsOneRow};

use super::same;
use fl_marks::{Kind, Mark};
use fl_spans::{Full, LAST_BYTE, Rows, Span, find, stroke};
use std::alloc::Global;
use std::process::Abort;

pub(super) const READ: Mark = Mark {
    kind: Kind::Read,
    pid: 1,
};

pub(super) const WRITE: Mark = Mark {
    kind: Kind::Write,
    pid: 1,
};

type Spans = Rows<u8, Span<Mark>>;

// No spans, and room for so many.
fn no_spans(rt: &impl Abort, alloc: Global, limit: u16) -> Spans
    ensures { IsOneRow result }
{
    Rows::new(alloc, 1, usize::from(limit), 0).expect(rt, "memory")
}

// A stroke on the only row, which comes with its first span.
fn set(rows: &mut Spans, start: u64, end: u64, mark: Option<Mark>) -> Result<(), Full>
    requires one_row { IsOneRow rows.old }
    requires ordered { start ≤ end }
    requires in_range { end ≤ LAST_BYTE }
    ensures { IsOneRow rows.new }
{
    let mut row = rows.first_row(0);
    if rows.key(&row).is_some() {
        return stroke(rows, &mut row, start, end, mark);
    }
    match mark {
        Some(mark) => rows.insert_row(&mut row, 7, Span { start, end, mark }),
        None => Ok(()),
    }
}

// The first span of the row that has a byte of the range and a write mark.
fn write_in(rows: &Spans, start: u64, end: u64) -> Option<Span<Mark>>
    requires one_row { IsOneRow rows.now }
    requires ordered { start ≤ end }
    requires in_range { end ≤ LAST_BYTE }
{
    let row = rows.first_row(0);
    rows.key(&row)?;
    find(rows, &row, start, end, |mark| mark.kind == Kind::Write)
}

// A stroke for which there is room, or not.
fn gives(
    rt: &impl Abort,
    rows: &mut Spans,
    start: u64,
    end: u64,
    mark: Option<Mark>,
    wanted: Result<(), Full>,
)
    requires one_row { IsOneRow rows.old }
    requires ordered { start ≤ end }
    requires in_range { end ≤ LAST_BYTE }
    ensures { IsOneRow rows.new }
{
    same(rt, &set(rows, start, end, mark), &wanted);
}

// The span that is found, or none.
fn finds(rt: &impl Abort, rows: &Spans, start: u64, end: u64, wanted: Option<Span<Mark>>)
    requires one_row { IsOneRow rows.now }
    requires ordered { start ≤ end }
    requires in_range { end ≤ LAST_BYTE }
{
    same(rt, &write_in(rows, start, end), &wanted);
}

#[test]
fn a_span_is_cut_and_found(rt: HostRuntime) {
    let first = Span {
        start: 10,
        end: 14,
        mark: WRITE,
    };
    let last = Span {
        start: 21,
        end: 30,
        ..first
    };
    let mut rows = no_spans(&rt, rt.alloc(), 3);
    gives(&rt, &mut rows, 10, 30, Some(WRITE), Ok(()));
    gives(&rt, &mut rows, 15, 20, Some(READ), Ok(()));
    gives(&rt, &mut rows, 25, 25, None, Err(Full));
    finds(&rt, &rows, 0, 9, None);
    finds(&rt, &rows, 12, 30, Some(first));
    finds(&rt, &rows, 15, 20, None);
    finds(&rt, &rows, 15, 30, Some(last));
    same(&rt, &rows.free(), &0);
}
