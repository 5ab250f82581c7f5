//! A walk along the rows of locks, which tells each run.

ghost use Rattle.std.specs.Prelude.{◌≡◌, ◌<◌, ◌++◌, true, IsSome, IsTrue, map};
ghost use Rattle.fl_ranges.specs.Layout.{run_of, runs_in, table_runs};
ghost use Rattle.fl_spans.specs.Row.{spans_at};
ghost use Rattle.fl_spans.specs.Rows.{chain_count, rows, IsRow};
ghost use Rattle.fl_state.specs.Inside.Saying.{lock_part};

use crate::saying::lock_part;
use crate::sink::StateSink;
use fl_marks::{Key, Mark, Run};
use fl_spans::{Cursor, Rows, Span};

/// Tells the runs of all rows, chain after chain. It ends once the sink takes no more.
pub(crate) fn tell_locks<S: StateSink>(locks: &Rows<Key, Span<Mark>>, sink: &mut S) -> bool
    ensures infallible { IsTrue S.infallible → result ≡ true }
    ensures kept { S.kept sink.new ≡ S.kept sink.old }
    ensures told { result ≡ true → S.told sink.new ≡ S.told sink.old ++ map lock_part (table_runs locks.now) }
{
    for chain in 0..locks.chain_count() {
        if !tell_rows(locks, chain, sink) {
            return false;
        }
    }
    true
}

// Tells the runs of a chain's rows.
fn tell_rows<S: StateSink>(locks: &Rows<Key, Span<Mark>>, chain: usize, sink: &mut S) -> bool
    requires { chain < chain_count locks.now }
    ensures infallible { IsTrue S.infallible → result ≡ true }
    ensures kept { S.kept sink.new ≡ S.kept sink.old }
    ensures told { result ≡ true → S.told sink.new ≡ S.told sink.old ++ map lock_part (runs_in (rows locks.now chain)) }
{
    let mut row = locks.first_row(chain);
    while let Some(key) = locks.key(&row) {
        if !tell_row(locks, key, &row, sink) {
            return false;
        }
        locks.next_row(&mut row);
    }
    true
}

// Tells the runs of the row at a cursor, which is the key's.
fn tell_row<S: StateSink>(
    locks: &Rows<Key, Span<Mark>>,
    key: &Key,
    row: &Cursor,
    sink: &mut S,
) -> bool
    requires row { IsRow locks.now row.now }
    requires at_row { IsSome row.now.slot }
    ensures infallible { IsTrue S.infallible → result ≡ true }
    ensures kept { S.kept sink.new ≡ S.kept sink.old }
    ensures told { result ≡ true →
        S.told sink.new ≡ S.told sink.old ++ map lock_part (map (run_of key.now) (spans_at locks.now row.now)) }
{
    let mut next = locks.first_run(row);
    while let Some(span) = locks.run(&next) {
        let part = lock_part(&Run {
            key: *key,
            start: span.start,
            end: span.end,
            mark: span.mark,
        });
        if !sink.tell(&part) {
            return false;
        }
        locks.next_run(&mut next);
    }
    true
}
