//! The lock that F_GETLK names.
ghost use Rattle.std.specs.Prelude.{◌≡◌, ◌≤◌, ℕ, None, option_map};
ghost use Rattle.fl_spans.specs.Rows.{rows, chain_count};
ghost use Rattle.fl_ranges.specs.Inside.LockRows.{AreLockRows};
ghost use Rattle.fl_ranges.specs.Layout.{table_runs};
ghost use Rattle.fl_ranges.specs.Inside.Nearest.{nearest_from, lock_of};

use crate::contenders::{conflicting_span, first_of_class, owner_at};
use crate::table::Table;
use fl_marks::{Held, Key, Kind, Mark, Range, Run};
use fl_spans::{Rows, Span};

impl Table {
    ghost use Rattle.fl_marks.specs.Blocker.{blocker};

    /// The lock that F_GETLK names (POSIX.1-2017 `fcntl`): at the least byte of the range at which a lock of
    /// another owner conflicts with one of this kind, that of the least such owner, on all the bytes around that one
    /// on which it has the same mark. None if no lock conflicts with it.
    pub fn blocker(&self, key: &Key, range: &Range, kind: Kind) -> Option<Held>
        ensures { result ≡ blocker self.now.marking key.now range.now.start range.now.end kind }
    {
        lock_of(nearest(&self.rows, key, range, kind))
    }
}

// The lock of a run, if there is one.
fn lock_of(run: Option<Run>) -> Option<Held>
    ensures { result ≡ option_map lock_of run }
{
    let run = run?;
    Some(Held {
        owner: run.key.owner,
        start: run.start,
        end: run.end,
        mark: run.mark,
    })
}

// Of the runs that conflict with a lock of this kind, by this key, on the range, that with the least first byte in
// the range, and of those the least owner's. Rows stand in the order of their owners, so a later one is looked at up
// to the byte before that of the nearest so far.
fn nearest(table: &Rows<Key, Span<Mark>>, key: &Key, range: &Range, kind: Kind) -> Option<Run>
    requires chains { 1 ≤ chain_count table.now }
    requires kept { (c : ℕ) → AreLockRows (chain_count table.now) c (rows table.now c) }
    ensures { result
        ≡ nearest_from key.now range.now.start range.now.end kind None (table_runs table.now) }
{
    let mut best = None;
    let mut last = range.end;
    let mut row = first_of_class(table, key);
    while let Some(owner) = owner_at(table, key, &row) {
        let part = Range {
            start: range.start,
            end: last,
        };
        if let Some(span) = conflicting_span(table, &row, owner, key, &part, kind) {
            best = Some(Run {
                key: Key { owner, ..*key },
                start: span.start,
                end: span.end,
                mark: span.mark,
            });
            if span.start <= range.start {
                break;
            }
            last = span.start - 1;
        }
        table.next_row(&mut row);
    }
    best
}
