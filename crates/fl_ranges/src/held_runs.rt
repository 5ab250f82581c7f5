//! All locks that are held, as runs in order.
ghost use Rattle.std.specs.Prelude.{◌≡◌, ◌++◌, ◌<◌, IfOk, OnOk, IsSome, map};
ghost use Rattle.fl_spans.specs.Rows.{rows, chain_count, IsRow};
ghost use Rattle.fl_spans.specs.Row.{spans_at};
ghost use Rattle.fl_marks.specs.HeldRuns.{listing_cmp};
ghost use Rattle.fl_ranges.specs.Layout.{run_of, runs_in, table_runs};

use crate::table::Table;
use fl_marks::{Key, Mark, Run};
use fl_spans::{Cursor, Rows, Span};
use std::alloc::{AllocError, Global};
use std::cmp::Ordering;

impl Table {
    ghost use Rattle.fl_marks.specs.HeldRuns.{runs_in_order, ConflictAsMarks};

    /// The locks that are held, as runs of bytes: by node, then record locks before whole-file locks, then by first
    /// byte, then by owner. It fails only if memory runs out.
    pub fn held_runs(&self, alloc: Global) -> Result<Vec<Run>, AllocError>
        ensures runs { IfOk result (λ runs. runs.items ≡ runs_in_order self.now.marking) }
        ensures conflicts { IfOk result (λ runs. ConflictAsMarks self.now.marking runs.items) }
    {
        let mut runs = all_runs(alloc, &self.rows)?;
        runs.sort_unstable_by(|a, b| compare(a, b));
        Ok(runs)
    }
}

// How two runs stand in the order of the list.
fn compare(a: &Run, b: &Run) -> Ordering
    ensures { result ≡ listing_cmp (a.now.key, a.now.start) (b.now.key, b.now.start) }
{
    let node = a.key.node.cmp(&b.key.node);
    let class = (a.key.class as u8).cmp(&(b.key.class as u8));
    let start = a.start.cmp(&b.start);
    node.then(class.then(start.then(a.key.owner.cmp(&b.key.owner))))
}

// The runs of all rows, chain after chain.
fn all_runs(alloc: Global, table: &Rows<Key, Span<Mark>>) -> Result<Vec<Run>, AllocError>
    ensures { IfOk result (λ runs. runs.items ≡ table_runs table.now) }
{
    let mut runs = Vec::new(alloc);
    for chain in 0..table.chain_count() {
        add_chain(&mut runs, table, chain)?;
    }
    Ok(runs)
}

// Adds the runs of a chain's rows.
fn add_chain(
    runs: &mut Vec<Run>,
    table: &Rows<Key, Span<Mark>>,
    chain: usize,
) -> Result<(), AllocError>
    requires { chain < chain_count table.now }
    ensures { OnOk result (runs.new.items ≡ runs.old.items ++ runs_in (rows table.now chain)) }
{
    let mut row = table.first_row(chain);
    while let Some(key) = table.key(&row) {
        add_row(runs, table, key, &row)?;
        table.next_row(&mut row);
    }
    Ok(())
}

// Adds the runs of the row at a cursor, which is the key's.
fn add_row(
    runs: &mut Vec<Run>,
    table: &Rows<Key, Span<Mark>>,
    key: &Key,
    row: &Cursor,
) -> Result<(), AllocError>
    requires row { IsRow table.now row.now }
    requires at_row { IsSome row.now.slot }
    ensures { OnOk result (runs.new.items ≡ runs.old.items ++ map (run_of key.now) (spans_at table.now row.now)) }
{
    let mut next = table.first_run(row);
    while let Some(span) = table.run(&next) {
        runs.push(Run {
            key: *key,
            start: span.start,
            end: span.end,
            mark: span.mark,
        })?;
        table.next_run(&mut next);
    }
    Ok(())
}
