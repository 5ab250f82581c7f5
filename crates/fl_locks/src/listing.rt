//! All rows.

ghost use Rattle.std.specs.Prelude.{◌≡◌, ◌++◌, [], IfOk, OnOk, map};
ghost use Rattle.fl_marks.specs.HeldRuns.{runs_in_order};
ghost use Rattle.fl_locks.specs.LockRows.{held_row, waiting_row, waiting_rows, rows_of, BlockersBlock};
ghost use Rattle.fl_locks.specs.Inside.{requests_of};

use crate::blockers::blockers_of;
use crate::lock::Lock;
use crate::row::{Blockers, LockRow};
use fl_core::Core;
use fl_dir::Dir;
use fl_marks::Run;
use fl_order::NoMemory;
use fl_waiting::Claim;
use std::alloc::Global;

/// The locks that are held and the requests that wait, by node in ascending order. Of one node, first come the locks
/// that are held, record locks before whole-file locks, by first byte, then by owner; after them the requests, the
/// oldest first. It fails only if memory runs out.
pub fn lock_rows(alloc: Global, core: &Core) -> Result<Vec<LockRow>, NoMemory>
    ensures rows { IfOk result (λ rows. rows.items ≡ rows_of core.now) }
    ensures blockers { IfOk result (λ _. BlockersBlock core.now) }
{
    let runs = core.table().held_runs(alloc)?;
    let claims = core.parked().claims(alloc)?;
    let mut rows = Vec::new(alloc);
    add_held(&mut rows, alloc, core.directory(), &runs)?;
    add_waiting(&mut rows, alloc, core, &runs, &claims)?;
    rows.sort_by_key(|row| row.key.node)?;
    Ok(rows)
}

// Adds a row for each lock that is held.
fn add_held(
    rows: &mut Vec<LockRow>,
    alloc: Global,
    directory: &Dir,
    runs: &[Run],
) -> Result<(), NoMemory>
    ensures { OnOk result (rows.new.items ≡ rows.old.items ++ map (held_row directory.now) runs.now) }
{
    for run in runs {
        rows.push(LockRow {
            key: run.key,
            start: run.start,
            end: run.end,
            mark: run.mark,
            name: directory.name_of(run.key.node),
            linked: directory.is_linked(run.key.node),
            unique: None,
            blockers: Blockers::none(alloc),
        })?;
    }
    Ok(())
}

// Adds a row for each request that waits.
fn add_waiting(
    rows: &mut Vec<LockRow>,
    alloc: Global,
    core: &Core,
    runs: &[Run],
    claims: &[Claim],
) -> Result<(), NoMemory>
    requires { runs.now ≡ runs_in_order core.now.marking }
    ensures { OnOk result
        (rows.new.items ≡ rows.old.items ++ waiting_rows core.now [] (requests_of claims.now)) }
{
    for i in 0..claims.len() {
        if let Some(row) = waiting_row(alloc, core, runs, &claims[..i], &claims[i])? {
            rows.push(row)?;
        }
    }
    Ok(())
}

// The row of a request that waits, behind these older ones; none if it asks to unlock.
fn waiting_row(
    alloc: Global,
    core: &Core,
    runs: &[Run],
    older: &[Claim],
    claim: &Claim,
) -> Result<Option<LockRow>, NoMemory>
    requires { runs.now ≡ runs_in_order core.now.marking }
    ensures { IfOk result (λ row. row ≡ waiting_row core.now (requests_of older.now) claim.now.request) }
{
    let Some(mark) = claim.mark else {
        return Ok(None);
    };
    let wanted = Lock {
        key: claim.key,
        start: claim.range.start,
        end: claim.range.end,
        kind: mark.kind,
    };
    Ok(Some(LockRow {
        key: wanted.key,
        start: wanted.start,
        end: wanted.end,
        mark,
        name: core.directory().name_of(wanted.key.node),
        linked: core.directory().is_linked(wanted.key.node),
        unique: Some(claim.request.unique),
        blockers: blockers_of(alloc, core.rules(), runs, older, &wanted)?,
    }))
}
