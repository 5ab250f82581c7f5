//! Who keeps a request waiting.

ghost use Rattle.std.specs.Prelude.{◌≡◌, ◌++◌, ◌==◌, IfOk, OnOk, map};
ghost use Rattle.std.specs.List.{filter};
ghost use Rattle.std.specs.List.Sorted.{IsNonDecreasingBy};
ghost use Rattle.fl_waiting.specs.Waiting.{older_blocks};
ghost use Rattle.fl_locks.specs.LockRows.{lock_on, holder, asker, goes_first, first_pids, in_the_way_of};
ghost use Rattle.fl_locks.specs.Inside.{meant, requests_of, IsPart};

use crate::lock::{Lock, goes_first, is_in_the_way, lock_on};
use crate::row::{Blocker, Blockers};
use fl_marks::Run;
use fl_order::NoMemory;
use fl_waiting::{Claim, Rules};
use std::alloc::Global;

// The owners who keep a request waiting that wants this lock, behind these older ones. The runs stand in the order of
// their nodes.
pub(crate) fn blockers_of(
    alloc: Global,
    rules: Rules,
    runs: &[Run],
    older: &[Claim],
    wanted: &Lock,
) -> Result<Blockers, NoMemory>
    requires { IsNonDecreasingBy (λ r. r.key.node) runs.now }
    ensures { IfOk result (λ found. found
        ≡ first_pids (in_the_way_of rules runs.now (requests_of older.now) (meant wanted.now))) }
{
    let mut found = Vec::new(alloc);
    add_holders(&mut found, runs_on(runs, wanted.key.node), wanted)?;
    if rules.fair {
        add_askers(&mut found, older, wanted)?;
    }
    found.sort_by_key(|blocker| blocker.owner)?;
    found.dedup_by_key(|blocker| blocker.owner);
    Ok(Blockers::new(found))
}

// The runs of a node, of runs in the order of their nodes.
fn runs_on(runs: &[Run], node: u64) -> &[Run]
    requires { IsNonDecreasingBy (λ r. r.key.node) runs.now }
    ensures { IsPart (λ r. r.key.node == node) runs.now result.now }
{
    let start = runs.partition_point(|run| run.key.node < node);
    let rest = &runs[start..];
    let end = rest.partition_point(|run| run.key.node <= node);
    &rest[..end]
}

// Adds the owner of each run that conflicts with the lock.
fn add_holders(found: &mut Vec<Blocker>, runs: &[Run], wanted: &Lock) -> Result<(), NoMemory>
    ensures { OnOk result (found.new.items ≡ found.old.items
        ++ map holder (filter (λ r. older_blocks (meant wanted.now) (lock_on r)) runs.now)) }
{
    for run in runs {
        if is_in_the_way(wanted, &lock_on(run)) {
            found.push(Blocker {
                owner: run.key.owner,
                pid: run.mark.pid,
            })?;
        }
    }
    Ok(())
}

// Adds the owner of each older request that goes first.
fn add_askers(found: &mut Vec<Blocker>, older: &[Claim], wanted: &Lock) -> Result<(), NoMemory>
    ensures { OnOk result (found.new.items ≡ found.old.items
        ++ map asker (filter (goes_first (meant wanted.now)) (requests_of older.now))) }
{
    for claim in older {
        if goes_first(wanted, claim) {
            let ask = &claim.request.ask;
            found.push(Blocker {
                owner: ask.owner,
                pid: ask.pid,
            })?;
        }
    }
    Ok(())
}
