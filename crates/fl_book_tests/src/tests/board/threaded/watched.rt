//! Looks while another thread hands orders in.

ghost use Rattle.std.specs.Prelude.{◌≡◌, true};
ghost use Rattle.fl_order.specs.Order.{only_reads};

use super::super::{has_lines, lock, order};
use super::pool::{Counts, Job, Plan, Step, history_of};
use fl_order::{Answer, Errno, Op, Order};

/// How many bytes are locked in the end.
pub(super) const LOCKS: u64 = 200;

/// The first worker locks bytes 0 to i for each i below 200, and the other looks on.
pub(super) fn next_step(worker: u32, round: u64) -> Step {
    if worker > 0 {
        return Step::Watch;
    }
    if round >= LOCKS {
        return Step::End;
    }
    let set = Op::Setlk(lock(7, 0, round, 1));
    Step::HandIn(order(round + 2, 2, set))
}

/// Asks for the lock of another owner.
pub(super) fn asked() -> Order
    ensures { only_reads result.op ≡ true }
{
    order(1_000, 2, Op::Getlk(lock(8, 0, 0, 1)))
}

/// How many bytes owner 7 is shown to lock.
pub(super) fn locked(shown: Result<Answer, Errno>) -> u64 {
    match shown {
        Ok(
            Answer::Lock {
                end,
                kind: 1,
                start: 0,
                pid: 11,
            },
        ) => end.saturating_add(1),
        _ => 0,
    }
}

// All locks are shown, since the one that looks on ends only then.
#[test]
fn what_is_shown_never_shrinks(rt: HostRuntime) {
    let plan = Plan {
        threads: 2,
        each: 1,
        job: Job::Watched,
    };
    let counts = Counts::new();
    let history = history_of(&rt, rt.alloc(), 2, &counts, plan);
    // The CREATE and all locks, and their replies.
    has_lines(&rt, &history, 402);
}
