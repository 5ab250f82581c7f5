//! Seats that hand in, look and meet in several threads, in rounds.

use super::super::{has_lines, lock, order};
use super::pool::{Counts, Job, Plan, Step, history_of};
use super::roll;
use fl_order::Op;

const ROUNDS: u64 = 200;

/// A worker hands in, or looks, or meets the next.
pub(super) fn next_step(worker: u32, round: u64) -> Step {
    if round >= ROUNDS {
        return Step::End;
    }
    match roll(worker, round) % 4 {
        0 => Step::Look,
        1 => Step::Meet,
        _ => Step::HandIn(order(
            1_000 + u64::from(worker) * 10_000 + round,
            2,
            asked(worker, round),
        )),
    }
}

// A lock, or an unlock, of one of eight bytes by the worker's own owner.
fn asked(worker: u32, round: u64) -> Op {
    let byte = roll(worker, round) / 4 % 8;
    let kind = if roll(worker, round) / 32 % 2 == 0 {
        1
    } else {
        2
    };
    Op::Setlk(lock(u64::from(worker), byte, byte, kind))
}

// Four threads with four seats each. Of their 800 steps 392 hand in an order, each of which has its reply.
#[test]
fn sixteen_seats_hand_in_look_and_meet(rt: HostRuntime) {
    let plan = Plan {
        threads: 4,
        each: 4,
        job: Job::Rounds,
    };
    let counts = Counts::new();
    let history = history_of(&rt, rt.alloc(), 16, &counts, plan);
    has_lines(&rt, &history, 2 + 2 * 392);
}
