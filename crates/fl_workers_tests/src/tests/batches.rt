//! Orders that are handed in together, and orders between them that only read.

use super::came::Wanted;
use super::handling::comes_so;
use super::tally::{DARK, WILLING};
use fl_testing::Reply;

// The fourth and the seventh only read.
const BATCHES: &str = "\
ask 0 2 1 0 0 0 create 0 420 61
ask 0 3 2 0 0 0 setlk 1 7 0 9 1 11 0
ask 0 4 2 0 0 0 setlk 1 8 20 29 1 12 0
ask 0 5 2 0 0 0 getattr
ask 0 6 2 0 0 0 setlk 1 7 0 9 2 11 0
ask 0 7 2 0 0 0 setlk 1 8 20 29 2 12 0
ask 0 8 2 0 0 0 getattr
";

const DONE: &[Reply] = &[(2, 0), (3, 0), (4, 0), (5, 0), (6, 0), (7, 0), (8, 0)];

const SPLIT: Wanted<'static> = Wanted {
    handed: &[2, 3, 4, 6, 7],
    batches: &[3, 2],
    looked: &[5, 8],
    refused: false,
    replies: DONE,
    ends: "",
};

// Each that only reads is handed in with the next.
const NOT_SPLIT: Wanted<'static> = Wanted {
    handed: &[2, 3, 4, 5, 6, 7, 8],
    batches: &[3, 3, 1],
    looked: &[],
    refused: false,
    replies: DONE,
    ends: "",
};

const READS: &str = "\
ask 0 2 1 0 0 0 create 0 420 61
ask 0 3 2 0 0 0 getattr
ask 0 4 2 0 0 0 setlk 1 7 0 9 1 11 0
ask 0 5 3 0 0 0 getattr
ask 0 6 1 0 0 0 lookup 62
ask 0 7 2 0 0 0 getlk 1 8 0 0 1 12 0
";

const REPLIES: &[Reply] = &[(2, 0), (3, 0), (4, 0), (5, 2), (6, 2), (7, 0)];

// The reply to the GETLK: a write lock of bytes 0 to 9 by the process 11.
const LOCKED: &str =
    "2800000000000000070000000000000000000000000000000900000000000000010000000b000000";

const SHOWN: Wanted<'static> = Wanted {
    handed: &[2, 4, 6],
    batches: &[1, 1, 1],
    looked: &[3, 5, 7],
    refused: false,
    replies: REPLIES,
    ends: LOCKED,
};

const HANDED_IN: Wanted<'static> = Wanted {
    handed: &[2, 3, 4, 5, 6, 7],
    batches: &[1, 2, 2, 1],
    looked: &[],
    refused: false,
    replies: REPLIES,
    ends: LOCKED,
};

#[test]
fn what_only_reads_splits_a_batch(rt: HostRuntime) {
    comes_so(&rt, rt.alloc(), WILLING, BATCHES, &SPLIT);
    comes_so(&rt, rt.alloc(), WILLING, READS, &SHOWN);
}

#[test]
fn what_is_not_shown_is_handed_in(rt: HostRuntime) {
    comes_so(&rt, rt.alloc(), DARK, BATCHES, &NOT_SPLIT);
    comes_so(&rt, rt.alloc(), DARK, READS, &HANDED_IN);
}

// The second looks at what the third locks.
const A_LOOK_BEFORE_A_LOCK: &str = "\
ask 0 2 1 0 0 0 create 0 420 61
ask 0 3 2 0 0 0 getlk 1 8 0 9 1 12 0
ask 0 4 2 0 0 0 setlk 1 7 0 9 1 11 0
";

// The last replies: no lock of bytes 0 to 9, and that it is set.
const NOT_LOCKED: Wanted<'static> = Wanted {
    handed: &[2, 4],
    batches: &[1, 1],
    looked: &[3],
    refused: false,
    replies: &[(2, 0), (3, 0), (4, 0)],
    ends: "2800000000000000030000000000000000000000000000000900000000000000020000000c00000010000000000000000400000000000000",
};

#[test]
fn a_look_shows_no_order_behind_it(rt: HostRuntime) {
    comes_so(&rt, rt.alloc(), WILLING, A_LOOK_BEFORE_A_LOCK, &NOT_LOCKED);
}
