//! Tests of an intake.

ghost use Rattle.std.specs.Prelude.{◌≤◌};

mod boxes;
mod bursts;
mod many;
mod pool;

use fl_order::{LockAsk, Name, Op, Order};
use std::process::Abort;

// A name of so many bytes. Orders of one kind that come one after another have different names.
fn name(rt: &impl Abort, unique: u64, len: usize) -> Name
    requires { len ≤ 255 }
{
    let bytes = [b'a' + (unique % 26) as u8; 255];
    Name::new(&bytes[..len]).expect(rt, "a name")
}

fn lock(unique: u64) -> LockAsk {
    LockAsk {
        fh: unique / 2,
        owner: unique / 3,
        start: unique / 5,
        end: unique / 7,
        kind: (unique % 3) as u32,
        pid: (unique % 1_009) as u32,
        flags: (unique % 2) as u32,
    }
}

// What is asked by the order with this unique: fifteen in a row are of all kinds, and their names have 1 or 255 bytes.
fn op(rt: &impl Abort, unique: u64) -> Op {
    match unique % 15 {
        0 => Op::Create {
            excl: unique % 30 == 0,
            mode: (unique % 511) as u32,
            name: name(rt, unique, 255),
        },
        1 => Op::Setlk(lock(unique)),
        2 => Op::Lookup(name(rt, unique, 1)),
        3 => Op::Flush {
            fh: unique / 2,
            owner: unique / 3,
        },
        4 => Op::Setlkw(lock(unique)),
        5 => Op::Unlink(name(rt, unique, 255)),
        6 => Op::Getattr,
        7 => Op::Getlk(lock(unique)),
        8 => Op::Forget(unique / 2),
        9 => Op::Open,
        10 => Op::Release {
            fh: unique / 2,
            drop: unique % 30 == 10,
            owner: unique / 3,
        },
        11 => Op::Mknod {
            mode: (unique % 65_521) as u32,
            name: name(rt, unique, 255),
        },
        12 => Op::Mkdir {
            mode: (unique % 65_519) as u32,
            name: name(rt, unique, 1),
        },
        13 => Op::Rmdir(name(rt, unique, 255)),
        _ => Op::Interrupt(unique / 2),
    }
}

// The order with this unique.
fn order(rt: &impl Abort, unique: u64) -> Order {
    Order {
        unique,
        node: unique / 2,
        uid: (unique % 1_013) as u32,
        gid: (unique % 1_019) as u32,
        pid: (unique % 1_021) as u32,
        op: op(rt, unique),
    }
}

// Each of these orders is, with all its parts, the one that has its unique.
fn are_whole(rt: &impl Abort, orders: &[Order]) {
    for found in orders {
        assert_eq!(rt; *found, order(rt, found.unique));
    }
}

// The orders have these uniques, and are whole.
fn are_uniques(rt: &impl Abort, orders: &[Order], wanted: &[u64]) {
    are_whole(rt, orders);
    assert_eq!(rt; orders.len(), wanted.len());
    for at in 0..wanted.len() {
        assert!(rt; at < orders.len() && orders[at].unique == wanted[at]);
    }
}
