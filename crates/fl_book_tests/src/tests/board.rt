//! A board, and what its seats are shown.

ghost use Rattle.std.specs.Prelude.{◌≡◌, ◌<◌, ◌≤◌, true};
ghost use Rattle.fl_counter.specs.Tolds.{HasRoom};
ghost use Rattle.fl_order.specs.Order.{only_reads};

mod alone;
mod batches;
mod looks;
mod threaded;

use fl_book::{Ask, Board, BoardName, FreshLog, History, Lines, Rules, Seat, Verdict, check};
use fl_core::Tolds;
use fl_order::{Answer, Errno, LockAsk, Name, Op, Order};
use std::alloc::Global;
use std::process::Abort;
use std::sync::Wait;
use std::sync::ledger::Blank;

fn order(unique: u64, node: u64, op: Op) -> Order
    ensures { result.op ≡ op }
{
    Order {
        unique,
        node,
        uid: 0,
        gid: 0,
        pid: 0,
        op,
    }
}

// Makes one file, with one open file.
fn create(rt: &impl Abort) -> Order {
    let name = Name::new(b"a").expect(rt, "a name");
    let op = Op::Create {
        excl: false,
        mode: 420,
        name,
    };
    order(1, 1, op)
}

// A lock of an owner on the bytes `start` to `end` of that file, or an unlock.
fn lock(owner: u64, start: u64, end: u64, kind: u32) -> LockAsk {
    LockAsk {
        fh: 1,
        owner,
        start,
        end,
        kind,
        pid: 11,
        flags: 0,
    }
}

// A write lock of an owner on the bytes up to the last.
fn upto(owner: u64, last: u64) -> LockAsk {
    lock(owner, 0, last, 1)
}

// Hands in an order, which is taken.
fn take<L: BoardName, R: Wait + Abort>(
    rt: &R,
    board: &Board<L, &R>,
    seat: &mut Seat<L>,
    order: &Order,
    tolds: &mut Tolds,
)
    requires { HasRoom L.rules tolds.old }
    ensures { tolds.new.room ≡ tolds.old.room }
{
    let handed = board.hand_in(rt, seat, order, tolds).is_ok();
    assert!(rt; handed);
}

// What a seat is shown.
fn see<L: BoardName, R: Wait + Abort>(
    rt: &R,
    board: &Board<L, &R>,
    seat: &mut Seat<L>,
    order: &Order,
) -> Result<Answer, Errno>
    requires { only_reads order.now.op ≡ true }
{
    board.look(seat, order).ok().expect(rt, "a view")
}

// A board over a journal, and its seats.
fn opened<L: BoardName, R: Wait + Abort>(
    rt: &R,
    alloc: Global,
    blank: Blank,
    log: FreshLog<Ask>,
    workers: u32,
    rules: Rules,
) -> (Board<L, &R>, Vec<Seat<L>>)
    requires named { (blank.name ≡ L.name) × (blank.parts ≡ L.parts) }
    requires log { log ≡ L.log }
    requires rules { rules ≡ L.rules }
    requires parts { (workers ≡ L.parts) × (L.workers ≡ L.parts) }
    requires workers { (0 < workers) × (workers ≤ 16) }
{
    let lines = Lines::new(alloc);
    Board::<L, &R>::over(alloc, rt, lines, blank, log, workers, rules)
        .ok()
        .expect(rt, "a board")
}

// The history that a board's journal has, if all seats are handed back.
fn closed<L: BoardName, R: Wait + Abort>(
    rt: &R,
    board: Board<L, &R>,
    seats: Vec<Seat<L>>,
) -> History
    requires { L.workers ≡ L.parts }
{
    match board.into_journal(seats) {
        Ok(lines) => History::of(lines),
        Err(_) => panic!(rt; "a seat is missing"),
    }
}

fn new_tolds(rt: &impl Abort, alloc: Global, rules: Rules) -> Tolds
    ensures { HasRoom rules result }
{
    Tolds::new(alloc, rules).expect(rt, "memory")
}

// By these rules this is said of a history.
fn is_judged(rt: &impl Abort, alloc: Global, history: &History, rules: Rules, wanted: Verdict) {
    let verdict = check(alloc, history, rules).expect(rt, "memory");
    assert!(rt; verdict == wanted);
}

// A history has so many lines.
fn has_lines(rt: &impl Abort, history: &History, lines: usize) {
    assert_eq!(rt; history.len(), lines);
}
