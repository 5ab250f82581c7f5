//! Batches of orders that are handed in at once.

ghost use Rattle.std.specs.Prelude.{◌≡◌, ◌<◌, ◌≤◌, ◌+◌};
ghost use Rattle.fl_counter.specs.Tolds.{HasRoom};

use super::{closed, has_lines, new_tolds, opened, order};
use fl_book::{Ask, Board, BoardName, FreshLog, History, NothingOutgoing, Rules, Seat, ToldLists};
use fl_core::Tolds;
use fl_order::{Op, Order};
use std::alloc::Global;
use std::marker::Brand;
use std::process::Abort;
use std::sync::Wait;
use std::sync::ledger::Blank;

// A batch that is handed in whole. It gets a list of replies for each order that was taken.
fn hand_in<L: BoardName, R: Wait + Abort>(
    rt: &R,
    board: &Board<L, &R>,
    seat: &mut Seat<L>,
    batch: &[Order],
    tolds: &mut Tolds,
    lists: &mut ToldLists,
)
    requires room { HasRoom L.rules tolds.old }
    requires lists { (L.rules.parked + 1 ≤ lists.old.room) × (0 < lists.old.places) }
{
    let handed = board
        .hand_in_all(rt, &NothingOutgoing, seat, batch, tolds, lists)
        .is_ok();
    assert!(rt; handed);
}

// How many replies each order was given.
fn counts_are(rt: &impl Abort, lists: &ToldLists, wanted: &[usize]) {
    assert_eq!(rt; lists.count(), wanted.len());
    for at in 0..wanted.len() {
        assert!(rt; at < lists.count() && lists.list(at).len() == wanted[at]);
    }
}

// A batch at the first seat, and how many replies each order was given.
pub(super) fn handed_in<L: BoardName, R: Wait + Abort>(
    rt: &R,
    alloc: Global,
    rules: Rules,
    board: &Board<L, &R>,
    seats: &mut [Seat<L>],
    batch: &[Order],
    wanted: &[usize],
)
    requires { rules ≡ L.rules }
{
    let mut tolds = new_tolds(rt, alloc, rules);
    let mut lists = ToldLists::new(alloc, rules).expect(rt, "memory");
    let seat = seats.first_mut().expect(rt, "a seat");
    hand_in(rt, board, seat, batch, &mut tolds, &mut lists);
    counts_are(rt, &lists, wanted);
}

// The history of a board of one seat that is handed in a batch.
fn history_of<L: BoardName, R: Wait + Abort>(
    rt: &R,
    alloc: Global,
    blank: Blank,
    log: FreshLog<Ask>,
    rules: Rules,
    batch: &[Order],
    wanted: &[usize],
) -> History
    requires named { (blank.name ≡ L.name) × (blank.parts ≡ L.parts) }
    requires log { log ≡ L.log }
    requires rules { rules ≡ L.rules }
    requires parts { (1 ≡ L.parts) × (L.workers ≡ L.parts) }
{
    let (board, mut seats) = opened::<L, R>(rt, alloc, blank, log, 1, rules);
    handed_in(rt, alloc, rules, &board, &mut seats, batch, wanted);
    closed(rt, board, seats)
}

fn handed<R: Wait + Abort>(rt: &R, alloc: Global, batch: &[Order], wanted: &[usize]) -> History {
    let (blank, log, rules) = (Blank::new(1), FreshLog::new(), Rules::standard());
    history_of::<Brand, _>(rt, alloc, blank, log, rules, batch, wanted)
}

#[test]
fn a_batch_ends_behind_sixteen(rt: HostRuntime) {
    let batch = [order(1, 1, Op::Getattr); 20];
    let history = handed(&rt, rt.alloc(), &batch, &[1; 16]);
    has_lines(&rt, &history, 32);
}
