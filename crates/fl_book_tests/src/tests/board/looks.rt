//! What a look shows to a seat that has no right to wait.

ghost use Rattle.std.specs.Prelude.{◌≡◌};
ghost use Rattle.fl_counter.specs.Tolds.{HasRoom};

use super::alone::take_alone;
use super::batches::handed_in;
use super::{closed, create, has_lines, new_tolds, opened, order, take, upto};
use fl_book::{Ask, Board, BoardName, FreshLog, History, Rules, Seat};
use fl_core::Tolds;
use fl_order::{Answer, Op};
use std::alloc::Global;
use std::marker::Brand;
use std::process::Abort;
use std::sync::Wait;
use std::sync::ledger::Blank;

// The last byte that owner 7 is shown to lock. It is given the seat alone, and so has no right to wait.
fn last_locked<L: BoardName>(seat: &mut Seat<L>) -> Option<u64> {
    let ask = order(90, 2, Op::Getlk(upto(8, 0)));
    match seat.look(&ask) {
        Ok(Ok(Answer::Lock { end, .. })) => Some(end),
        _ => None,
    }
}

// A seat hands in locks that grow, and is shown each one as soon as it is handed in.
fn lock_more_and_more<L: BoardName, R: Wait + Abort>(
    rt: &R,
    board: &Board<L, &R>,
    seat: &mut Seat<L>,
    tolds: &mut Tolds,
)
    requires { HasRoom L.rules tolds.old }
{
    take(rt, board, seat, &create(rt), tolds);
    for last in 0..20u64 {
        let lock = order(last.saturating_add(2), 2, Op::Setlk(upto(7, last)));
        take(rt, board, seat, &lock, tolds);
        assert!(rt; last_locked(seat) == Some(last));
    }
}

// The first of these seats does, and then has no order at hand.
fn first_locks<L: BoardName, R: Wait + Abort>(
    rt: &R,
    alloc: Global,
    rules: Rules,
    board: &Board<L, &R>,
    seats: &mut [Seat<L>],
)
    requires { rules ≡ L.rules }
{
    let mut tolds = new_tolds(rt, alloc, rules);
    let seat = seats.first_mut().expect(rt, "a seat");
    lock_more_and_more(rt, board, seat, &mut tolds);
    board.pause(rt);
}

fn shown_each<L: BoardName, R: Wait + Abort>(
    rt: &R,
    alloc: Global,
    blank: Blank,
    log: FreshLog<Ask>,
    rules: Rules,
) -> History
    requires named { (blank.name ≡ L.name) × (blank.parts ≡ L.parts) }
    requires log { log ≡ L.log }
    requires rules { rules ≡ L.rules }
    requires parts { (1 ≡ L.parts) × (L.workers ≡ L.parts) }
{
    let (board, mut seats) = opened::<L, R>(rt, alloc, blank, log, 1, rules);
    first_locks(rt, alloc, rules, &board, &mut seats);
    closed(rt, board, seats)
}

#[test]
fn a_seat_without_the_right_to_wait_is_shown_each_order(rt: HostRuntime) {
    let rules = Rules::standard();
    let history = shown_each::<Brand, _>(&rt, rt.alloc(), Blank::new(1), FreshLog::new(), rules);
    // The CREATE and the locks, with a reply each: looks are no lines.
    has_lines(&rt, &history, 42);
}

// Whether a look finds something.
fn finds<L: BoardName, R: Wait>(board: &Board<L, &R>, seats: &mut [Seat<L>]) -> bool {
    let ask = order(90, 1, Op::Getattr);
    match seats.first_mut() {
        Some(seat) => board.look(seat, &ask).is_ok(),
        None => false,
    }
}

// What looks read is made anew.
fn warms<L: BoardName, R: Wait>(rt: &R, board: &Board<L, &R>, seats: &mut [Seat<L>]) {
    if let Some(seat) = seats.first_mut() {
        board.warm(rt, seat);
    }
}

// The board takes sixteen orders at once.
fn sixteen<L: BoardName, R: Wait + Abort>(
    rt: &R,
    alloc: Global,
    rules: Rules,
    board: &Board<L, &R>,
    seats: &mut [Seat<L>],
)
    requires { rules ≡ L.rules }
{
    let batch = [order(1, 1, Op::Getattr); 16];
    handed_in(rt, alloc, rules, board, seats, &batch, &[1; 16]);
}

// The board takes four orders, one by one.
fn four_alone<L: BoardName, R: Wait + Abort>(
    rt: &R,
    alloc: Global,
    rules: Rules,
    board: &Board<L, &R>,
    seats: &mut [Seat<L>],
)
    requires { rules ≡ L.rules }
{
    let mut tolds = new_tolds(rt, alloc, rules);
    let seat = seats.first_mut().expect(rt, "a seat");
    for _ in 0..4 {
        take_alone(rt, board, seat, &order(1, 1, Op::Getattr), &mut tolds);
    }
}

// A board takes sixteen orders, 20 after a look, and 32 once copies were made anew.
fn idle<L: BoardName, R: Wait + Abort>(
    rt: &R,
    alloc: Global,
    blank: Blank,
    log: FreshLog<Ask>,
    rules: Rules,
) -> History
    requires named { (blank.name ≡ L.name) × (blank.parts ≡ L.parts) }
    requires log { log ≡ L.log }
    requires rules { rules ≡ L.rules }
    requires parts { (1 ≡ L.parts) × (L.workers ≡ L.parts) }
{
    let (board, mut seats) = opened::<L, R>(rt, alloc, blank, log, 1, rules);
    sixteen(rt, alloc, rules, &board, &mut seats);
    assert!(rt; finds(&board, &mut seats));
    sixteen(rt, alloc, rules, &board, &mut seats);
    four_alone(rt, alloc, rules, &board, &mut seats);
    assert!(rt; !finds(&board, &mut seats));
    warms(rt, &board, &mut seats);
    sixteen(rt, alloc, rules, &board, &mut seats);
    sixteen(rt, alloc, rules, &board, &mut seats);
    assert!(rt; finds(&board, &mut seats));
    closed(rt, board, seats)
}

// With twenty slots, 20 orders are long enough. Copies that were made anew stay.
#[test]
fn looks_find_nothing_after_many_orders_until_copies_are_made_anew(rt: HostRuntime) {
    let limited = Rules::standard().with_limits(5, 5);
    let rules = limited.expect(&rt, "rules").with_files(5, 5);
    let rules = rules.expect(&rt, "rules");
    let history = idle::<Brand, _>(&rt, rt.alloc(), Blank::new(1), FreshLog::new(), rules);
    has_lines(&rt, &history, 136);
}
