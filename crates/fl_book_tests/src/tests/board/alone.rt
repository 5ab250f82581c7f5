//! Orders that are handed in alone.

ghost use Rattle.std.specs.Prelude.{◌≡◌};
ghost use Rattle.fl_counter.specs.Tolds.{HasRoom};

use super::{closed, create, has_lines, is_judged, lock, new_tolds, opened, order, upto};
use fl_book::{
    Ask, Board, BoardName, FreshLog, HandFault, History, NothingOutgoing, Rules, Seat, Verdict,
};
use fl_core::Tolds;
use fl_order::{Op, Order};
use std::alloc::Global;
use std::marker::Brand;
use std::process::Abort;
use std::sync::Wait;
use std::sync::ledger::Blank;

// An order is handed in alone. If memory runs out, that changes nothing, and it is handed in again.
pub(super) fn take_alone<L: BoardName, R: Wait + Abort>(
    rt: &R,
    board: &Board<L, &R>,
    seat: &mut Seat<L>,
    order: &Order,
    tolds: &mut Tolds,
)
    requires { HasRoom L.rules tolds.old }
    ensures { tolds.new.room ≡ tolds.old.room }
{
    match board.hand_in_one(rt, &NothingOutgoing, seat, order, tolds) {
        Ok(()) => {}
        Err(fault) => {
            assert!(rt; fault == HandFault::NoMemory);
            let again = board.hand_in_one(rt, &NothingOutgoing, seat, order, tolds);
            assert!(rt; again.is_ok());
        }
    }
}

// An order is handed in alone, and is given these replies: which orders they reply to.
fn replies_to<L: BoardName, R: Wait + Abort>(
    rt: &R,
    board: &Board<L, &R>,
    seat: &mut Seat<L>,
    order: &Order,
    tolds: &mut Tolds,
    wanted: &[u64],
)
    requires { HasRoom L.rules tolds.old }
    ensures { tolds.new.room ≡ tolds.old.room }
{
    take_alone(rt, board, seat, order, tolds);
    let replies = tolds.as_slice();
    assert_eq!(rt; replies.len(), wanted.len());
    for at in 0..wanted.len() {
        assert!(rt; at < replies.len() && replies[at].unique == wanted[at]);
    }
}

// The first seat makes a file. Owner 8 waits for the bytes of owner 7, and gets them.
fn locks<L: BoardName, R: Wait + Abort>(
    rt: &R,
    alloc: Global,
    rules: Rules,
    board: &Board<L, &R>,
    seats: &mut [Seat<L>],
)
    requires { rules ≡ L.rules }
{
    let mut tolds = new_tolds(rt, alloc, rules);
    let seat = seats.first_mut().expect(rt, "a seat");
    let first = order(2, 2, Op::Setlk(upto(7, 9)));
    let waits = order(3, 2, Op::Setlkw(upto(8, 9)));
    let unlock = order(4, 2, Op::Setlk(lock(7, 0, 9, 2)));
    replies_to(rt, board, seat, &create(rt), &mut tolds, &[1]);
    replies_to(rt, board, seat, &first, &mut tolds, &[2]);
    replies_to(rt, board, seat, &waits, &mut tolds, &[]);
    replies_to(rt, board, seat, &unlock, &mut tolds, &[4, 3]);
}

fn history_of<L: BoardName, R: Wait + Abort>(
    rt: &R,
    alloc: Global,
    blank: Blank,
    log: FreshLog<Ask>,
    rules: Rules,
) -> History
    requires named { (blank.name ≡ L.name) × (blank.parts ≡ L.parts) }
    requires log { log ≡ L.log }
    requires rules { rules ≡ L.rules }
    requires parts { (1 ≡ L.parts) × (L.workers ≡ L.parts) }
{
    let (board, mut seats) = opened::<L, R>(rt, alloc, blank, log, 1, rules);
    locks(rt, alloc, rules, &board, &mut seats);
    closed(rt, board, seats)
}

#[test]
fn an_order_alone_is_given_all_its_replies_by_the_second_try(rt: HostRuntime) {
    let rules = Rules::standard();
    let history = history_of::<Brand, _>(&rt, rt.alloc(), Blank::new(1), FreshLog::new(), rules);
    has_lines(&rt, &history, 8);
    is_judged(&rt, rt.alloc(), &history, rules, Verdict::Legal);
}
