//! A board is a counter.

ghost use Rattle.std.specs.Prelude.{◌+◌};
ghost use Rattle.fl_board.specs.Shown.{front_of};
ghost use Rattle.fl_counter.specs.Answered.{answered_by};
ghost use Rattle.fl_desk.specs.Answered.{IsAnsweredAfter};

use crate::board::Board;
use fl_core::Tolds;
use fl_desk::{Counter, HandFault, NoView, Outgoing, ToldLists};
use fl_history::Journal;
use fl_order::{Answer, Errno, Order};
use fl_record::Seat;
use fl_record::laws::answered_last;
use fl_replica::BoardName;
use std::sync::Wait;

impl<L: BoardName, P: Wait + Drop + Copy, J: Journal> Counter for Board<L, P, J> {
    type Seat = Seat<L>;

    ghost count = { λ seat. seat.count };

    ghost worker = { λ seat. seat.worker };

    ghost answered = { λ seat. answered_by seat.worker seat.handed };

    ghost front = { λ seat. front_of seat };

    ghost stored = { λ seat. seat.stored };

    ghost shows = { λ lines order result. IsAnsweredAfter L.rules lines order result };

    ghost most_tolds = { L.rules.parked + 1 };

    fn hand_in_all<R: Wait, O: Outgoing>(
        &self,
        rt: &R,
        outgoing: &O,
        seat: &mut Seat<L>,
        orders: &[Order],
        tolds: &mut Tolds,
        lists: &mut ToldLists,
    ) -> Result<(), HandFault> {
        answered_last();
        Board::hand_in_all(self, rt, outgoing, seat, orders, tolds, lists)
    }

    fn hand_in_one<R: Wait, O: Outgoing>(
        &self,
        rt: &R,
        outgoing: &O,
        seat: &mut Seat<L>,
        order: &Order,
        tolds: &mut Tolds,
    ) -> Result<(), HandFault> {
        answered_last();
        Board::hand_in_one(self, rt, outgoing, seat, order, tolds)
    }

    fn look(&self, seat: &mut Seat<L>, order: &Order) -> Result<Result<Answer, Errno>, NoView> {
        Board::look(self, seat, order)
    }

    fn warm<R: Wait>(&self, rt: &R, seat: &mut Seat<L>) {
        Board::warm(self, rt, seat);
    }

    fn pause<R: Wait>(&self, rt: &R) {
        Board::pause(self, rt);
    }
}
