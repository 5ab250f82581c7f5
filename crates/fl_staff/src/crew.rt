//! Who works at which seat of a counter, and who hands in what no worker took.

ghost use Rattle.std.specs.Prelude.{◌≡◌, ◌≤◌, ◌<◌, ◌+◌, ◌||◌, ℕ, Bool, [], All, length, map, sum_by, vec_capacity};
ghost use Rattle.std.specs.List.{range_with_len};
ghost use Rattle.fl_intake.specs.Often.{Weight};
ghost use Rattle.fl_pool.specs.Running.{IsReady};
ghost use Rattle.fl_pool.specs.Working.{HaveDone, IsFresh, reading};
ghost use Rattle.fl_staff.specs.Served.{IsUnused};
ghost use Rattle.fl_workers.specs.Room.{HasBatchFor, HasRoomFor};

use fl_intake::{Intake, Job, TakeEnd};
use fl_log::Appender;
use fl_pool::{Crew, Worker};
use fl_workers::laws::orders_are_worked_on_in_turn;
use fl_workers::{
    BatchRoom, Counter, Failures, Gate, Post, ReplyEntry, ReplyRoom, SharedSender, WriterName,
    handle_all,
};
use std::io::Write;
use std::sync::ledger::Share;
use std::sync::{Mutex, Wait};

/// A worker for each seat, with an appender in its name, which is cut from the rest of the sender's ledger, and
/// with one of these ends of the intake and one of these rooms. The seats are of workers 0, 1, 2, ..
pub(crate) fn manned<C: Counter, N: WriterName, W: Write>(
    crew: Crew<C, N>,
    _intake: &Intake,
    seats: Vec<C::Seat>,
    ends: Vec<TakeEnd>,
    rooms: Vec<BatchRoom>,
    sender: &SharedSender<'_, W, N>,
    rest: &mut Share<N>,
) -> Crew<C, N>
where
    C::Seat: Drop,
    requires none { (crew.workers.items ≡ []) × (sender.now.log ≡ []) }
    requires rest { (length seats.items < rest.old.parts) × (rest.old.amount ≡ 0) }
    requires whose { map C.worker seats.items ≡ range_with_len 0 (length seats.items) }
    requires few { length seats.items ≤ 16 }
    requires unused { All (IsUnused (reading C.worker C.count C.answered C.front C.stored)) seats.items }
    requires fresh { All (IsFresh _intake.now) ends.items }
    requires batches { All (HasBatchFor C.most_tolds) rooms.items }
    requires enough { (length ends.items ≡ length seats.items) × (length rooms.items ≡ length seats.items) }
    requires room { (length seats.items ≤ vec_capacity crew.workers)
        × (length seats.items ≤ vec_capacity crew.threads) × (length seats.items ≤ vec_capacity crew.back.seats)
        × (length seats.items < vec_capacity crew.back.appenders)
        × (length seats.items ≤ vec_capacity crew.back.ends) }
    ensures seats { map (λ worker. worker.post.seat) result.workers.items ≡ seats.items }
    ensures ready { All (IsReady (reading C.worker C.count C.answered C.front C.stored)
        C.most_tolds _intake.now) result.workers.items }
    ensures rest { (rest.new.parts + length seats.items ≡ rest.old.parts) × (rest.new.amount ≡ 0) }
{
    let Crew {
        mut workers,
        threads,
        back,
    } = crew;
    let mut ends = ends;
    let mut rooms = rooms;
    let mut number = 0;
    for seat in seats {
        let (Some(end), Some(room)) = (ends.pop(), rooms.pop()) else {
            unreachable!()
        };
        let own = sender.appender(rest, number);
        number += 1;
        let post = Post { seat, own };
        workers.push_reserved(Worker { post, end, room });
    }
    Crew {
        workers,
        threads,
        back,
    }
}

/// Orders that no worker took are handed in, or looked for, at the last seat, and answered in its worker's name. Tells
/// what went wrong with them.
pub(crate) fn handed_in<C: Counter, N: WriterName, R: Wait, W: Write, G: Gate>(
    rt: &R,
    counter: &C,
    gate: &G,
    sender: &Mutex<SharedSender<'_, W, N>>,
    seats: Vec<C::Seat>,
    appenders: Vec<Appender<N, ReplyEntry>>,
    replies: ReplyRoom,
    left: Vec<Job>,
) -> (Vec<C::Seat>, Vec<Appender<N, ReplyEntry>>, Failures)
where
    C::Seat: Drop,
    requires some { 0 < length seats.items }
    requires pairs { length appenders.items ≡ length seats.items }
    requires room { length appenders.items < vec_capacity appenders }
    requires replies { HasRoomFor C.most_tolds replies }
    ensures whose { map C.worker result.0.items ≡ map C.worker seats.items }
    ensures pairs { length result.1.items ≡ length appenders.items }
    ensures room { length result.1.items < vec_capacity result.1 }
    ensures did { (orders : Weight → ℕ) (any lost : Bool)
        → HaveDone (reading C.worker C.count C.answered C.front C.stored) C.shows orders seats.items appenders.items
        any lost
        → HaveDone (reading C.worker C.count C.answered C.front C.stored) C.shows
        (λ weight. orders weight + sum_by weight left.items) result.0.items result.1.items
        (any || result.2.refused) (lost || result.2.lost) }
{
    let mut seats = seats;
    let mut appenders = appenders;
    let (Some(seat), Some(own)) = (seats.pop(), appenders.pop()) else {
        unreachable!()
    };
    let mut post = Post { seat, own };
    let mut replies = replies;
    orders_are_worked_on_in_turn::<C>();
    let failures = handle_all(rt, counter, gate, sender, &mut post, &mut replies, &left);
    let Post { seat, own } = post;
    seats.push_reserved(seat);
    appenders.push_reserved(own);
    (seats, appenders, failures)
}
