//! A session with workers to its end, over any counter, any reader and any writer.

ghost use Rattle.std.specs.Prelude.{◌≡◌, ◌≤◌, ◌<◌, ◌+◌, All, IfErr, IfOk, map};
ghost use Rattle.std.specs.List.{range_with_len};
ghost use Rattle.fl_log.specs.Appended.{unused};
ghost use Rattle.fl_pool.specs.Running.{CanRun, IsReady};
ghost use Rattle.fl_pool.specs.Working.{reading};
ghost use Rattle.fl_staff.specs.Served.{HasNotServed, HasServed, IsUnused};
ghost use Rattle.fl_workers.specs.Room.{HasRoomFor};

use crate::crew::manned;
use crate::finishing::{finish, unstarted};
use crate::staff::{Served, Staff};
use crate::stock::Stock;
use fl_intake::PutEnd;
use fl_log::{Appender, FreshLog};
use fl_pool::{Crew, WorkerPool};
use fl_transport::{Fault, Inbox};
use fl_workers::{Counter, Gate, ReplyEntry, ReplyRoom, SharedSender, WriterName};
use std::alloc::Global;
use std::io::{Read, Write};
use std::sync::ledger::Blank;
use std::sync::{Mutex, Wait};
use std::thread::Threads;

/// Serves a session to its end at this counter, whose seats these are, one for each worker of the staff. All memory but the
/// counter's is made, and all workers are started, before the first read. Orders that were read are all handled, also
/// those that no worker took, and only then is a DESTROY answered. If it can't begin, nothing is read, and the counter
/// is dropped.
pub fn serve_at<
    'w,
    C: Counter + Send + Sync + Drop,
    N: WriterName + Send + Sync,
    R: Threads + Wait + Sync,
    I: Read,
    W: Write + Send + Drop,
    G: Gate + Sync,
>(
    rt: &R,
    alloc: Global,
    counter: C,
    seats: Vec<C::Seat>,
    staff: Staff,
    sending: Blank,
    given: FreshLog<ReplyEntry>,
    r: &mut I,
    w: &'w mut W,
    gate: &G,
) -> (Result<Served<C>, Fault>, &'w mut W)
where
    C::Seat: Send + Drop,
    requires workers { (0 < staff.workers) × (staff.workers ≤ 16) }
    requires whose { map C.worker seats.items ≡ range_with_len 0 staff.workers }
    requires unused { All (IsUnused (reading C.worker C.count C.answered C.front C.stored)) seats.items }
    requires most { C.most_tolds ≡ staff.rules.parked + 1 }
    requires start { W.contents w.old ≡ N.start }
    requires writer { w.ghost_name ≡ N.writer }
    requires sending { (sending.name ≡ N.name) × (sending.parts ≡ N.parts) × (staff.workers + 1 ≡ N.parts) }
    requires given { given ≡ N.log }
    ensures writer { result.1.ghost_name ≡ N.writer }
    ensures served { IfOk result.0 (HasServed (reading C.worker C.count C.answered C.front C.stored) C.shows
        staff.workers (record {
          left = I.remaining r.old;
          left_now = I.remaining r.new;
          held = N.start;
          held_now = W.contents result.1.now;
        })) }
    ensures unserved { IfErr result.0 (HasNotServed (record {
      left = I.remaining r.old;
      left_now = I.remaining r.new;
      held = N.start;
      held_now = W.contents result.1.now;
    })) }
{
    let Ok(stock) = Stock::<C, N>::new(alloc, staff.workers, staff.rules) else {
        return (Err(Fault::NoMemory), w);
    };
    let Stock {
        left,
        inbox,
        replies,
        intake,
        put,
        ends,
        rooms,
        crew,
    } = stock;
    let (sender, mut rest) = SharedSender::<'w, W, N>::new(sending, given, replies, w);
    let crew = manned(crew, &intake, seats, ends, rooms, &sender, &mut rest);
    let own = sender.appender(&mut rest, staff.workers);
    let pool = WorkerPool {
        rt,
        gate,
        stack: staff.stack,
        inline: staff.inline,
        counter,
        intake,
        sender: Mutex::new(sender),
    };
    run_pool(pool, r, inbox, put, crew, own, left)
}

// Runs the workers of a session, and ends it once they came back.
fn run_pool<
    'w,
    C: Counter + Send + Sync + Drop,
    N: WriterName + Send + Sync,
    R: Threads + Wait + Sync,
    I: Read,
    W: Write + Send + Drop,
    G: Gate + Sync,
>(
    pool: WorkerPool<'_, 'w, C, N, R, W, G>,
    r: &mut I,
    inbox: Inbox,
    put: PutEnd,
    crew: Crew<C, N>,
    own: Appender<N, ReplyEntry>,
    left: ReplyRoom,
) -> (Result<Served<C>, Fault>, &'w mut W)
where
    C::Seat: Send + Drop,
    requires parts { (put.takers + 1 ≡ N.parts) × (0 < put.takers) }
    requires workers { map (λ worker. C.worker worker.post.seat) crew.workers.items ≡ range_with_len 0 put.takers }
    requires can { CanRun pool.intake inbox put }
    requires ready { All (IsReady (reading C.worker C.count C.answered C.front C.stored)
        C.most_tolds pool.intake) crew.workers.items }
    requires left { HasRoomFor C.most_tolds left }
    requires own { own ≡ unused put.takers }
    ensures writer { result.1.ghost_name ≡ N.writer }
    ensures served { IfOk result.0 (HasServed (reading C.worker C.count C.answered C.front C.stored) C.shows
        put.takers (record {
          left = I.remaining r.old;
          left_now = I.remaining r.new;
          held = N.start;
          held_now = W.contents result.1.now;
        })) }
    ensures unserved { IfErr result.0 (HasNotServed (record {
      left = I.remaining r.old;
      left_now = I.remaining r.new;
      held = N.start;
      held_now = W.contents result.1.now;
    })) }
{
    match pool.run(r, inbox, put, crew, own) {
        Some(ran) => {
            let (served, w) = finish(pool, ran, left);
            (Ok(served), w)
        }
        None => {
            let (fault, w) = unstarted(only_sender(pool, left));
            (Err(fault), w)
        }
    }
}

// The sender of a session of which a worker couldn't be started. All else is dropped: here, and not where the session
// is run, so that few steps have many values.
fn only_sender<'w, C: Counter + Drop, N: WriterName, R: Wait, W: Write, G>(
    pool: WorkerPool<'_, 'w, C, N, R, W, G>,
    _left: ReplyRoom,
) -> SharedSender<'w, W, N> {
    let WorkerPool { sender, .. } = pool;
    sender.into_inner()
}
