//! How a session with workers ends once its workers came back.

ghost use Rattle.std.specs.Prelude.{◌≡◌, ◌<◌, ◌+◌, ◌++◌, ◌⊎◌, ℕ, Bool, List, [], All, Option, true, length, map};
ghost use Rattle.std.specs.Prelude.{vec_capacity};
ghost use Rattle.std.specs.List.{range_with_len};
ghost use Rattle.fl_intake.specs.Ends.{PutSide};
ghost use Rattle.fl_log.specs.Appended.{unused};
ghost use Rattle.fl_pool.specs.Running.{HasRun};
ghost use Rattle.fl_pool.specs.Working.{reading};
ghost use Rattle.fl_staff.specs.Closing.{HasGrown, HasSaidGoodbye, last_words};
ghost use Rattle.fl_staff.specs.Served.{HasServed};
ghost use Rattle.fl_transport.specs.Collecting.{IsGiven};
ghost use Rattle.fl_workers.specs.Received.{answer_by};
ghost use Rattle.fl_workers.specs.Room.{HasRoomFor};
ghost use Rattle.fl_workers.specs.Sent.{spelled};

use crate::crew::handed_in;
use crate::staff::Served;
use fl_log::Appender;
use fl_pool::{Back, Ran, WorkerPool};
use fl_transport::{Fault, Response};
use fl_workers::{Counter, Gate, Received, ReplyEntry, ReplyRoom, SharedSender, WriterName};
use std::io::Write;
use std::sync::Wait;

/// The fault of a session of which a worker couldn't be started, so that nothing was read; and its writer. That the
/// session hadn't begun is known when it runs, and by no contract.
pub(crate) fn unstarted<'w, N: WriterName, W: Write>(
    sender: SharedSender<'w, W, N>,
) -> (Fault, &'w mut W)
    ensures writer { result.1.ghost_name ≡ N.writer }
    ensures fault { (result.0 ≡ Fault.NoMemory) ⊎ (result.0 ≡ Fault.NoReader) }
    ensures unwritten { result.0 ≡ Fault.NoMemory → W.contents result.1.now ≡ N.start }
    ensures sent { (broken : Bool) × IsGiven N.start (record {
      held = W.contents result.1.now;
      waiting = [];
      broken = broken;
    }) (spelled sender.entry.log) }
{
    let fault = if sender.has_begun() {
        Fault::NoReader
    } else {
        Fault::NoMemory
    };
    let (writer, _broken) = sender.into_writer();
    (fault, writer)
}

/// Hands in what no worker took, and says goodbye, in a session whose workers came back.
pub(crate) fn finish<'w, C: Counter, N: WriterName, R: Wait, W: Write, G: Gate>(
    pool: WorkerPool<'_, 'w, C, N, R, W, G>,
    ran: Ran<C, N>,
    replies: ReplyRoom,
) -> (Served<C>, &'w mut W)
where
    C::Seat: Drop,
    requires parts { ran.received.put.takers + 1 ≡ N.parts }
    requires some { 0 < ran.received.put.takers }
    requires mine { ran.received.put.of ≡ pool.intake }
    requires whose { map C.worker ran.back.seats.items ≡ range_with_len 0 ran.received.put.takers }
    requires pairs { (length ran.back.appenders.items ≡ ran.received.put.takers)
        × (length ran.back.ends.items ≡ ran.received.put.takers) }
    requires ends { All (λ end. end.of ≡ pool.intake) ran.back.ends.items }
    requires room { length ran.back.appenders.items < vec_capacity ran.back.appenders }
    requires replies { HasRoomFor C.most_tolds replies }
    ensures writer { result.1.ghost_name ≡ N.writer }
    ensures served { (put : PutSide) (left left_now : Option (List ℕ))
        → HasRun (reading C.worker C.count C.answered C.front C.stored) C.shows pool.entry.intake put
        (range_with_len 0 ran.received.put.takers) left left_now (unused ran.received.put.takers) ran
        → HasServed (reading C.worker C.count C.answered C.front C.stored) C.shows ran.received.put.takers (record {
          left = left;
          left_now = left_now;
          held = N.start;
          held_now = W.contents result.1.now;
        }) result.0 }
{
    let WorkerPool {
        rt,
        gate,
        counter,
        intake,
        sender,
        ..
    } = pool;
    let Ran { back, received } = ran;
    let Back {
        seats,
        appenders,
        ends,
        failures,
    } = back;
    let Received {
        put,
        fault,
        goodbye,
        own,
        lost,
    } = received;
    let Ok(left) = intake.finish(rt, put, ends) else {
        unreachable!()
    };
    let (seats, appenders, more) = handed_in(
        rt, &counter, gate, &sender, seats, appenders, replies, left,
    );
    let failures = failures.or(more);
    let (writer, broken, whole) = say_goodbye(sender.into_inner(), appenders, own, &goodbye);
    let served = Served {
        counter,
        seats,
        refused: failures.refused,
        known: whole & !(lost | failures.lost),
        fault: Fault::told(fault, broken),
    };
    (served, writer)
}

// Says goodbye, if anything is left to say, and sends all that is collected. The writer comes back, with whether a
// write failed, and whether the goodbye was given to be sent, and all else by these appenders.
fn say_goodbye<'w, N: WriterName, W: Write>(
    sender: SharedSender<'w, W, N>,
    appenders: Vec<Appender<N, ReplyEntry>>,
    own: Appender<N, ReplyEntry>,
    goodbye: &Response,
) -> (&'w mut W, bool, bool)
    requires each { length appenders.items + 1 ≡ N.parts }
    requires room { length appenders.items < vec_capacity appenders }
    ensures same { result.0.ghost_name ≡ N.writer }
    ensures given { HasSaidGoodbye N.start (record {
      held = W.contents result.0.now;
      waiting = [];
      broken = result.1;
    }) appenders.items own goodbye.now result.2 }
{
    let mut sender = sender;
    let mut own = own;
    let mut appenders = appenders;
    let said = say(&mut sender, &mut own, goodbye);
    appenders.push_reserved(own);
    let whole = sender.is_by(appenders);
    let (writer, broken) = sender.into_writer();
    (writer, broken, whole & said)
}

// Gives the goodbye to be sent, if there is one, and says whether it could.
fn say<N: WriterName, W: Write>(
    sender: &mut SharedSender<'_, W, N>,
    own: &mut Appender<N, ReplyEntry>,
    goodbye: &Response,
) -> bool
    ensures said { result ≡ true → sender.new.log ≡ sender.old.log
        ++ map (answer_by own.old.author) (last_words goodbye.now) }
    ensures grown { result ≡ true
        → HasGrown own.old own.new (map (answer_by own.old.author) (last_words goodbye.now)) }
{
    match goodbye {
        Response::Nothing => true,
        _ => sender.collect(own, goodbye),
    }
}
