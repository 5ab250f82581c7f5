//! How a session reads its stream, and answers one message after another.

ghost use Rattle.std.specs.Prelude.{◌≡◌, ◌≢◌, ℕ, Option, Some, List, [], IsTrue, false};
ghost use Rattle.fl_session.specs.Inside.Serving.{IsFresh, IsReady, session_with};
ghost use Rattle.fl_session.specs.Inside.UnderWay.{HasEnded, Rests};
ghost use Rattle.fl_transport.specs.Collecting.{outgoing};
ghost use Rattle.fl_transport.specs.Inbox.{IsUnread};
ghost use Rattle.fl_transport.specs.Outbox.{is_broken, writer_of};

use crate::replying::Replying;
use crate::server::Server;
use fl_history::Journal;
use fl_transport::{Fault, Filled, Inbox};
use fl_wire::Step;
use std::io::{Read, Write};

/// Reads and answers until the session ends, and sends what is left. It tells the fault of its reader, if any, or that
/// lines couldn't be stored, which ends the session at once.
pub(crate) fn serve_all<R: Read, W: Write, J: Journal>(
    r: &mut R,
    inbox: &mut Inbox,
    server: &mut Server<J>,
    replying: &mut Replying<'_, W, J>,
) -> Option<Fault>
    requires unread { IsUnread inbox.old }
    requires fresh { IsFresh server.old }
    requires whole { is_broken replying.old.batch.out ≡ false }
    requires empty { replying.old.batch.replies ≡ [] }
    ensures same { (writer_of replying.new.batch.out).ghost_name ≡ (writer_of replying.old.batch.out).ghost_name }
    ensures none { replying.new.batch.replies ≡ [] }
    ensures ended { HasEnded (session_with server.old []) (record {
      left = R.remaining r.old;
      left_now = R.remaining r.new;
      start = W.contents (writer_of replying.old.batch.out).now;
      out = outgoing W.contents replying.new.batch;
    }) server.new result }
    ensures stored { IsTrue J.infallible → result ≢ Some Fault.Unstored }
{
    let fault = answer_all(r, inbox, server, replying);
    rest(server, replying);
    if replying.lost {
        Some(Fault::Unstored)
    } else {
        fault
    }
}

// The same, but replies that didn't go out yet are left in the batch.
fn answer_all<R: Read, W: Write, J: Journal>(
    r: &mut R,
    inbox: &mut Inbox,
    server: &mut Server<J>,
    replying: &mut Replying<'_, W, J>,
) -> Option<Fault>
    requires unread { IsUnread inbox.old }
    requires fresh { IsFresh server.old }
    requires whole { is_broken replying.old.batch.out ≡ false }
    requires empty { replying.old.batch.replies ≡ [] }
    ensures same { (writer_of replying.new.batch.out).ghost_name ≡ (writer_of replying.old.batch.out).ghost_name }
    ensures ended { HasEnded (session_with server.old []) (record {
      left = R.remaining r.old;
      left_now = R.remaining r.new;
      start = W.contents (writer_of replying.old.batch.out).now;
      out = outgoing W.contents replying.new.batch;
    }) server.new result }
    ensures stored { IsTrue J.infallible → result ≢ Some Fault.Unstored }
{
    while !server.handshake.over {
        if replying.lost {
            return Some(Fault::Unstored);
        }
        match inbox.next() {
            Step::Whole(frame) => {
                server.answer(replying, &frame);
                let len = frame.as_bytes().len();
                inbox.skip(len);
            }
            Step::Bad(len) => return Some(Fault::BadLength(len)),
            Step::More => {
                rest(server, replying);
                if replying.lost {
                    return Some(Fault::Unstored);
                }
                if let Filled::End(fault) = inbox.fill(r) {
                    return fault;
                }
            }
        }
    }
    None
}

// No whole message is at hand, and the next read may wait for one: lines are stored, and what is collected goes out.
// Then a new piece may begin, unless lines couldn't be stored.
fn rest<W: Write, J: Journal>(server: &mut Server<J>, replying: &mut Replying<'_, W, J>)
    ensures same { (writer_of replying.new.batch.out).ghost_name ≡ (writer_of replying.old.batch.out).ghost_name }
    ensures over { server.new.handshake.over ≡ server.old.handshake.over }
    ensures ready { IsReady server.old → IsReady server.new }
    ensures rests { Rests server.old server.new (outgoing W.contents replying.old.batch)
        (outgoing W.contents replying.new.batch) }
{
    replying.send(&mut server.desk);
    if !replying.lost {
        server.desk.turn();
    }
}
