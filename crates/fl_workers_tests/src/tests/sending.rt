//! The sender that workers share, and the appenders through which they give replies to be sent.

ghost use Rattle.std.specs.Prelude.{◌≡◌, ◌<◌, [], false, length, Some};

use fl_log::{Appender, FreshLog};
use fl_transport::ReplyBuffer;
use fl_workers::{ReplyEntry, SharedSender, WriterName};
use std::alloc::Global;
use std::process::Abort;
use std::sync::Mutex;
use std::sync::ledger::{Blank, Share};

/// What workers share, behind the bytes that are there, before the session begins.
pub(super) fn opened<'w, N: WriterName, R: Abort>(
    rt: &R,
    alloc: Global,
    blank: Blank,
    fresh: FreshLog<ReplyEntry>,
    out: &'w mut Vec<u8>,
) -> (SharedSender<'w, Vec<u8>, N>, Share<N>)
    requires start { Some out.old.items ≡ N.start }
    requires named { out.ghost_name ≡ N.writer }
    requires ledger { (blank.name ≡ N.name) × (blank.parts ≡ N.parts) }
    requires log { fresh ≡ N.log }
    ensures none { result.0.log ≡ [] }
    ensures whole { (result.1.parts ≡ N.parts) × (result.1.amount ≡ 0) }
{
    let replies = ReplyBuffer::new(alloc).expect(rt, "memory");
    SharedSender::<'w, Vec<u8>, N>::new(blank, fresh, replies, out)
}

/// The session begins: replies may go out.
pub(super) fn begun<'w, N: WriterName>(
    sender: SharedSender<'w, Vec<u8>, N>,
) -> Mutex<SharedSender<'w, Vec<u8>, N>> {
    let mut sender = sender;
    sender.begin();
    Mutex::new(sender)
}

/// One appender.
pub(super) fn alone<N: WriterName>(
    rt: &impl Abort,
    alloc: Global,
    own: Appender<N, ReplyEntry>,
) -> Vec<Appender<N, ReplyEntry>>
    ensures { length result.items ≡ 1 }
{
    let mut all = Vec::new(alloc);
    all.push(own).expect(rt, "memory");
    all
}

/// No write failed, and all that was given to be sent was given through these appenders.
pub(super) fn closed<'w, N: WriterName>(
    rt: &impl Abort,
    sender: Mutex<SharedSender<'w, Vec<u8>, N>>,
    appenders: Vec<Appender<N, ReplyEntry>>,
) -> &'w mut Vec<u8>
    requires { length appenders.items ≡ N.parts }
{
    let mut sender = sender.into_inner();
    let whole = sender.is_by(appenders);
    let (writer, broken) = sender.into_writer();
    assert!(rt; whole && !broken);
    writer
}
