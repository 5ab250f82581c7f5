//! Replies that go out one after another, each whole.

ghost use Rattle.std.specs.Prelude.{◌≡◌, ◌↔◌, true, false, IsErr, OnOk, OnErr};
ghost use Rattle.std.specs.Io.KnownBytes.{Appends, Keeps};
ghost use Rattle.fl_transport.specs.Outbox.{writer_of, is_broken, IsPartSent, IsSentBy};

use std::io::Write;
use thiserror::Error;

/// A reply didn't go out whole, this one or one before it.
#[derive(Clone, Copy, Debug, PartialEq, Eq, Error)]
#[error("broken")]
pub struct Broken;

/// Replies on their way to a writer. After a write that failed or took nothing it is broken: no more is
/// written. No memory is taken.
#[derive(Drop)]
pub struct Outbox<W> {
    pub(crate) writer: W,
    pub(crate) broken: bool,
}

impl<W: Write> Outbox<W> {
    /// Nothing was sent yet.
    pub fn new(writer: W) -> Outbox<W>
        ensures writer { writer_of result ≡ writer }
        ensures whole { is_broken result ≡ false }
    {
        Outbox {
            writer,
            broken: false,
        }
    }

    /// Where its replies went, and whether one of them didn't go out whole.
    pub fn into_parts(self) -> (W, bool)
        ensures writer { result.0 ≡ writer_of self }
        ensures broken { result.1 ≡ is_broken self }
    {
        let Outbox { writer, broken } = self;
        (writer, broken)
    }

    /// Writes the whole reply. An error of a write breaks the outbox, of whatever kind, and so does a write that
    /// takes 0 bytes; nothing else does, which contracts can't say, since they see no failure of a writer.
    pub fn send(&mut self, reply: &[u8]) -> Result<(), Broken>
        ensures whole { OnOk result
            (Appends (W.contents (writer_of self.old)) (W.contents (writer_of self.new)) reply.now) }
        ensures part { OnErr result (is_broken self.old ≡ false
            → IsPartSent (W.contents (writer_of self.old)) (W.contents (writer_of self.new)) reply.now) }
        ensures nothing { is_broken self.old ≡ true
            → Keeps (W.contents (writer_of self.old)) (W.contents (writer_of self.new)) }
        ensures refuses { is_broken self.old ≡ true → IsErr result }
        ensures broken { IsErr result ↔ (is_broken self.new ≡ true) }
    {
        let broken = self.broken;
        self.broken = send_on(&mut self.writer, broken, reply);
        if self.broken { Err(Broken) } else { Ok(()) }
    }
}

impl<W: Write> Outbox<&mut W> {
    /// Writes the whole reply to a writer that is lent, and holds it still.
    pub fn post(&mut self, reply: &[u8])
        ensures same { (writer_of self.new).ghost_name ≡ (writer_of self.old).ghost_name }
        ensures sent { IsSentBy (W.contents (writer_of self.old).now) (W.contents (writer_of self.new).now)
            (is_broken self.old) (is_broken self.new) reply.now }
    {
        let broken = self.broken;
        self.broken = send_on(self.writer, broken, reply);
    }

    /// Nothing more is written.
    pub fn give_up(&mut self)
        ensures same { (writer_of self.new).ghost_name ≡ (writer_of self.old).ghost_name }
        ensures held { W.contents (writer_of self.new).now ≡ W.contents (writer_of self.old).now }
        ensures broken { is_broken self.new ≡ true }
    {
        self.broken = true;
    }
}

// Writes the whole reply, if it isn't broken before, and tells whether it is broken then.
fn send_on<W: Write>(writer: &mut W, broken: bool, reply: &[u8]) -> bool
    ensures { IsSentBy (W.contents writer.old) (W.contents writer.new) broken result reply.now }
{
    if broken {
        return true;
    }
    let mut at = 0;
    while at < reply.len() {
        match writer.write(&reply[at..]) {
            Ok(0) | Err(_) => return true,
            Ok(n) => at += n,
        }
    }
    false
}
