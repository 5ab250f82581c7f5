//! The replies of a session whose workers share one writer.

ghost use Rattle.std.specs.Prelude.{◌≡◌, ◌+◌, ◌<◌, ◌++◌, ◌∷◌, [], true, false, All, length, sum_by};
ghost use Rattle.fl_log.specs.Appended.{HasAll, IsAppended, unused};
ghost use Rattle.fl_transport.specs.Collecting.{IsGiven};
ghost use Rattle.fl_workers.specs.Sent.{entry, replies_of, spelled};

use crate::entry::{AsEntry, Given, ReplyEntry};
use fl_log::{Appender, FreshLog, LogName, SharedLog};
use fl_transport::{Outbox, ReplyBatch, ReplyBuffer, Response};
use std::io::Write;
use std::marker::{Brand, Model};
use std::sync::ledger::{Blank, Share};

/// The name of one writer in contracts, what it held before the first reply, and of the log of what is given to be
/// sent. The log's ledger has a part for each worker, and one for the receiver.
pub trait WriterName: LogName {
    ghost use base.Fml.{GName};
    ghost use Rattle.std.specs.Prelude.{ℕ, Option, List};

    ghost writer: { GName };

    ghost start: { Option (List ℕ) };
}

impl WriterName for Brand {
    ghost use Rattle.std.specs.Prelude.{None};

    ghost writer = { 0 };

    ghost start = { None };
}

/// Replies on their way to a writer that is lent, which lie under the lock of a session's workers. They are collected,
/// and go out together, once the session has begun: before, nothing is collected or sent. Contracts see what the writer
/// holds, the bytes that are collected, whether a write failed, whether it has begun, and a log of all that was given
/// to be sent, with who gave it. The writer has the bytes of that log, or a beginning of them after a failed write.
#[derive(Drop)]
pub struct SharedSender<'a, W: Write, N: WriterName> {
    batch: ReplyBatch<'a, W>,
    begun: bool,
    log: SharedLog<N, ReplyEntry>,
}

impl<'a, W: Write, N: WriterName> Model for SharedSender<'a, W, N> {
    ghost use Rattle.std.specs.Prelude.{◌≡◌, [], false};
    ghost use Rattle.fl_transport.specs.Collecting.{IsGiven, outgoing};
    ghost use Rattle.fl_transport.specs.Outbox.{writer_of};
    ghost use Rattle.fl_workers.specs.Sent.{Sending, spelled};

    ghost Value = { Sending };

    ghost view = { λ s. record { out = outgoing W.contents s.batch; begun = s.begun; log = s.log } };

    ghost invariant = { λ s. ((writer_of s.batch.out).ghost_name ≡ N.writer)
        × IsGiven N.start (outgoing W.contents s.batch) (spelled s.log)
        × (s.begun ≡ false → (W.contents (writer_of s.batch.out).now ≡ N.start) × (s.batch.replies ≡ [])) };
}

impl<'a, W: Write, N: WriterName> SharedSender<'a, W, N> {
    /// Nothing was sent yet, and the session hasn't begun. Beside it comes what appenders are cut from.
    pub fn new(
        blank: Blank,
        fresh: FreshLog<ReplyEntry>,
        replies: ReplyBuffer,
        writer: &'a mut W,
    ) -> (SharedSender<'a, W, N>, Share<N>)
        requires ledger { (blank.name ≡ N.name) × (blank.parts ≡ N.parts) }
        requires log { fresh ≡ N.log }
        requires empty { replies ≡ [] }
        requires start { W.contents writer.old ≡ N.start }
        requires named { writer.ghost_name ≡ N.writer }
        ensures unsent { result.0 ≡ record {
          out = record { held = N.start; waiting = []; broken = false };
          begun = false;
          log = [];
        } }
        ensures whole { (result.1.parts ≡ N.parts) × (result.1.amount ≡ 0) }
    {
        let (log, whole) = SharedLog::new(blank, fresh);
        let sender = SharedSender {
            batch: ReplyBatch {
                replies,
                out: Outbox::new(writer),
            },
            begun: false,
            log,
        };
        (sender, whole)
    }

    /// An appender of this author, through which nothing was given.
    pub fn appender(&self, rest: &mut Share<N>, author: u32) -> Appender<N, ReplyEntry>
        requires none { self.now.log ≡ [] }
        requires rest { (0 < rest.old.parts) × (rest.old.amount ≡ 0) }
        ensures fresh { result ≡ unused author }
        ensures rest { (rest.new.parts + 1 ≡ rest.old.parts) × (rest.new.amount ≡ 0) }
    {
        self.log.appender(rest, author)
    }

    /// The session begins: from here on replies are collected and go out.
    pub fn begin(&mut self)
        ensures { self.new ≡ record self.old { begun = true } }
    {
        self.begun = true;
    }

    /// Collects a response of the appender's author, to be sent by the next flush or before, and says whether it did.
    /// Before the session begins it collects nothing.
    #[tactic(auto, using(crate::proofs::SenderLemmas::given_more))]
    pub fn collect(&mut self, own: &mut Appender<N, ReplyEntry>, response: &Response) -> bool
        ensures begun { self.new.begun ≡ self.old.begun }
        ensures logged { result ≡ true
            → self.new.log ≡ self.old.log ++ entry own.old.author (replies_of response.now) ∷ [] }
        ensures appended { result ≡ true
            → IsAppended own.old (entry own.old.author (replies_of response.now)) own.new }
        ensures refused { result ≡ false → (self.new ≡ self.old) × (own.new ≡ own.old) }
        ensures given { IsGiven N.start self.new.out (spelled self.new.log) }
    {
        if !self.begun {
            return false;
        }
        let given = Given {
            author: own.author(),
            response,
        };
        if !self.log.append::<Given, AsEntry>(own, &given) {
            return false;
        }
        self.batch.collect(response);
        true
    }

    /// Sends what is collected.
    #[tactic(auto, using(crate::proofs::SenderLemmas::given_still))]
    pub fn flush(&mut self)
        ensures none { self.new.out.waiting ≡ [] }
        ensures log { self.new.log ≡ self.old.log }
        ensures begun { self.new.begun ≡ self.old.begun }
        ensures given { IsGiven N.start self.new.out (spelled self.new.log) }
    {
        if self.begun {
            self.batch.flush();
        }
    }

    /// Whether the session has begun.
    pub fn has_begun(&self) -> bool
        ensures { result ≡ self.now.begun }
    {
        self.begun
    }

    /// Whether all that was given to be sent was given through these appenders, of which none is missing.
    pub fn is_by(&mut self, appenders: Vec<Appender<N, ReplyEntry>>) -> bool
        requires all { length appenders.items ≡ N.parts }
        ensures same { self.new ≡ self.old }
        ensures each { result ≡ true → All (HasAll (λ e. e.author) self.old.log) appenders.items }
        ensures total { result ≡ true → length self.old.log ≡ sum_by (λ appender. appender.count) appenders.items }
    {
        self.log.is_by(appenders)
    }

    /// Sends what is collected, gives the writer back, and says whether a write failed. If the session hadn't begun,
    /// the writer holds what it held at the start.
    pub fn into_writer(self) -> (&'a mut W, bool)
        ensures same { result.0.ghost_name ≡ N.writer }
        ensures given { IsGiven N.start (record {
          held = W.contents result.0.now;
          waiting = [];
          broken = result.1;
        }) (spelled self.entry.log) }
        ensures unbegun { self.entry.begun ≡ false → W.contents result.0.now ≡ N.start }
    {
        let mut sender = self;
        sender.flush();
        let SharedSender {
            batch,
            begun: _,
            log: _,
        } = sender;
        let ReplyBatch { replies, out } = batch;
        // Here, since the proof finds no more what the writer holds if something is dropped behind it.
        drop(replies);
        out.into_parts()
    }
}
