//! Replies that are collected, and go out together.

ghost use Rattle.std.specs.Prelude.{◌≡◌, [], ◌∷◌, map, true, false};
ghost use Rattle.fl_wire.specs.Init.{init_spelling};
ghost use Rattle.fl_wire.specs.Spell.{spelling_of};
ghost use Rattle.fl_transport.specs.Collecting.{Collects, outgoing};
ghost use Rattle.fl_transport.specs.Outbox.{writer_of};
ghost use Rattle.fl_transport.specs.Response.{bytes_of};

use crate::outbox::Outbox;
use crate::reply_buffer::ReplyBuffer;
use crate::response::{Response, unserved};
use fl_order::Told;
use fl_wire::InitStep;
use std::io::Write;

/// Replies that are collected, and the outbox that sends them together.
#[derive(Drop)]
pub struct ReplyBatch<'a, W> {
    /// Those that didn't go out yet.
    pub replies: ReplyBuffer,
    /// Where they go.
    pub out: Outbox<&'a mut W>,
}

impl<W: Write> ReplyBatch<'_, W> {
    /// Collects what a message or an order is answered; what whole sessions alone serve is ENOSYS. If there is no more
    /// room, what was collected before goes out.
    pub fn collect(&mut self, response: &Response)
        ensures same { (writer_of self.new.out).ghost_name ≡ (writer_of self.old.out).ghost_name }
        ensures collected { Collects (outgoing W.contents self.old) (outgoing W.contents self.new)
            (bytes_of response.now) }
    {
        match response {
            Response::Nothing => {}
            Response::Init(unique, step) => self.collect_init(*unique, step),
            Response::One(told) => self.collect_one(told),
            Response::Replies(tolds) => self.collect_all(tolds),
            Response::Whole(unique, _) => self.collect_one(&unserved(*unique)),
        }
    }

    fn collect_init(&mut self, unique: u64, step: &InitStep)
        ensures same { (writer_of self.new.out).ghost_name ≡ (writer_of self.old.out).ghost_name }
        ensures collected { Collects (outgoing W.contents self.old) (outgoing W.contents self.new)
            (init_spelling unique step.now ∷ []) }
    {
        self.flush();
        self.begin_init(unique, step);
    }

    fn collect_one(&mut self, told: &Told)
        ensures same { (writer_of self.new.out).ghost_name ≡ (writer_of self.old.out).ghost_name }
        ensures collected { Collects (outgoing W.contents self.old) (outgoing W.contents self.new)
            (spelling_of told.now ∷ []) }
    {
        if !self.append(told) {
            self.flush();
            self.begin(told);
        }
    }

    fn collect_all(&mut self, tolds: &[Told])
        ensures same { (writer_of self.new.out).ghost_name ≡ (writer_of self.old.out).ghost_name }
        ensures collected { Collects (outgoing W.contents self.old) (outgoing W.contents self.new)
            (map spelling_of tolds.now) }
    {
        for told in tolds {
            self.collect_one(told);
        }
    }

    /// Collects a reply if there is room for any but a list, and says whether it did. Nothing is written.
    pub fn append(&mut self, told: &Told) -> bool
        ensures same { (writer_of self.new.out).ghost_name ≡ (writer_of self.old.out).ghost_name }
        ensures held { W.contents (writer_of self.new.out).now ≡ W.contents (writer_of self.old.out).now }
        ensures done { result ≡ true → Collects (outgoing W.contents self.old) (outgoing W.contents self.new)
            (spelling_of told.now ∷ []) }
        ensures full { result ≡ false → Collects (outgoing W.contents self.old) (outgoing W.contents self.new) [] }
    {
        self.replies.append(told)
    }

    /// Collects a reply before all others. Nothing is written.
    pub fn begin(&mut self, told: &Told)
        requires none { self.old.replies ≡ [] }
        ensures same { (writer_of self.new.out).ghost_name ≡ (writer_of self.old.out).ghost_name }
        ensures held { W.contents (writer_of self.new.out).now ≡ W.contents (writer_of self.old.out).now }
        ensures collected { Collects (outgoing W.contents self.old) (outgoing W.contents self.new)
            (spelling_of told.now ∷ []) }
    {
        self.replies.lay_out(told);
    }

    /// Collects the reply to the INIT with this unique, before all others. Nothing is written.
    pub fn begin_init(&mut self, unique: u64, step: &InitStep)
        requires none { self.old.replies ≡ [] }
        ensures same { (writer_of self.new.out).ghost_name ≡ (writer_of self.old.out).ghost_name }
        ensures held { W.contents (writer_of self.new.out).now ≡ W.contents (writer_of self.old.out).now }
        ensures collected { Collects (outgoing W.contents self.old) (outgoing W.contents self.new)
            (init_spelling unique step.now ∷ []) }
    {
        self.replies.lay_out_init(unique, step);
    }

    /// Sends what is collected.
    pub fn flush(&mut self)
        ensures same { (writer_of self.new.out).ghost_name ≡ (writer_of self.old.out).ghost_name }
        ensures none { self.new.replies ≡ [] }
        ensures sent { Collects (outgoing W.contents self.old) (outgoing W.contents self.new) [] }
    {
        if !self.replies.is_empty() {
            self.out.post(self.replies.as_slice());
            self.replies.clear();
        }
    }

    /// Loses what is collected, and all that is collected later: nothing more is written.
    pub fn lose(&mut self)
        ensures same { (writer_of self.new.out).ghost_name ≡ (writer_of self.old.out).ghost_name }
        ensures held { W.contents (writer_of self.new.out).now ≡ W.contents (writer_of self.old.out).now }
        ensures none { self.new.replies ≡ [] }
        ensures lost { Collects (outgoing W.contents self.old) (outgoing W.contents self.new) [] }
    {
        if !self.replies.is_empty() {
            self.out.give_up();
            self.replies.clear();
        }
    }
}
