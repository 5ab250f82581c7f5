//! Replies on their way out, each behind the lines of its order.

ghost use Rattle.std.specs.Prelude.{◌≡◌, [], ◌∷◌, IsTrue, false, map};
ghost use Rattle.fl_session.specs.Inside.UnderWay.{WritesBehind};
ghost use Rattle.fl_transport.specs.Collecting.{Collects, outgoing};
ghost use Rattle.fl_transport.specs.Outbox.{writer_of};
ghost use Rattle.fl_transport.specs.Response.{bytes_of};
ghost use Rattle.fl_wire.specs.Init.{init_spelling};
ghost use Rattle.fl_wire.specs.Spell.{spelling_of};

use fl_desk::Desk;
use fl_history::Journal;
use fl_order::Told;
use fl_transport::{ReplyBatch, Response, unserved};
use fl_wire::InitStep;
use std::io::Write;
use std::marker::PhantomData;

/// Replies that are collected, and go out together once the lines of all orders are stored.
#[derive(Drop)]
pub(crate) struct Replying<'a, W, J: Journal> {
    pub batch: ReplyBatch<'a, W>,
    /// Lines couldn't be stored, and the replies that waited for them are lost.
    pub lost: bool,
    /// Where the lines of all orders go.
    pub journal: PhantomData<J>,
    ghost stored: { IsTrue J.infallible → lost ≡ false },
}

impl<W: Write, J: Journal> Replying<'_, W, J> {
    /// Stores all lines, and then sends what is collected.
    pub(crate) fn send(&mut self, desk: &mut Desk<J>)
        ensures same { (writer_of self.new.batch.out).ghost_name ≡ (writer_of self.old.batch.out).ghost_name }
        ensures desk { (desk.new.lines ≡ desk.old.lines) × (desk.new.present ≡ desk.old.present) }
        ensures none { self.new.batch.replies ≡ [] }
        ensures sent { Collects (outgoing W.contents self.old.batch) (outgoing W.contents self.new.batch) [] }
        ensures behind { WritesBehind desk.old desk.new (outgoing W.contents self.old.batch)
            (outgoing W.contents self.new.batch) }
    {
        if desk.store_all() {
            self.batch.flush();
        } else {
            self.batch.lose();
            self.lost = true;
        }
    }

    /// Collects what an order, or any session, answers. If there is no more room, what was collected before goes out.
    pub(crate) fn collect(&mut self, desk: &mut Desk<J>, response: &Response)
        ensures same { (writer_of self.new.batch.out).ghost_name ≡ (writer_of self.old.batch.out).ghost_name }
        ensures desk { (desk.new.lines ≡ desk.old.lines) × (desk.new.present ≡ desk.old.present) }
        ensures collected { Collects (outgoing W.contents self.old.batch) (outgoing W.contents self.new.batch)
            (bytes_of response.now) }
        ensures behind { WritesBehind desk.old desk.new (outgoing W.contents self.old.batch)
            (outgoing W.contents self.new.batch) }
    {
        match response {
            Response::Nothing => {}
            Response::Init(unique, step) => self.collect_init(desk, *unique, step),
            Response::One(told) => self.collect_one(desk, told),
            Response::Replies(tolds) => self.collect_all(desk, tolds),
            Response::Whole(unique, _) => self.collect_one(desk, &unserved(*unique)),
        }
    }

    fn collect_init(&mut self, desk: &mut Desk<J>, unique: u64, step: &InitStep)
        ensures same { (writer_of self.new.batch.out).ghost_name ≡ (writer_of self.old.batch.out).ghost_name }
        ensures desk { (desk.new.lines ≡ desk.old.lines) × (desk.new.present ≡ desk.old.present) }
        ensures collected { Collects (outgoing W.contents self.old.batch) (outgoing W.contents self.new.batch)
            (init_spelling unique step.now ∷ []) }
        ensures behind { WritesBehind desk.old desk.new (outgoing W.contents self.old.batch)
            (outgoing W.contents self.new.batch) }
    {
        self.send(desk);
        self.batch.begin_init(unique, step);
    }

    fn collect_one(&mut self, desk: &mut Desk<J>, told: &Told)
        ensures same { (writer_of self.new.batch.out).ghost_name ≡ (writer_of self.old.batch.out).ghost_name }
        ensures desk { (desk.new.lines ≡ desk.old.lines) × (desk.new.present ≡ desk.old.present) }
        ensures collected { Collects (outgoing W.contents self.old.batch) (outgoing W.contents self.new.batch)
            (spelling_of told.now ∷ []) }
        ensures behind { WritesBehind desk.old desk.new (outgoing W.contents self.old.batch)
            (outgoing W.contents self.new.batch) }
    {
        if !self.batch.append(told) {
            self.send(desk);
            self.batch.begin(told);
        }
    }

    fn collect_all(&mut self, desk: &mut Desk<J>, tolds: &[Told])
        ensures same { (writer_of self.new.batch.out).ghost_name ≡ (writer_of self.old.batch.out).ghost_name }
        ensures desk { (desk.new.lines ≡ desk.old.lines) × (desk.new.present ≡ desk.old.present) }
        ensures collected { Collects (outgoing W.contents self.old.batch) (outgoing W.contents self.new.batch)
            (map spelling_of tolds.now) }
        ensures behind { WritesBehind desk.old desk.new (outgoing W.contents self.old.batch)
            (outgoing W.contents self.new.batch) }
    {
        for told in tolds {
            self.collect_one(desk, told);
        }
    }

    /// Collects what an order in the midst of a message is answered, and writes nothing. What finds no room is lost,
    /// with all that was collected and all that comes later. FUSE has such orders in a batch of FORGETs alone, and they
    /// get no reply.
    pub(crate) fn keep(&mut self, response: &Response)
        ensures same { (writer_of self.new.batch.out).ghost_name ≡ (writer_of self.old.batch.out).ghost_name }
        ensures held { W.contents (writer_of self.new.batch.out).now ≡ W.contents (writer_of self.old.batch.out).now }
        ensures collected { Collects (outgoing W.contents self.old.batch) (outgoing W.contents self.new.batch)
            (bytes_of response.now) }
    {
        match response {
            Response::Nothing => {}
            Response::Init(unique, step) => {
                self.batch.lose();
                self.batch.begin_init(*unique, step);
            }
            Response::One(told) => self.keep_one(told),
            Response::Replies(tolds) => self.keep_all(tolds),
            Response::Whole(unique, _) => self.keep_one(&unserved(*unique)),
        }
    }

    fn keep_one(&mut self, told: &Told)
        ensures same { (writer_of self.new.batch.out).ghost_name ≡ (writer_of self.old.batch.out).ghost_name }
        ensures held { W.contents (writer_of self.new.batch.out).now ≡ W.contents (writer_of self.old.batch.out).now }
        ensures collected { Collects (outgoing W.contents self.old.batch) (outgoing W.contents self.new.batch)
            (spelling_of told.now ∷ []) }
    {
        if !self.batch.append(told) {
            self.batch.lose();
            self.batch.begin(told);
        }
    }

    fn keep_all(&mut self, tolds: &[Told])
        ensures same { (writer_of self.new.batch.out).ghost_name ≡ (writer_of self.old.batch.out).ghost_name }
        ensures held { W.contents (writer_of self.new.batch.out).now ≡ W.contents (writer_of self.old.batch.out).now }
        ensures collected { Collects (outgoing W.contents self.old.batch) (outgoing W.contents self.new.batch)
            (map spelling_of tolds.now) }
    {
        for told in tolds {
            self.keep_one(told);
        }
    }
}
