//! How far its messages bring a session, and what each message is to it.

ghost use Rattle.std.specs.Prelude.{◌≡◌, true, false};
ghost use Rattle.fl_order.specs.OpKind.{kind_of_opcode};
ghost use Rattle.fl_transport.specs.Handshake.{advanced, agrees, incoming_of, incoming_by, opening, own_answer};
ghost use Rattle.fl_transport.specs.Handshake.{refused, said_to, says_destroy};
ghost use Rattle.fl_transport.specs.Response.{goodbye_to};
ghost use Rattle.fl_wire.specs.Layout.{opcode_of};
ghost use Rattle.fl_wire.specs.Says.{said};
ghost use Rattle.fl_wire.specs.Whole.{whole_ask};

use crate::response::Response;
use fl_order::{Answer, Errno, OpKind, Refusal, Told};
use fl_wire::{Batch, Frame, InitStep, Single, read_init};

/// What a message is to a session.
#[derive(Drop)]
pub enum Incoming<'a> {
    /// An order, which the lock directory answers.
    Order(Single<'a>),
    /// Several orders, which the lock directory takes one after another.
    Batch(Batch<'a>),
    /// An answer of the session itself.
    Response(Response<'static>),
}

/// How far a session is.
#[derive(Clone, Copy, Debug)]
pub struct Handshake {
    /// An INIT was agreed.
    pub agreed: bool,
    /// A DESTROY ended the session.
    pub over: bool,
}

impl Handshake {
    /// No message came yet.
    pub fn new() -> Handshake
        ensures { result ≡ opening }
    {
        Handshake {
            agreed: false,
            over: false,
        }
    }

    /// What a message of a session that isn't over is to it. Whole sessions alone take MKNOD, MKDIR and RMDIR.
    pub fn receive<'a>(&mut self, frame: &Frame<'a>, whole: bool) -> Incoming<'a>
        requires { self.old.over ≡ false }
        ensures incoming { result ≡ incoming_of whole self.old frame.now }
        ensures advanced { self.new ≡ advanced self.old frame.now }
        ensures ends { self.new.over ≡ true → result ≡ Incoming.Response (goodbye_to frame.now) }
    {
        if self.agreed {
            self.receive_after_init(frame, whole)
        } else {
            Incoming::Response(self.receive_before_init(frame))
        }
    }

    // The answer of the session before an INIT is agreed.
    fn receive_before_init(&mut self, frame: &Frame) -> Response<'static>
        requires { self.old.agreed ≡ false }
        ensures response { result ≡ own_answer frame.now (kind_of_opcode (opcode_of frame.now)) }
        ensures agreed { self.new.agreed ≡ agrees frame.now (kind_of_opcode (opcode_of frame.now)) }
        ensures live { self.new.over ≡ self.old.over }
    {
        match OpKind::of_opcode(frame.opcode()) {
            Some(OpKind::Init) => {
                let step = read_init(frame);
                self.agreed = matches!(step, InitStep::Agreed { .. });
                Response::Init(frame.unique(), step)
            }
            Some(kind) => Response::refusal(kind, frame.unique(), Errno::EPROTO),
            None => Response::error(frame.unique(), Errno::EPROTO),
        }
    }

    // What a message is after an INIT is agreed.
    fn receive_after_init<'a>(&mut self, frame: &Frame<'a>, whole: bool) -> Incoming<'a>
        requires { self.old.over ≡ false }
        ensures incoming { result ≡ incoming_by frame.now (said_to whole frame.now) }
        ensures agreed { self.new.agreed ≡ self.old.agreed }
        ensures over { self.new.over ≡ says_destroy (said frame.now) }
        ensures ends { self.new.over ≡ true → result ≡ Incoming.Response (goodbye_to frame.now) }
    {
        if !whole && frame.is_for_whole() {
            return Incoming::Response(refused(frame, Errno::ENOSYS));
        }
        match frame.single() {
            Ok(order) => Incoming::Order(order),
            Err(Refusal::Answer(e)) => Incoming::Response(refused(frame, e)),
            Err(Refusal::Silent) => Incoming::Response(Response::Nothing),
            Err(Refusal::Batch) => match frame.batch() {
                Some(orders) => Incoming::Batch(orders),
                None => unreachable!(),
            },
            Err(Refusal::Destroy) => {
                self.over = true;
                Incoming::Response(Response::One(Told {
                    unique: frame.unique(),
                    result: Ok(Answer::Done),
                }))
            }
        }
    }
}

// The answer to a message that is refused with this error, unless a whole session answers it otherwise.
fn refused(frame: &Frame, e: Errno) -> Response<'static>
    ensures { result ≡ refused frame.now e (whole_ask frame.now) }
{
    match frame.whole() {
        Some(ask) => Response::Whole(frame.unique(), ask),
        None => Response::error(frame.unique(), e),
    }
}
