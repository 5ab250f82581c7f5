//! What is kept of a line: a small record, and the order or the answer that it leads to.

ghost use Rattle.std.specs.Prelude.{◌≡◌};
ghost use Rattle.fl_history.specs.Inside.Records.{name_in, short_lock, short_op, ask_of};
ghost use Rattle.fl_order.specs.Name.{IsName};

use fl_order::{Answer, Body, Errno, LockAsk, OpKind, Order};

// So many bytes are kept of a line, and of the order or the answer that it leads to.
const _: () = prove!(size_of::<ShortLine>() == 16);

const _: () = prove!(size_of::<ShortOrder>() == 80);

const _: () = prove!(size_of::<Answered>() == 48);

/// What is kept of a line. A place is one in the vector of orders, of answers or of lines of heads.
#[derive(Clone, Copy, Debug)]
pub(crate) enum ShortLine {
    /// An order, at this place.
    Asked(usize),
    /// A reply that tells more than that it is done, at this place.
    Answered(usize),
    /// A reply that tells no more than that the order with this unique is done.
    Done(u64),
    /// A reply with an error, and its unique.
    Failed(Errno, u64),
    /// A line of a head, at this place.
    State(usize),
}

/// A reply that tells more than that it is done.
#[derive(Clone, Copy, Debug)]
pub(crate) struct Answered {
    /// The unique of the order that it answers.
    pub unique: u64,
    /// What it tells.
    pub answer: Answer,
}

/// Where a name stands in the bytes of all names.
#[derive(Clone, Copy, Debug)]
pub(crate) struct NameSpan {
    /// How many bytes the name has.
    pub len: u8,
    /// The place of its first byte, from 0.
    pub start: usize,
}

/// An order, and whose it is. Fields stand by size, since they lie in the order of the source.
#[derive(Clone, Copy, Debug)]
pub(crate) struct ShortOrder {
    /// The worker's number, from 0.
    pub worker: u32,
    /// The user who asks.
    pub uid: u32,
    /// The group that asks.
    pub gid: u32,
    /// The process that asks.
    pub pid: u32,
    /// The number by which its reply is known.
    pub unique: u64,
    /// The node that it speaks of.
    pub node: u64,
    /// What it asks.
    pub op: ShortOp,
}

/// What an order asks: its kind, and its body by shape, with the place of a name instead of the name, and lock requests
/// flat.
#[derive(Clone, Copy, Debug)]
pub(crate) enum ShortOp {
    Lock {
        what: OpKind,
        kind: u32,
        pid: u32,
        flags: u32,
        fh: u64,
        owner: u64,
        start: u64,
        end: u64,
    },
    Create {
        what: OpKind,
        excl: bool,
        mode: u32,
        name: NameSpan,
    },
    Make {
        what: OpKind,
        mode: u32,
        name: NameSpan,
    },
    Name(OpKind, NameSpan),
    Number(OpKind, u64),
    Flush {
        what: OpKind,
        fh: u64,
        owner: u64,
    },
    Release {
        what: OpKind,
        drop: bool,
        fh: u64,
        owner: u64,
    },
    Getattr(OpKind),
    Open(OpKind),
}

/// The bytes of the name in a body; none if it has no name.
pub(crate) fn name_in(body: &Body) -> &[u8]
    ensures bytes { result.now ≡ name_in body.now }
    ensures name { IsName result.now }
{
    match body {
        Body::Create { name, .. } | Body::Make { name, .. } | Body::Name(name) => name.as_bytes(),
        _ => &[],
    }
}

/// What is kept of a kind and a body whose name stands there.
pub(crate) fn short_op(what: OpKind, body: &Body, name: NameSpan) -> ShortOp
    ensures { result ≡ short_op name what body.now }
{
    match body {
        Body::Lock(ask) => short_lock(what, ask),
        Body::Create {
            excl,
            mode,
            name: _,
        } => ShortOp::Create {
            what,
            excl: *excl,
            mode: *mode,
            name,
        },
        Body::Make { mode, name: _ } => ShortOp::Make {
            what,
            mode: *mode,
            name,
        },
        Body::Name(_) => ShortOp::Name(what, name),
        Body::Number(n) => ShortOp::Number(what, *n),
        Body::Flush { fh, owner } => ShortOp::Flush {
            what,
            fh: *fh,
            owner: *owner,
        },
        Body::Release { fh, drop, owner } => ShortOp::Release {
            what,
            drop: *drop,
            fh: *fh,
            owner: *owner,
        },
        Body::Getattr => ShortOp::Getattr(what),
        Body::Open => ShortOp::Open(what),
    }
}

/// What is kept of a lock request.
pub(crate) fn short_lock(what: OpKind, ask: &LockAsk) -> ShortOp
    ensures { result ≡ short_lock what ask.now }
{
    ShortOp::Lock {
        what,
        kind: ask.kind,
        pid: ask.pid,
        flags: ask.flags,
        fh: ask.fh,
        owner: ask.owner,
        start: ask.start,
        end: ask.end,
    }
}

impl ShortOrder {
    /// What is kept of an order that asks this.
    pub(crate) fn new(worker: u32, order: &Order, op: ShortOp) -> ShortOrder
        ensures { result ≡ ask_of worker order.now op }
    {
        ShortOrder {
            worker,
            uid: order.uid,
            gid: order.gid,
            pid: order.pid,
            unique: order.unique,
            node: order.node,
            op,
        }
    }
}
