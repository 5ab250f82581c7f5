//! The reading of an order out of a message, or how that is refused.

ghost use Rattle.std.specs.Prelude.{◌≡◌, ◌+◌, ◌<◌, ◌≤◌, ◌==◌, length, sum, IfOk, IfSome, IsErr, IsNone, IsSome, OnOk};
ghost use Rattle.std.specs.Prelude.{Some, Ok, Err, if◌then◌else◌};
ghost use Rattle.std.specs.Result.{result_map_both};
ghost use Rattle.fl_order.specs.Name.{IsName};
ghost use Rattle.fl_order.specs.OpKind.{kind_of_opcode, shape_for};
ghost use Rattle.fl_order.specs.Sayable.{FitsBody, FitsLock, FitsOp, IsSayable};
ghost use Rattle.fl_wire.specs.Body.{name_behind, name_in};
ghost use Rattle.fl_wire.specs.Layout.{make_in, opcode_of};
ghost use Rattle.fl_wire.specs.Says.{body_in, order_of, said};
ghost use Rattle.fl_wire.specs.Single.{fault_of};

use crate::frame::Frame;
use crate::layout::{u32_at, u64_at};
use fl_order::{Body, Errno, LockAsk, Name, Op, OpKind, Order, Refusal, Shape};

// `O_EXCL` of a kernel's flags, and the permissions of a mode.
const O_EXCL: u32 = 0o200;

const PERMISSIONS: u32 = 0o777;

// `FUSE_RELEASE_FLOCK_UNLOCK` of the release flags.
const RELEASE_FLOCK_UNLOCK: u32 = 0b10;

// What a message says.
pub(crate) fn order_in(frame: &Frame) -> Result<Order, Refusal>
    ensures said { result ≡ said frame.now }
    ensures sayable { IfOk result IsSayable }
{
    if frame.batch().is_some() {
        return Err(Refusal::Batch);
    }
    let kind = OpKind::of_opcode(frame.opcode()).ok_or(Refusal::Answer(Errno::ENOSYS))?;
    let shape = kind.shape()?;
    let body = body_in(shape, frame.as_bytes()).map_err(|e| kind.refusal(e))?;
    let op = Op::of(kind, body).ok_or(Refusal::Answer(Errno::ENOSYS))?;
    Ok(order_asking(op, frame))
}

// The order with this message's header that asks this.
fn order_asking(op: Op, frame: &Frame) -> Order
    ensures said { Ok result ≡ order_of frame.now (Ok op) }
    ensures sayable { FitsOp op → IsSayable result }
{
    let bytes = frame.as_bytes();
    Order {
        unique: frame.unique(),
        node: u64_at(bytes, 16),
        uid: u32_at(bytes, 24),
        gid: u32_at(bytes, 28),
        pid: u32_at(bytes, 32),
        op,
    }
}

// The body of this shape.
fn body_in(shape: Shape, message: &[u8]) -> Result<Body, Errno>
    requires { 40 ≤ length message.now }
    ensures value { result ≡ body_in shape message.now }
    ensures fits { IfOk result FitsBody }
{
    match shape {
        Shape::Lock => Ok(Body::Lock(lock_ask(message)?)),
        Shape::Create => create_body(message),
        Shape::Make => make_body(message),
        Shape::Name => Ok(Body::Name(name_behind(message, 0)?)),
        Shape::Number => number_body(message),
        Shape::Flush => flush_body(message),
        Shape::Release => release_body(message),
        Shape::Getattr => unread_body(message, 16, Body::Getattr),
        Shape::Open => unread_body(message, 8, Body::Open),
    }
}

// Why a message has no body of this shape, if it has none.
pub(crate) fn fault_in(shape: Shape, message: &[u8]) -> Option<Errno>
    requires { 40 ≤ length message.now }
    ensures { result ≡ fault_of (body_in shape message.now) }
{
    let len = match shape {
        Shape::Create => return name_behind(message, 16).err(),
        Shape::Make => return name_behind(message, make_len(message)).err(),
        Shape::Name => return name_behind(message, 0).err(),
        Shape::Lock => 88,
        Shape::Flush | Shape::Release => 64,
        Shape::Getattr => 56,
        Shape::Number | Shape::Open => 48,
    };
    if message.len() == len {
        None
    } else {
        Some(Errno::EINVAL)
    }
}

// A lock request.
pub(crate) fn lock_ask(message: &[u8]) -> Result<LockAsk, Errno>
    ensures value { result_map_both (λ ask. Body.Lock ask) (λ e. e) result ≡ body_in Shape.Lock message.now }
    ensures fits { IfOk result FitsLock }
{
    if message.len() != 88 {
        return Err(Errno::EINVAL);
    }
    Ok(LockAsk {
        fh: u64_at(message, 40),
        owner: u64_at(message, 48),
        start: u64_at(message, 56),
        end: u64_at(message, 64),
        kind: u32_at(message, 72),
        pid: u32_at(message, 76),
        flags: u32_at(message, 80),
    })
}

// The body of a CREATE.
fn create_body(message: &[u8]) -> Result<Body, Errno>
    ensures value { result ≡ body_in Shape.Create message.now }
    ensures fits { IfOk result FitsBody }
{
    let name = name_behind(message, 16)?;
    Ok(Body::Create {
        excl: u32_at(message, 40) & O_EXCL != 0,
        mode: u32_at(message, 44) & PERMISSIONS,
        name,
    })
}

// How many bytes the fields of a MKDIR have, or else those of a MKNOD.
fn make_len(message: &[u8]) -> usize
    requires { 40 ≤ length message.now }
    ensures value { result ≡ sum (make_in (opcode_of message.now)) }
    ensures least { 8 ≤ result }
    ensures most { result ≤ 16 }
{
    if u32_at(message, 4) == OpKind::Mkdir.opcode() {
        8
    } else {
        16
    }
}

// The body of a MKNOD or a MKDIR.
fn make_body(message: &[u8]) -> Result<Body, Errno>
    requires { 40 ≤ length message.now }
    ensures value { result ≡ body_in Shape.Make message.now }
    ensures fits { IfOk result FitsBody }
{
    let name = name_behind(message, make_len(message))?;
    Ok(Body::Make {
        mode: u32_at(message, 40),
        name,
    })
}

// One number.
fn number_body(message: &[u8]) -> Result<Body, Errno>
    ensures value { result ≡ body_in Shape.Number message.now }
    ensures fits { IfOk result FitsBody }
{
    if message.len() != 48 {
        return Err(Errno::EINVAL);
    }
    Ok(Body::Number(u64_at(message, 40)))
}

// The body of a FLUSH.
fn flush_body(message: &[u8]) -> Result<Body, Errno>
    ensures value { result ≡ body_in Shape.Flush message.now }
    ensures fits { IfOk result FitsBody }
{
    if message.len() != 64 {
        return Err(Errno::EINVAL);
    }
    Ok(Body::Flush {
        fh: u64_at(message, 40),
        owner: u64_at(message, 56),
    })
}

// The body of a RELEASE.
fn release_body(message: &[u8]) -> Result<Body, Errno>
    ensures value { result ≡ body_in Shape.Release message.now }
    ensures fits { IfOk result FitsBody }
{
    if message.len() != 64 {
        return Err(Errno::EINVAL);
    }
    Ok(Body::Release {
        fh: u64_at(message, 40),
        drop: u32_at(message, 52) & RELEASE_FLOCK_UNLOCK != 0,
        owner: u64_at(message, 56),
    })
}

// A body of which only the length is looked at.
fn unread_body(message: &[u8], len: usize, body: Body) -> Result<Body, Errno>
    requires { len ≤ 16 }
    ensures { result ≡ if length message.now == 40 + len then Ok body else Err Errno.EINVAL }
{
    if message.len() != 40 + len {
        return Err(Errno::EINVAL);
    }
    Ok(body)
}

// The name behind fields of this many bytes.
fn name_behind(message: &[u8], fields: usize) -> Result<Name, Errno>
    requires { fields ≤ 16 }
    ensures value { result ≡ name_behind fields message.now }
    ensures long { OnOk result (40 + fields < length message.now) }
    ensures name { IfOk result IsName }
{
    if message.len() <= 40 + fields {
        return Err(Errno::EINVAL);
    }
    name_in(&message[40 + fields..])
}

// The name that these bytes spell, a zero byte at its end.
#[tactic(auto, unfolding(crate::specs::Body::name_in))]
fn name_in(bytes: &[u8]) -> Result<Name, Errno>
    requires { 0 < length bytes.now }
    ensures value { result ≡ name_in bytes.now }
    ensures name { IfOk result IsName }
{
    let last = bytes.len() - 1;
    let text = &bytes[..last];
    if bytes[last] != 0 || text.contains(&0) {
        return Err(Errno::EINVAL);
    }
    Name::new(text).ok_or(Errno::ENAMETOOLONG)
}
