//! Orders, read from the words of an `ask` line.

ghost use Rattle.std.specs.Prelude.{◌≡◌, ℕ, Some, IfSome, IsSome};
ghost use Rattle.std.specs.Option.{option_copied};
ghost use Rattle.fl_order.specs.Body.{body_shape};
ghost use Rattle.fl_order.specs.Sayable.{FitsBody, FitsOp, IsSayable};
ghost use Rattle.fl_order.specs.declared.body.Body.{Body};
ghost use Rattle.fl_order.specs.declared.body.Shape.TheVariants.{Create, Flush, Make, Release};
ghost use Rattle.fl_order.specs.declared.order.Order.{Order};
ghost use Rattle.fl_order.specs.declared.order.Op.{Op};
ghost use Rattle.fl_trace.specs.Text.{order_text, op_text, fields_text};

use fl_order::{Body, Op, OpKind, Order, Shape};
use fl_words::{first_word, flag_word, name, number, read_lock_ask, u32_word, u64_word};

/// An order; none if it has any other spelling.
pub(super) fn asked_order(text: &str) -> Option<Order>
    ensures fits { IfSome result IsSayable }
    ensures spelled { IfSome result (λ order. text.now ≡ order_text order) }
    ensures only { (order : Order) → IsSayable order → text.now ≡ order_text order → IsSome result }
{
    let (unique, rest) = u64_word(text)?;
    let (node, rest) = u64_word(rest)?;
    let (uid, rest) = u32_word(rest)?;
    let (gid, rest) = u32_word(rest)?;
    let (pid, rest) = u32_word(rest)?;
    let op = read_op(rest)?;
    Some(Order {
        unique,
        node,
        uid,
        gid,
        pid,
        op,
    })
}

// The word of a kind, and the fields of its body.
#[tactic(auto, using(crate::proofs::ReadBack::shape_made))]
fn read_op(text: &str) -> Option<Op>
    ensures fits { IfSome result FitsOp }
    ensures spelled { IfSome result (λ op. text.now ≡ op_text op) }
    ensures only { (op : Op) → FitsOp op → text.now ≡ op_text op → IsSome result }
{
    let (word, fields) = first_word(text);
    let kind = OpKind::of_word(word)?;
    let body = read_body(kind.shape().ok()?, fields)?;
    Op::of(kind, body)
}

// The fields of a body of this shape.
fn read_body(shape: Shape, fields: Option<&str>) -> Option<Body>
    ensures shape { IfSome result (λ body. body_shape body ≡ shape) }
    ensures fits { IfSome result FitsBody }
    ensures spelled { IfSome result (λ body. option_copied fields.entry ≡ fields_text body) }
    ensures only { (body : Body) → body_shape body ≡ shape → FitsBody body →
        option_copied fields.entry ≡ fields_text body → IsSome result }
{
    match (shape, fields) {
        (Shape::Lock, Some(text)) => Some(Body::Lock(read_lock_ask(text)?)),
        (Shape::Create, Some(text)) => read_create(text),
        (Shape::Make, Some(text)) => read_make(text),
        (Shape::Name, Some(text)) => Some(Body::Name(name(text)?)),
        (Shape::Number, Some(text)) => Some(Body::Number(number(text)?)),
        (Shape::Flush, Some(text)) => read_flush(text),
        (Shape::Release, Some(text)) => read_release(text),
        (Shape::Getattr, None) => Some(Body::Getattr),
        (Shape::Open, None) => Some(Body::Open),
        _ => None,
    }
}

fn read_create(text: &str) -> Option<Body>
    ensures shape { IfSome result (λ body. body_shape body ≡ Create) }
    ensures fits { IfSome result FitsBody }
    ensures spelled { IfSome result (λ body. Some text.now ≡ fields_text body) }
    ensures only { (body : Body) → body_shape body ≡ Create → FitsBody body → Some text.now ≡ fields_text body →
        IsSome result }
{
    let (excl, rest) = flag_word(text)?;
    let (mode, rest) = u32_word(rest)?;
    if mode > 0o777 {
        return None;
    }
    let name = name(rest)?;
    Some(Body::Create { excl, mode, name })
}

fn read_make(text: &str) -> Option<Body>
    ensures shape { IfSome result (λ body. body_shape body ≡ Make) }
    ensures fits { IfSome result FitsBody }
    ensures spelled { IfSome result (λ body. Some text.now ≡ fields_text body) }
    ensures only { (body : Body) → body_shape body ≡ Make → FitsBody body → Some text.now ≡ fields_text body →
        IsSome result }
{
    let (mode, rest) = u32_word(text)?;
    let name = name(rest)?;
    Some(Body::Make { mode, name })
}

fn read_flush(text: &str) -> Option<Body>
    ensures shape { IfSome result (λ body. body_shape body ≡ Flush) }
    ensures fits { IfSome result FitsBody }
    ensures spelled { IfSome result (λ body. Some text.now ≡ fields_text body) }
    ensures only { (body : Body) → body_shape body ≡ Flush → FitsBody body → Some text.now ≡ fields_text body →
        IsSome result }
{
    let (fh, rest) = u64_word(text)?;
    let owner = number(rest)?;
    Some(Body::Flush { fh, owner })
}

fn read_release(text: &str) -> Option<Body>
    ensures shape { IfSome result (λ body. body_shape body ≡ Release) }
    ensures fits { IfSome result FitsBody }
    ensures spelled { IfSome result (λ body. Some text.now ≡ fields_text body) }
    ensures only { (body : Body) → body_shape body ≡ Release → FitsBody body → Some text.now ≡ fields_text body →
        IsSome result }
{
    let (fh, rest) = u64_word(text)?;
    let (drop, rest) = flag_word(rest)?;
    let owner = number(rest)?;
    Some(Body::Release { fh, drop, owner })
}
