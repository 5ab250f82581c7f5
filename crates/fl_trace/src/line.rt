//! The text of one line, behind bytes that have room for it. Nothing here asks for memory, and nothing fails.

ghost use Rattle.std.specs.Prelude.{◌≡◌, ◌+◌, ◌≤◌, ◌++◌, ◌∷◌, [], length, vec_capacity};
ghost use Rattle.std.specs.Str.{IsUtf8};
ghost use Rattle.fl_history.specs.declared.history.Line.TheVariants as line;
ghost use Rattle.fl_order.specs.OpKind.{word_for};
ghost use Rattle.fl_trace.specs.Text.{fields_text, op_text, attr_text, answer_text, result_text, line_text};
ghost use Rattle.fl_words.specs.Words.{behind};

use fl_history::Line;
use fl_order::{
    Answer, Attr, Body, Errno, Head, LockAsk, Op, OpKind, Order, StateLine, StatePart, Told,
};
use fl_words::{push, push_flag, push_lock_ask, push_name, push_number, push_numbers, push_state};

/// So many bytes of room are enough for the text of any line and its newline.
pub const LINE_ROOM: usize = 700;

/// Puts the text of a line, and its newline, behind what is there: the very text that `print_trace` gives it.
pub fn push_line(text: &mut Vec<u8>, line: &Line)
    requires room { length text.old.items + 700 ≤ vec_capacity text.old }
    ensures bytes { text.new.items ≡ text.old.items ++ (line_text line.now ++ 10 ∷ []) }
    ensures few { length text.new.items ≤ length text.old.items + 700 }
    ensures capacity { vec_capacity text.old ≤ vec_capacity text.new }
    ensures utf8 { IsUtf8 text.old.items → IsUtf8 text.new.items }
{
    match line {
        Line::Asked { worker, order } => push_asked(text, *worker, order),
        Line::Told(told) => push_told(text, told),
        Line::State(line) => push_state(text, line),
    }
    push(text, "\n");
}

// The line of an order.
fn push_asked(text: &mut Vec<u8>, worker: u32, order: &Order)
    requires room { length text.old.items + 690 ≤ vec_capacity text.old }
    ensures bytes { text.new.items ≡ text.old.items ++ line_text (line.Asked worker order.now) }
    ensures few { length text.new.items ≤ length text.old.items + 690 }
    ensures capacity { vec_capacity text.old ≤ vec_capacity text.new }
    ensures utf8 { IsUtf8 text.old.items → IsUtf8 text.new.items }
{
    let Order {
        unique,
        node,
        uid,
        gid,
        pid,
        op,
    } = order;
    push(text, "ask");
    push_numbers(
        text,
        &[
            u64::from(worker),
            *unique,
            *node,
            u64::from(*uid),
            u64::from(*gid),
            u64::from(*pid),
        ],
    );
    push_op(text, op);
}

// The line of a reply.
fn push_told(text: &mut Vec<u8>, told: &Told)
    requires room { length text.old.items + 690 ≤ vec_capacity text.old }
    ensures bytes { text.new.items ≡ text.old.items ++ line_text (line.Told told.now) }
    ensures few { length text.new.items ≤ length text.old.items + 690 }
    ensures capacity { vec_capacity text.old ≤ vec_capacity text.new }
    ensures utf8 { IsUtf8 text.old.items → IsUtf8 text.new.items }
{
    push(text, "tell");
    push_numbers(text, &[told.unique]);
    push_result(text, &told.result);
}

// A space, and the word of a kind.
fn push_word(text: &mut Vec<u8>, kind: OpKind)
    requires room { length text.old.items + 13 ≤ vec_capacity text.old }
    ensures bytes { text.new.items ≡ text.old.items ++ 32 ∷ word_for kind }
    ensures few { length text.new.items ≤ length text.old.items + 13 }
    ensures capacity { vec_capacity text.old ≤ vec_capacity text.new }
    ensures utf8 { IsUtf8 text.old.items → IsUtf8 text.new.items }
{
    push(text, " ");
    push(text, kind.word());
}

// A space, and what is asked.
fn push_op(text: &mut Vec<u8>, op: &Op)
    requires room { length text.old.items + 560 ≤ vec_capacity text.old }
    ensures bytes { text.new.items ≡ text.old.items ++ 32 ∷ op_text op.now }
    ensures few { length text.new.items ≤ length text.old.items + 560 }
    ensures capacity { vec_capacity text.old ≤ vec_capacity text.new }
    ensures utf8 { IsUtf8 text.old.items → IsUtf8 text.new.items }
{
    let (kind, body) = op.parts();
    push_word(text, kind);
    push_fields(text, &body);
}

// The fields with the space in front of them, if there are any.
fn push_fields(text: &mut Vec<u8>, body: &Body)
    requires room { length text.old.items + 540 ≤ vec_capacity text.old }
    ensures bytes { text.new.items ≡ text.old.items ++ behind (fields_text body.now) }
    ensures few { length text.new.items ≤ length text.old.items + 540 }
    ensures capacity { vec_capacity text.old ≤ vec_capacity text.new }
    ensures utf8 { IsUtf8 text.old.items → IsUtf8 text.new.items }
{
    match body {
        Body::Lock(ask) => push_lock_ask(text, ask),
        Body::Create { excl, mode, name } => {
            push_flag(text, *excl);
            push_number(text, u64::from(*mode));
            push_name(text, name);
        }
        Body::Make { mode, name } => {
            push_number(text, u64::from(*mode));
            push_name(text, name);
        }
        Body::Name(name) => push_name(text, name),
        Body::Number(n) => push_number(text, *n),
        Body::Flush { fh, owner } => push_numbers(text, &[*fh, *owner]),
        Body::Release { fh, drop, owner } => {
            push_number(text, *fh);
            push_flag(text, *drop);
            push_number(text, *owner);
        }
        Body::Getattr | Body::Open => (),
    }
}

// A space, and an answer or the number of an error.
fn push_result(text: &mut Vec<u8>, result_told: &Result<Answer, Errno>)
    requires room { length text.old.items + 150 ≤ vec_capacity text.old }
    ensures bytes { text.new.items ≡ text.old.items ++ 32 ∷ result_text result_told.now }
    ensures few { length text.new.items ≤ length text.old.items + 150 }
    ensures capacity { vec_capacity text.old ≤ vec_capacity text.new }
    ensures utf8 { IsUtf8 text.old.items → IsUtf8 text.new.items }
{
    match result_told {
        Ok(answer) => push_answer(text, answer),
        Err(error) => {
            push(text, " err");
            push_number(text, u64::from(error.number()));
        }
    }
}

// A space and an answer.
fn push_answer(text: &mut Vec<u8>, answer: &Answer)
    requires room { length text.old.items + 150 ≤ vec_capacity text.old }
    ensures bytes { text.new.items ≡ text.old.items ++ 32 ∷ answer_text answer.now }
    ensures few { length text.new.items ≤ length text.old.items + 150 }
    ensures capacity { vec_capacity text.old ≤ vec_capacity text.new }
    ensures utf8 { IsUtf8 text.old.items → IsUtf8 text.new.items }
{
    match answer {
        Answer::Done => push(text, " ok"),
        Answer::Entry(attr) => {
            push(text, " entry");
            push_attr(text, attr);
        }
        Answer::Attr(attr) => {
            push(text, " attr");
            push_attr(text, attr);
        }
        Answer::Open(fh) => {
            push(text, " open");
            push_number(text, *fh);
        }
        Answer::Made(attr, fh) => {
            push(text, " made");
            push_attr(text, attr);
            push_number(text, *fh);
        }
        Answer::Lock {
            start,
            end,
            kind,
            pid,
        } => {
            push(text, " lock");
            push_numbers(text, &[*start, *end, u64::from(*kind), u64::from(*pid)]);
        }
    }
}

// A space, and a node's attributes.
fn push_attr(text: &mut Vec<u8>, attr: &Attr)
    requires room { length text.old.items + 105 ≤ vec_capacity text.old }
    ensures bytes { text.new.items ≡ text.old.items ++ 32 ∷ attr_text attr.now }
    ensures few { length text.new.items ≤ length text.old.items + 105 }
    ensures capacity { vec_capacity text.old ≤ vec_capacity text.new }
    ensures utf8 { IsUtf8 text.old.items → IsUtf8 text.new.items }
{
    let Attr {
        node,
        mode,
        nlink,
        uid,
        gid,
    } = *attr;
    let (mode, nlink, uid, gid) = (
        u64::from(mode),
        u64::from(nlink),
        u64::from(uid),
        u64::from(gid),
    );
    push_numbers(text, &[node, mode, nlink, uid, gid]);
}
