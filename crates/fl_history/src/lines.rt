//! Lines, kept in few bytes.

ghost use Rattle.std.specs.Prelude.{◌≡◌, ℕ, ◌+◌, ◌*◌, ◌<◌, ◌≤◌, ◌^◌, List, ◌++◌, ◌∷◌, [], length, Some, IsOk, OnOk, OnErr};
ghost use Rattle.std.specs.List.{slice_get};
ghost use Rattle.fl_history.specs.Inside.Records.{bytes_at, opened, opened_parts, asked_line};
ghost use Rattle.fl_history.specs.Inside.Records.{Begins, IsNamed, IsThere, NamesAreThere, LeadsBack};
ghost use Rattle.fl_history.specs.declared.records.ShortOrder.{ShortOrder};
ghost use Rattle.fl_history.specs.declared.history.Line.TheVariants as line;
ghost use Rattle.fl_order.specs.Name.{IsName};
ghost use Rattle.fl_order.specs.Order.{parts_of};
ghost use Rattle.fl_order.specs.declared.state_part.StateLine.{StateLine};

use crate::chunks::ChunkedVec;
use crate::history::Line;
use crate::records::{
    Answered, NameSpan, ShortLine, ShortOp, ShortOrder, name_in, short_lock, short_op,
};
use fl_order::{Answer, Body, LockAsk, Name, Op, OpKind, Order, StateLine, Told};
use std::alloc::{AllocError, Global};
use std::marker::Model;

// The most bytes of a name.
const MOST_BYTES: usize = 255;

/// Lines in the order of time. Contracts see their list, and for how many more memory is there.
#[derive(Debug)]
pub struct Lines {
    records: ChunkedVec<ShortLine>,
    asks: ChunkedVec<ShortOrder>,
    answers: ChunkedVec<Answered>,
    // Lines of heads.
    states: ChunkedVec<StateLine>,
    // The bytes of all names of orders, one after another.
    names: ChunkedVec<u8>,
    room: usize,
}

impl Model for Lines {
    ghost use Rattle.fl_history.specs.Stock.{Stock};
    ghost use Rattle.fl_history.specs.declared.history.Line.{Line};

    ghost Value = { Stock Line };

    ghost use Rattle.fl_history.specs.Inside.Records.{opened_all, AreKept, HaveRoom};

    ghost view = { λ l.
        record { items = opened_all l.asks.items l.answers.items l.states.items l.names.items l.records.items; room = l.room } };

    ghost invariant = { λ l. AreKept l.records.items l.asks.items l.answers.items l.states.items l.names.items
        × HaveRoom l.room l.records.room l.asks.room l.answers.room l.names.room };
}

impl Drop for Lines {
    // One call: with a derived one, whoever owns lines would prove a step for each vector in them.
    fn drop(self) {
        let Lines {
            records: _records,
            asks: _asks,
            answers: _answers,
            states: _states,
            names: _names,
            room: _room,
        } = self;
    }
}

impl Lines {
    /// No lines, and no memory for any.
    pub fn new(alloc: Global) -> Lines
        ensures { result ≡ record { items = []; room = 0 } }
    {
        Lines {
            records: ChunkedVec::new(alloc),
            asks: ChunkedVec::new(alloc),
            answers: ChunkedVec::new(alloc),
            states: ChunkedVec::new(alloc),
            names: ChunkedVec::new(alloc),
            room: 0,
        }
    }

    /// How many lines there are.
    pub fn len(&self) -> usize
        ensures len { result ≡ length self.now.items }
        ensures few { result < 2 ^ 63 }
    {
        self.records.len()
    }

    /// The line at this place, from 0.
    pub fn get(&self, at: usize) -> Line
        requires { at < length self.now.items }
        ensures { slice_get self.now.items at ≡ Some result }
    {
        match self.records.get(at) {
            ShortLine::Asked(at) => asked(&self.asks.get(at), &self.names),
            ShortLine::Answered(at) => {
                let Answered { unique, answer } = self.answers.get(at);
                Line::Told(Told {
                    unique,
                    result: Ok(answer),
                })
            }
            ShortLine::Done(unique) => Line::Told(Told {
                unique,
                result: Ok(Answer::Done),
            }),
            ShortLine::Failed(error, unique) => Line::Told(Told {
                unique,
                result: Err(error),
            }),
            ShortLine::State(at) => Line::State(self.states.get(at)),
        }
    }

    /// Makes room for so many orders and replies more, whatever they are. A refusal changes nothing, and doesn't come if there is
    /// room.
    pub fn reserve(&mut self, count: usize) -> Result<(), AllocError>
        requires { count ≤ 2 ^ 32 }
        ensures items { self.new.items ≡ self.old.items }
        ensures room { OnOk result (count ≤ self.new.room) }
        ensures succeeds { count ≤ self.old.room → IsOk result }
    {
        if self.room < count {
            self.records.reserve(count)?;
            self.asks.reserve(count)?;
            self.answers.reserve(count)?;
            self.names.reserve(count * MOST_BYTES)?;
            self.room = count;
        }
        Ok(())
    }

    /// An order more.
    pub fn push_asked(&mut self, worker: u32, order: &Order)
        requires { 0 < self.old.room }
        ensures items { self.new.items ≡ self.old.items ++ line.Asked worker order.now ∷ [] }
        ensures room { self.new.room + 1 ≡ self.old.room }
    {
        let op = keep_op(&mut self.names, &order.op);
        let at = self.asks.len();
        self.asks.push(ShortOrder::new(worker, order, op));
        self.records.push(ShortLine::Asked(at));
        self.room -= 1;
    }

    /// A reply more.
    pub fn push_told(&mut self, told: &Told)
        requires { 0 < self.old.room }
        ensures items { self.new.items ≡ self.old.items ++ line.Told told.now ∷ [] }
        ensures room { self.new.room + 1 ≡ self.old.room }
    {
        let record = keep_told(&mut self.answers, told);
        self.records.push(record);
        self.room -= 1;
    }

    /// A line of a head more. A refusal changes nothing.
    pub fn push_state(&mut self, state: &StateLine) -> Result<(), AllocError>
        requires { 0 < self.old.room }
        ensures items { OnOk result (self.new.items ≡ self.old.items ++ line.State state.now ∷ []) }
        ensures room { OnOk result (self.new.room + 1 ≡ self.old.room) }
        ensures refused { OnErr result (self.new ≡ self.old) }
    {
        self.states.reserve(1)?;
        let at = self.states.len();
        self.states.push(*state);
        self.records.push(ShortLine::State(at));
        self.room -= 1;
        Ok(())
    }
}

// The record of a reply, whose answer joins the others if it tells more than that it is done.
fn keep_told(answers: &mut ChunkedVec<Answered>, told: &Told) -> ShortLine
    requires { 0 < answers.old.room }
    ensures answers { Begins answers.old.items answers.new.items }
    ensures room { answers.old.room ≤ answers.new.room + 1 }
    ensures there { (asks states : ℕ) → IsThere asks (length answers.new.items) states result }
    ensures opened { (asks : List ShortOrder) (states : List StateLine) (names : List ℕ) →
        opened asks answers.new.items states names result ≡ line.Told told.now }
{
    let unique = told.unique;
    match told.result {
        Ok(Answer::Done) => ShortLine::Done(unique),
        Err(error) => ShortLine::Failed(error, unique),
        Ok(answer) => {
            let at = answers.len();
            answers.push(Answered { unique, answer });
            ShortLine::Answered(at)
        }
    }
}

// What is kept of what an order asks, whose name joins the others. A lock request is kept without its `Body`, whose
// room for a name would be cleared and copied.
fn keep_op(names: &mut ChunkedVec<u8>, op: &Op) -> ShortOp
    requires { 255 ≤ names.old.room }
    ensures names { Begins names.old.items names.new.items }
    ensures room { names.old.room ≤ names.new.room + 255 }
    ensures there { NamesAreThere names.new.items result }
    ensures opened { opened_parts names.new.items result ≡ parts_of op.now }
{
    if let Some((kind, ask)) = op.lock_parts() {
        return short_lock(kind, &ask);
    }
    let parts = op.parts();
    let name = push_name(names, name_in(&parts.1));
    short_op(parts.0, &parts.1, name)
}

// Puts the bytes of a name behind those of all others.
fn push_name(names: &mut ChunkedVec<u8>, name: &[u8]) -> NameSpan
    requires room { length name.now ≤ names.old.room }
    requires name { IsName name.now }
    ensures names { names.new.items ≡ names.old.items ++ name.now }
    ensures room { names.new.room + length name.now ≡ names.old.room }
    ensures named { IsNamed names.new.items result }
    ensures there { bytes_at names.new.items result ≡ name.now }
{
    let span = NameSpan {
        len: name.len() as u8,
        start: names.len(),
    };
    names.extend_from_slice(name);
    span
}

// The name at a place.
fn name_at(names: &ChunkedVec<u8>, span: NameSpan) -> Name
    requires { IsNamed names.now.items span }
    ensures { result ≡ bytes_at names.now.items span }
{
    let len = usize::from(span.len);
    let mut bytes = [0; MOST_BYTES];
    names.copy_from(span.start, &mut bytes[..len]);
    let Some(name) = Name::new(&bytes[..len]) else {
        unreachable!()
    };
    name
}

// The line of an order.
fn asked(ask: &ShortOrder, names: &ChunkedVec<u8>) -> Line
    requires { LeadsBack names.now.items ask.now.op }
    ensures { result ≡ asked_line names.now.items ask.now }
{
    let (kind, body) = opened_parts(&ask.op, names);
    let Some(op) = Op::of(kind, body) else {
        unreachable!()
    };
    Line::Asked {
        worker: ask.worker,
        order: Order {
            unique: ask.unique,
            node: ask.node,
            uid: ask.uid,
            gid: ask.gid,
            pid: ask.pid,
            op,
        },
    }
}

// The kind and the body of what was asked.
fn opened_parts(op: &ShortOp, names: &ChunkedVec<u8>) -> (OpKind, Body)
    requires { NamesAreThere names.now.items op.now }
    ensures { result ≡ opened_parts names.now.items op.now }
{
    match *op {
        ShortOp::Lock {
            what,
            kind,
            pid,
            flags,
            fh,
            owner,
            start,
            end,
        } => {
            let ask = LockAsk {
                fh,
                owner,
                start,
                end,
                kind,
                pid,
                flags,
            };
            (what, Body::Lock(ask))
        }
        ShortOp::Create {
            what,
            excl,
            mode,
            name,
        } => {
            let name = name_at(names, name);
            (what, Body::Create { excl, mode, name })
        }
        ShortOp::Make { what, mode, name } => {
            let name = name_at(names, name);
            (what, Body::Make { mode, name })
        }
        ShortOp::Name(what, name) => (what, Body::Name(name_at(names, name))),
        ShortOp::Number(what, n) => (what, Body::Number(n)),
        ShortOp::Flush { what, fh, owner } => (what, Body::Flush { fh, owner }),
        ShortOp::Release {
            what,
            drop,
            fh,
            owner,
        } => (what, Body::Release { fh, drop, owner }),
        ShortOp::Getattr(what) => (what, Body::Getattr),
        ShortOp::Open(what) => (what, Body::Open),
    }
}
