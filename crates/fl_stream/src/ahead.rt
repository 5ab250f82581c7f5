//! Lines that a writer has before replies leave.

ghost use Rattle.std.specs.Prelude.{◌≡◌, ◌≢◌, ◌≤◌, ◌<◌, ◌+◌, ◌++◌, ◌∷◌, [], IfOk, IsTrue, false, true};
ghost use mathlib.Core.List.{IsPrefix};
ghost use Rattle.fl_history.specs.declared.history.Line.TheVariants as line;
ghost use Rattle.fl_stream.specs.Streams.{IsAs, IsBlank, Wrote};
ghost use Rattle.fl_stream.specs.declared.manner.WhenWriterFails.TheVariants as manner;
ghost use Rattle.fl_trace.specs.Text.{text_of};

use crate::manner::WhenWriterFails;
use crate::streamed::{StreamRoom, Streamed};
use fl_history::{Journal, Line, Past};
use fl_order::{NoMemory, Order, StateLine, Told};
use std::alloc::Global;
use std::io::Write;
use std::marker::Model;

/// Lines that go to a writer as their text. They are stored once it has that, and it isn't gone on without. Contracts
/// see the stream.
#[derive(Drop)]
pub struct AheadLines<T: Write> {
    stream: Streamed<T>,
}

impl<T: Write> Model for AheadLines<T> {
    ghost use Rattle.std.specs.Prelude.{◌≢◌};
    ghost use Rattle.fl_stream.specs.Streams.{Stream};
    ghost use Rattle.fl_stream.specs.declared.manner.WhenWriterFails.TheVariants as manner;

    ghost Value = { Stream };

    ghost view = { λ a. a.stream };

    ghost invariant = { λ a. a.stream.manner ≢ manner.GoOn };
}

impl<T: Write> AheadLines<T> {
    /// No lines, before a writer that has nothing yet.
    pub fn new(
        alloc: Global,
        writer: T,
        when_full: WhenWriterFails,
    ) -> Result<AheadLines<T>, NoMemory>
    where
        T: Drop,
        requires blank { IsBlank (T.contents writer) }
        requires ahead { when_full ≢ manner.GoOn }
        ensures lines { IfOk result (λ made. made.lines ≡ []) }
    {
        Ok(AheadLines {
            stream: Streamed::new(alloc, writer, when_full)?,
        })
    }

    /// These lines, before a writer that has their text and nothing more.
    pub fn behind(room: StreamRoom, writer: T, base: &Past<Line>) -> AheadLines<T>
        requires there { IsAs (T.contents writer) (text_of base.now.items) }
        ensures lines { result.lines ≡ base.now.items }
        ensures room { result.room ≡ 2048 }
    {
        AheadLines {
            stream: Streamed::behind(room, writer, base, WhenWriterFails::End),
        }
    }

    /// These lines, before a writer to which their text was written and nothing more.
    pub fn with_text(room: StreamRoom, writer: T, base: &Past<Line>) -> AheadLines<T>
        requires there { Wrote T.contents (T.contents writer) (text_of base.now.items) }
        ensures lines { result.lines ≡ base.now.items }
        ensures noted { result.noted ≡ base.now.items }
        ensures room { result.room ≡ 2048 }
    {
        AheadLines {
            stream: Streamed::with_text(room, writer, base, WhenWriterFails::End),
        }
    }

    /// All lines.
    pub fn lines(&self) -> Past<Line>
        ensures { result.items ≡ self.now.lines }
    {
        self.stream.lines()
    }

    /// The writer.
    pub fn writer(&self) -> &T
        ensures { T.contents result.now ≡ self.now.held }
    {
        self.stream.writer()
    }

    /// Whether the writer has the text of all lines.
    pub fn is_whole(&self) -> bool
        ensures front { IsPrefix self.now.noted self.now.lines }
    {
        self.stream.is_whole()
    }

    /// A line more.
    pub fn push(&mut self, line: &Line)
        requires room { 0 < self.old.room }
        ensures lines { self.new.lines ≡ self.old.lines ++ line.now ∷ [] }
        ensures noted { self.new.noted ≡ self.old.noted }
        ensures room { self.old.room ≤ self.new.room + 1 }
    {
        self.stream.push(line);
    }

    /// A line of a head more, if there is room for it. Says whether there was.
    pub fn add_state(&mut self, state: &StateLine) -> bool
        ensures lines { result ≡ true → self.new.lines ≡ self.old.lines ++ line.State state.now ∷ [] }
        ensures refused { result ≡ false → self.new.lines ≡ self.old.lines }
    {
        if self.stream.reserve(1).is_err() {
            return false;
        }
        self.stream.push(&Line::State(*state));
        true
    }

    /// Writes what waits, and says whether the writer has the text of all lines then.
    pub fn finish(&mut self) -> bool
        ensures lines { self.new.lines ≡ self.old.lines }
        ensures all { IsTrue result → Wrote T.contents self.new.held (text_of self.new.lines) }
    {
        self.stream.finish()
    }

    /// The writer and the room, with nothing in it.
    pub fn into_parts(self) -> (T, StreamRoom)
        ensures { T.contents result.0 ≡ self.held }
    {
        let AheadLines { stream } = self;
        stream.into_parts()
    }

    /// The stream, which never goes on without its writer.
    pub fn into_stream(self) -> Streamed<T>
        ensures value { result ≡ self }
        ensures front { IsPrefix self.noted self.lines }
    {
        let AheadLines { stream } = self;
        let broken = stream.is_broken();
        prove!(!broken);
        stream
    }
}

impl<T: Write> Journal for AheadLines<T> {
    ghost lines = { λ a. a.lines };

    ghost stored = { λ a. a.noted };

    ghost room = { λ a. a.room };

    ghost piece = { λ a. a.lines };

    ghost draft = { λ _. [] };

    #[tactic(auto, using(crate::proofs::Prefixes::of_itself))]
    fn reserve(&mut self, count: usize) -> Result<(), NoMemory> {
        self.stream.reserve(count)
    }

    #[tactic(auto, using(crate::proofs::Prefixes::of_itself))]
    fn push_asked(&mut self, worker: u32, order: &Order) {
        self.stream.push_asked(worker, order);
    }

    #[tactic(auto, using(crate::proofs::Prefixes::of_itself))]
    fn push_told(&mut self, told: &Told) {
        self.stream.push_told(told);
    }

    fn store_all(&mut self) -> bool {
        self.stream.store_all()
    }

    fn store_if_due(&mut self) -> bool {
        self.stream.store_if_due()
    }
}
