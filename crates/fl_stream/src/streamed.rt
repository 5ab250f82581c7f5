//! Lines that go to a writer as their text, and wait in memory only until then.

ghost use Rattle.std.specs.Prelude.{◌≡◌, ◌≢◌, ◌↔◌, ◌⊎◌, ◌+◌, ◌≤◌, ◌<◌, ◌++◌, ◌∷◌, [], false, IsTrue, IfOk, OnOk};
ghost use Rattle.std.specs.Prelude.{OnErr, IsOk, vec_capacity};
ghost use Rattle.std.specs.Io.KnownBytes.{Keeps};
ghost use mathlib.Core.List.{IsPrefix};
ghost use Rattle.fl_history.specs.declared.history.Line.TheVariants as line;
ghost use Rattle.fl_stream.specs.Streams.{IsAs, IsBlank, Wrote, HoldsText, IsBegun, IsStreamed, stored_by};
ghost use Rattle.fl_stream.specs.declared.manner.WhenWriterFails.TheVariants as manner;
ghost use Rattle.fl_trace.specs.Text.{text_of};

use crate::manner::WhenWriterFails;
use crate::writing::send;
use fl_history::{Journal, Line, Past};
use fl_order::{NoMemory, Order, Told};
use fl_trace::{LINE_ROOM, push_line};
use std::alloc::Global;
use std::io::Write;
use std::marker::Model;

/// So many lines at the most find room one after another before their text is written.
const MOST_LINES: usize = 2048;

/// Before an order is taken while so many bytes wait, they are written, but not at `Refuse`. So at most some 64 KB
/// wait, and the lines of one order.
const MOST_WAITING: usize = 60 * 1024;

/// The room in which the text of a stream's lines waits: some 1.4 megabytes, made once.
#[derive(Drop)]
pub struct StreamRoom {
    text: Vec<u8>,
    ghost empty: { text.items ≡ [] },
    ghost large: { 1433600 ≤ vec_capacity text },
}

impl StreamRoom {
    /// Room with nothing in it.
    pub fn new(alloc: Global) -> Result<StreamRoom, NoMemory> {
        Ok(StreamRoom {
            text: Vec::with_capacity(alloc, MOST_LINES * LINE_ROOM)?,
        })
    }
}

/// Lines that go to a writer as their text, as `print_trace` spells it. The text waits in a `StreamRoom`. It is written
/// before an order if some 64 KB wait, and when the stream is told to store lines or to finish. At `Refuse` it is
/// written before an order only if there is no room for its lines, and there is none once a write failed, until one
/// succeeds. What was written is noted when all is, and the writer could hand it on.
///
/// Contracts see all lines so far, those that were noted, what the writer holds, the text that waits, the room for more
/// lines, what it does when a write fails, and whether it is broken: then it goes on without its writer, and writes
/// nothing more.
#[derive(Drop)]
pub struct Streamed<W: Write> {
    past: Past<Line>,
    // Lines at the front, whose text the writer has.
    noted: Past<Line>,
    // The text of lines, as far as it isn't written.
    unsent: Vec<u8>,
    // For how many more lines there is room behind it: at `Refuse` none once a write failed, until one succeeds.
    room: usize,
    writer: W,
    broken: bool,
    manner: WhenWriterFails,
}

impl<W: Write> Model for Streamed<W> {
    ghost use Rattle.std.specs.Prelude.{◌≤◌, ◌+◌, ◌*◌, length, vec_capacity};
    ghost use Rattle.fl_stream.specs.Streams.{Stream, IsStreamed};

    ghost Value = { Stream };

    ghost view = { λ s. record {
      lines = s.past.items;
      noted = s.noted.items;
      held = W.contents s.writer;
      unsent = s.unsent.items;
      room = s.room;
      broken = s.broken;
      manner = s.manner;
    } };

    ghost invariant = { λ s.
        IsStreamed W.contents (W.contents s.writer) s.unsent.items s.broken s.manner s.past.items
        s.noted.items
        × (length s.unsent.items + 700 * s.room ≤ vec_capacity s.unsent)
        × (1433600 ≤ vec_capacity s.unsent) };
}

impl<W: Write> Streamed<W> {
    /// No lines, before a writer that has nothing yet. The room is made here, and never grows.
    pub fn new(alloc: Global, writer: W, manner: WhenWriterFails) -> Result<Streamed<W>, NoMemory>
    where
        W: Drop,
        requires blank { IsBlank (W.contents writer) }
        ensures { IfOk result (λ stream. stream ≡ record {
          lines = [];
          noted = [];
          held = W.contents writer;
          unsent = [];
          room = 2048;
          broken = false;
          manner = manner;
        }) }
    {
        let room = StreamRoom::new(alloc)?;
        Ok(Streamed::behind(room, writer, &Past::new(), manner))
    }

    /// These lines, before a writer that has their text and nothing more. Lines that come are written behind it. It
    /// takes no memory.
    #[tactic(auto, using(crate::proofs::Streaming::all_there))]
    pub fn behind(
        room: StreamRoom,
        writer: W,
        base: &Past<Line>,
        manner: WhenWriterFails,
    ) -> Streamed<W>
        requires there { IsAs (W.contents writer) (text_of base.now.items) }
        ensures { result ≡ record {
          lines = base.now.items;
          noted = base.now.items;
          held = W.contents writer;
          unsent = [];
          room = 2048;
          broken = false;
          manner = manner;
        } }
    {
        Streamed::with_text(room, writer, base, manner)
    }

    /// These lines, before a writer to which their text was written and nothing more. Lines that come are written
    /// behind it. It takes no memory.
    #[tactic(auto, using(crate::proofs::Streaming::starts_written))]
    pub fn with_text(
        room: StreamRoom,
        writer: W,
        base: &Past<Line>,
        manner: WhenWriterFails,
    ) -> Streamed<W>
        requires there { Wrote W.contents (W.contents writer) (text_of base.now.items) }
        ensures { result ≡ record {
          lines = base.now.items;
          noted = base.now.items;
          held = W.contents writer;
          unsent = [];
          room = 2048;
          broken = false;
          manner = manner;
        } }
    {
        let StreamRoom { text } = room;
        Streamed {
            past: base.same(),
            noted: base.same(),
            unsent: text,
            room: MOST_LINES,
            writer,
            broken: false,
            manner,
        }
    }

    /// Writes what waits, and says whether the writer holds the text of all lines. They are noted then. A broken stream
    /// writes nothing.
    pub fn finish(&mut self) -> bool
        ensures lines { self.new.lines ≡ self.old.lines }
        ensures front { IsPrefix self.old.noted self.new.noted }
        ensures noted { IsTrue result → self.new.noted ≡ self.new.lines }
        ensures manner { self.new.manner ≡ self.old.manner }
        ensures all { IsTrue result → Wrote W.contents self.new.held (text_of self.new.lines) }
        ensures begun { IsBegun W.contents self.new.held self.new.lines }
        ensures stays { IsTrue self.old.broken → IsTrue self.new.broken }
        ensures silent { IsTrue self.old.broken → Keeps self.old.held self.new.held }
        ensures refuses { self.new.manner ≡ manner.Refuse → self.new.unsent ≢ [] → self.new.room ≡ 0 }
    {
        self.write_waiting();
        let flushed = self.flush_writer();
        let written = self.is_whole() && flushed;
        if written {
            self.note();
        }
        written
    }

    /// All lines.
    pub fn lines(&self) -> Past<Line>
        ensures { result.items ≡ self.now.lines }
    {
        self.past.same()
    }

    /// The writer.
    pub fn writer(&self) -> &W
        ensures { W.contents result.now ≡ self.now.held }
    {
        &self.writer
    }

    /// Whether the writer holds the text of all lines.
    #[tactic(auto, using(crate::proofs::Streaming::begun, crate::proofs::Streaming::noted_front))]
    pub fn is_whole(&self) -> bool
        ensures value { IsTrue result ↔ (self.now.broken ≡ false) × (self.now.unsent ≡ []) }
        ensures front { IsPrefix self.now.noted self.now.lines }
        ensures all { IsTrue result → Wrote W.contents self.now.held (text_of self.now.lines) }
        ensures begun { IsBegun W.contents self.now.held self.now.lines }
    {
        !self.broken && self.unsent.is_empty()
    }

    /// Whether a write failed and it goes on without its writer. If not, all that isn't written waits.
    pub fn is_broken(&self) -> bool
        ensures value { result ≡ self.now.broken }
        ensures kept { let s = self.now in IsStreamed W.contents s.held s.unsent s.broken s.manner s.lines s.noted }
    {
        self.broken
    }

    /// The writer. It holds the text of a beginning of all lines, and of those that were noted at least. These are all
    /// lines after a `finish` that said so.
    #[tactic(auto, using(crate::proofs::Streaming::begun, crate::proofs::Streaming::noted_there))]
    pub fn into_writer(self) -> W
        ensures held { W.contents result ≡ self.held }
        ensures begun { IsBegun W.contents (W.contents result) self.lines }
        ensures there { HoldsText W.contents (W.contents result) self.noted }
    {
        let Streamed {
            past: _,
            noted: _,
            unsent: _,
            room: _,
            writer,
            broken: _,
            manner: _,
        } = self;
        writer
    }

    /// The writer, as `into_writer` gives it, and the room, with nothing in it.
    #[tactic(auto, using(crate::proofs::Streaming::begun, crate::proofs::Streaming::noted_there))]
    pub fn into_parts(self) -> (W, StreamRoom)
        ensures held { W.contents result.0 ≡ self.held }
        ensures begun { IsBegun W.contents (W.contents result.0) self.lines }
        ensures there { HoldsText W.contents (W.contents result.0) self.noted }
    {
        let Streamed {
            past: _,
            noted: _,
            unsent,
            room: _,
            writer,
            broken: _,
            manner: _,
        } = self;
        let mut text = unsent;
        text.clear();
        (writer, StreamRoom { text })
    }

    /// A line more, whose text waits.
    pub fn push(&mut self, line: &Line)
        requires room { 0 < self.old.room }
        ensures lines { self.new.lines ≡ self.old.lines ++ line.now ∷ [] }
        ensures noted { self.new.noted ≡ self.old.noted }
        ensures room { self.old.room ≤ self.new.room + 1 }
        ensures held { self.new.held ≡ self.old.held }
        ensures broken { self.new.broken ≡ self.old.broken }
        ensures manner { self.new.manner ≡ self.old.manner }
    {
        self.past = self.past.and(line);
        if !self.broken {
            push_line(&mut self.unsent, line);
            self.room -= 1;
        }
    }

    // Writes what waits. If a write fails, what is left waits on, or is lost, by its manner.
    fn write_waiting(&mut self)
        ensures lines { self.new.lines ≡ self.old.lines }
        ensures noted { self.new.noted ≡ self.old.noted }
        ensures manner { self.new.manner ≡ self.old.manner }
        ensures goes_on { self.new.manner ≡ manner.GoOn → 2048 ≤ self.new.room }
        ensures room { self.old.manner ≢ manner.Refuse → self.old.room ≤ self.new.room }
        ensures refuses { self.new.manner ≡ manner.Refuse → self.new.unsent ≢ [] → self.new.room ≡ 0 }
        ensures empty { self.new.manner ≡ manner.Refuse → (self.new.room ≡ 0) ⊎ (2048 ≤ self.new.room) }
        ensures stays { IsTrue self.old.broken → IsTrue self.new.broken }
        ensures silent { IsTrue self.old.broken → Keeps self.old.held self.new.held }
    {
        let sent = self.send();
        if !sent && self.manner == WhenWriterFails::Refuse {
            self.room = 0;
            return;
        }
        if !sent && self.manner == WhenWriterFails::GoOn {
            self.give_up();
        }
        self.count_room();
    }

    #[tactic(auto, using(crate::proofs::Streaming::kept_broken))]
    fn send(&mut self) -> bool
        ensures lines { self.new.lines ≡ self.old.lines }
        ensures noted { self.new.noted ≡ self.old.noted }
        ensures manner { self.new.manner ≡ self.old.manner }
        ensures broken { self.new.broken ≡ self.old.broken }
        ensures room { self.new.room ≡ self.old.room }
        ensures all { IsTrue result → self.new.unsent ≡ [] }
        ensures silent { IsTrue self.old.broken → Keeps self.old.held self.new.held }
    {
        send(&mut self.writer, &mut self.unsent)
    }

    #[tactic(auto, using(crate::proofs::Streaming::kept_on))]
    fn flush_writer(&mut self) -> bool
        ensures lines { self.new.lines ≡ self.old.lines }
        ensures noted { self.new.noted ≡ self.old.noted }
        ensures manner { self.new.manner ≡ self.old.manner }
        ensures broken { self.new.broken ≡ self.old.broken }
        ensures unsent { self.new.unsent ≡ self.old.unsent }
        ensures room { self.new.room ≡ self.old.room }
        ensures held { Keeps self.old.held self.new.held }
    {
        self.writer.flush().is_ok()
    }

    // Notes all lines as written.
    #[tactic(auto, using(crate::proofs::Streaming::all_noted, crate::proofs::Streaming::noted_front))]
    fn note(&mut self)
        requires whole { (self.old.broken ≡ false) × (self.old.unsent ≡ []) }
        ensures lines { self.new.lines ≡ self.old.lines }
        ensures front { IsPrefix self.old.noted self.new.noted }
        ensures noted { self.new.noted ≡ self.new.lines }
        ensures manner { self.new.manner ≡ self.old.manner }
        ensures broken { self.new.broken ≡ self.old.broken }
        ensures unsent { self.new.unsent ≡ self.old.unsent }
        ensures held { self.new.held ≡ self.old.held }
    {
        self.noted = self.past.same();
    }

    // Nothing more is written, and what waits is lost.
    #[tactic(auto, using(crate::proofs::Streaming::breaks))]
    fn give_up(&mut self)
        requires { self.old.manner ≡ manner.GoOn }
        ensures lines { self.new.lines ≡ self.old.lines }
        ensures noted { self.new.noted ≡ self.old.noted }
        ensures manner { self.new.manner ≡ self.old.manner }
        ensures broken { IsTrue self.new.broken }
        ensures none { self.new.unsent ≡ [] }
        ensures room { self.new.room ≡ self.old.room }
        ensures held { self.new.held ≡ self.old.held }
    {
        self.broken = true;
        self.unsent.clear();
    }

    // Finds for how many more lines there is room.
    fn count_room(&mut self)
        ensures lines { self.new.lines ≡ self.old.lines }
        ensures noted { self.new.noted ≡ self.old.noted }
        ensures manner { self.new.manner ≡ self.old.manner }
        ensures broken { self.new.broken ≡ self.old.broken }
        ensures unsent { self.new.unsent ≡ self.old.unsent }
        ensures held { self.new.held ≡ self.old.held }
        ensures all { self.old.unsent ≡ [] → 2048 ≤ self.new.room }
        ensures room { self.old.room ≤ self.new.room }
    {
        self.room = (self.unsent.capacity() - self.unsent.len()) / LINE_ROOM;
    }
}

impl<W: Write> Journal for Streamed<W> {
    ghost lines = { λ s. s.lines };

    ghost stored = { λ s. stored_by s.manner s.lines s.noted };

    ghost room = { λ s. s.room };

    ghost piece = { λ s. s.lines };

    ghost draft = { λ _. [] };

    // If it goes on without its writer, no order is refused. At `Refuse` each batch of orders is stored before its
    // replies leave, so nothing waits unless a write failed.
    fn reserve(&mut self, count: usize) -> Result<(), NoMemory>
        requires few { count ≤ 2048 }
        ensures lines { self.new.lines ≡ self.old.lines }
        ensures noted { self.new.noted ≡ self.old.noted }
        ensures manner { self.new.manner ≡ self.old.manner }
        ensures room { OnOk result (count ≤ self.new.room) }
        ensures succeeds { count ≤ self.old.room → IsOk result }
        ensures goes_on { self.old.manner ≡ manner.GoOn → IsOk result }
        ensures refuses { self.old.manner ≡ manner.Refuse → self.old.room < count
            → OnOk result (self.new.unsent ≡ []) }
        ensures empty { self.old.manner ≡ manner.Refuse → OnErr result (self.new.room ≡ 0) }
        ensures silent { IsTrue self.old.broken → Keeps self.old.held self.new.held }
    {
        let waits = self.unsent.len() >= MOST_WAITING && self.manner != WhenWriterFails::Refuse;
        if self.room < count || waits {
            self.write_waiting();
        }
        if self.room < count {
            return Err(NoMemory);
        }
        Ok(())
    }

    fn push_asked(&mut self, worker: u32, order: &Order)
        requires room { 0 < self.old.room }
        ensures lines { self.new.lines ≡ self.old.lines ++ line.Asked worker order.now ∷ [] }
        ensures noted { self.new.noted ≡ self.old.noted }
        ensures stored { IsPrefix (stored_by self.old.manner self.old.lines self.old.noted)
            (stored_by self.new.manner self.new.lines self.new.noted) }
        ensures room { self.old.room ≤ self.new.room + 1 }
        ensures held { self.new.held ≡ self.old.held }
        ensures broken { self.new.broken ≡ self.old.broken }
        ensures manner { self.new.manner ≡ self.old.manner }
    {
        self.push(&Line::Asked {
            worker,
            order: *order,
        });
    }

    fn push_told(&mut self, told: &Told)
        requires room { 0 < self.old.room }
        ensures lines { self.new.lines ≡ self.old.lines ++ line.Told told.now ∷ [] }
        ensures noted { self.new.noted ≡ self.old.noted }
        ensures stored { IsPrefix (stored_by self.old.manner self.old.lines self.old.noted)
            (stored_by self.new.manner self.new.lines self.new.noted) }
        ensures room { self.old.room ≤ self.new.room + 1 }
        ensures held { self.new.held ≡ self.old.held }
        ensures broken { self.new.broken ≡ self.old.broken }
        ensures manner { self.new.manner ≡ self.old.manner }
    {
        self.push(&Line::Told(*told));
    }

    // It says whether all is written. If it goes on without its writer, nobody wants lines stored, and it says true.
    fn store_all(&mut self) -> bool
        ensures lines { self.new.lines ≡ self.old.lines }
        ensures front { IsPrefix self.old.noted self.new.noted }
        ensures noted { self.new.manner ≢ manner.GoOn → IsTrue result → self.new.noted ≡ self.new.lines }
        ensures goes_on { self.new.manner ≡ manner.GoOn → IsTrue result }
        ensures manner { self.new.manner ≡ self.old.manner }
        ensures stays { IsTrue self.old.broken → IsTrue self.new.broken }
        ensures silent { IsTrue self.old.broken → Keeps self.old.held self.new.held }
        ensures refuses { self.new.manner ≡ manner.Refuse → self.new.unsent ≢ [] → self.new.room ≡ 0 }
    {
        self.finish() || self.manner == WhenWriterFails::GoOn
    }

    // The same, but if it goes on without its writer, nothing is written.
    fn store_if_due(&mut self) -> bool
        ensures lines { self.new.lines ≡ self.old.lines }
        ensures front { IsPrefix self.old.noted self.new.noted }
        ensures noted { self.new.manner ≢ manner.GoOn → IsTrue result → self.new.noted ≡ self.new.lines }
        ensures goes_on { self.new.manner ≡ manner.GoOn → IsTrue result × (self.new ≡ self.old) }
        ensures manner { self.new.manner ≡ self.old.manner }
        ensures stays { IsTrue self.old.broken → IsTrue self.new.broken }
        ensures silent { IsTrue self.old.broken → Keeps self.old.held self.new.held }
        ensures refuses { self.new.manner ≡ manner.Refuse → self.new.unsent ≢ [] → self.new.room ≡ 0 }
    {
        self.manner == WhenWriterFails::GoOn || self.finish()
    }
}
