//! Lines that go to writers in pieces.

ghost use Rattle.std.specs.Prelude.{◌≡◌, ◌≤◌, ◌<◌, ◌+◌, ◌++◌, ◌∷◌, [], min, true, IfOk, IsOk};
ghost use mathlib.Core.List.{IsPrefix};
ghost use Rattle.fl_history.specs.Place.{place_of};
ghost use Rattle.fl_stream.specs.Streams.{IsAs};
ghost use Rattle.fl_trace.specs.Text.{text_of};
ghost use Rattle.fl_stream.specs.Pieced.{behind_head, stored_of};

use crate::ahead::AheadLines;
use crate::pieces::Pieces;
use crate::streamed::StreamRoom;
use fl_history::{Journal, Line, Past, Place};
use fl_order::{NoMemory, Order, StateLine, Told};
use std::io::Write;
use std::marker::Model;
use std::mem;

// By so many last orders and replies messages that are sent again are known. A piece with fewer is over only if its
// file was cut: otherwise these stand in the last two pieces.
const LEAST_LINES: u64 = 65_536;

/// Lines that go to a writer as their text before replies leave, in pieces: once one is due, the next begins with a
/// head, before a writer of its own. The first piece has no head but that of its lines.
#[derive(Drop)]
pub struct PieceLines<T: Write, P: Pieces<T>> {
    lines: Past<Line>,
    // Where all lines end.
    place: Place,
    // So many orders and replies came since the piece at hand began.
    since: u64,
    // The lines of the piece at hand.
    here: AheadLines<T>,
    before: Past<Line>,
    head: Past<Line>,
    // The head of the next piece, while it is told, and the room for it.
    draft: Option<AheadLines<T>>,
    spare: Option<StreamRoom>,
    pieces: P,
}

impl<T: Write, P: Pieces<T>> Model for PieceLines<T, P> {
    ghost use Rattle.std.specs.Prelude.{◌≡◌};
    ghost use mathlib.Core.List.{IsPrefix};
    ghost use Rattle.fl_history.specs.Place.{place_of};
    ghost use Rattle.fl_stream.specs.Pieced.{Pieced, behind_head, draft_lines};

    ghost Value = { Pieced };

    ghost view = { λ p. record {
      lines = p.lines.items;
      here = p.here;
      before = p.before.items;
      head = p.head.items;
      draft = draft_lines p.draft;
    } };

    ghost invariant = { λ p. (p.place ≡ place_of p.lines.items)
        × (p.lines.items ≡ behind_head p.before.items p.head.items p.here.lines)
        × IsPrefix p.head.items p.here.lines };
}

impl<T: Write + Drop, P: Pieces<T> + Drop> PieceLines<T, P> {
    /// These lines, which are one piece and end at this place, before a writer that has their text and nothing more.
    /// There is room for the text of its lines, and for that of another piece's head. So many of the lines are orders
    /// and replies; that there are 65,536 is as good as any greater number.
    pub fn behind(
        room: StreamRoom,
        spare: StreamRoom,
        writer: T,
        base: &Past<Line>,
        place: Place,
        since: u64,
        pieces: P,
    ) -> PieceLines<T, P>
        requires there { IsAs (T.contents writer) (text_of base.now.items) }
        requires place { place ≡ place_of base.now.items }
        ensures lines { result.lines ≡ base.now.items }
        ensures piece { result.here.lines ≡ base.now.items }
        ensures room { result.here.room ≡ 2048 }
    {
        PieceLines {
            lines: base.same(),
            place,
            since,
            here: AheadLines::behind(room, writer, base),
            before: Past::new(),
            head: Past::new(),
            draft: None,
            spare: Some(spare),
            pieces,
        }
    }

    /// The stream of the piece at hand.
    pub fn into_here(self) -> AheadLines<T>
        ensures here { result ≡ self.here }
        ensures all { self.lines ≡ behind_head self.before self.head self.here.lines }
    {
        let PieceLines { here, .. } = self;
        here
    }

    // Whether the piece at hand has so many orders and replies that none before them need be known.
    fn has_enough(&self) -> bool {
        self.since >= LEAST_LINES
    }

    // A line more, of an order or a reply.
    fn push(&mut self, line: &Line)
        requires room { 0 < self.old.here.room }
        ensures lines { self.new.lines ≡ self.old.lines ++ line.now ∷ [] }
        ensures piece { self.new.here.lines ≡ self.old.here.lines ++ line.now ∷ [] }
        ensures room { self.old.here.room ≤ self.new.here.room + 1 }
        ensures stored { stored_of self.new ≡ stored_of self.old }
    {
        self.lines = self.lines.and(line);
        self.place = self.place.and(line);
        self.since = self.since.saturating_add(1);
        self.here.push(line);
    }

    // From now on the piece counts whose head this stream has.
    fn turn_to(&mut self, next: AheadLines<T>)
        requires front { IsPrefix self.old.here.noted self.old.here.lines }
        requires written { next.noted ≡ next.lines }
        requires room { next.room ≡ 2048 }
        ensures lines { self.new.lines ≡ self.old.lines }
        ensures stored { IsPrefix (stored_of self.old) (stored_of self.new) }
        ensures here { self.new.here ≡ next }
    {
        self.before = self.lines.same();
        self.head = next.lines();
        self.since = 0;
        let last = mem::replace(&mut self.here, next);
        let (_, room) = last.into_parts();
        self.spare = Some(room);
    }
}

impl<T: Write + Drop, P: Pieces<T> + Drop> Journal for PieceLines<T, P> {
    ghost lines = { λ p. p.lines };

    ghost stored = { stored_of };

    ghost room = { λ p. min 2048 p.here.room };

    ghost piece = { λ p. p.here.lines };

    ghost draft = { λ p. p.draft };

    fn reserve(&mut self, count: usize) -> Result<(), NoMemory> {
        self.here.reserve(count)
    }

    fn push_asked(&mut self, worker: u32, order: &Order) {
        self.push(&Line::Asked {
            worker,
            order: *order,
        });
    }

    fn push_told(&mut self, told: &Told) {
        self.push(&Line::Told(*told));
    }

    fn store_all(&mut self) -> bool {
        self.here.store_all()
    }

    fn store_if_due(&mut self) -> bool {
        self.here.store_if_due()
    }

    fn due(&self) -> Option<u64> {
        if self.pieces.is_due(self.here.writer(), self.has_enough()) {
            Some(self.place.lines)
        } else {
            None
        }
    }

    fn begin_piece(&mut self) -> bool {
        let Some(room) = self.spare.take() else {
            return false;
        };
        let enough = self.has_enough();
        let Some(writer) = self.pieces.begin(self.here.writer(), enough) else {
            self.spare = Some(room);
            return false;
        };
        self.draft = Some(AheadLines::behind(room, writer, &Past::new()));
        true
    }

    fn push_state(&mut self, state: &StateLine) -> bool {
        match &mut self.draft {
            Some(draft) => draft.add_state(state),
            None => false,
        }
    }

    fn end_piece(&mut self, whole: bool) -> bool {
        let Some(draft) = self.draft.take() else {
            return false;
        };
        let whole = whole && self.here.is_whole();
        match next_piece(&mut self.pieces, draft, whole) {
            Ok(next) => {
                self.turn_to(next);
                true
            }
            Err(room) => {
                self.spare = Some(room);
                false
            }
        }
    }
}

// The stream of the next piece, if its head is whole, its text could be written, and it counts from now on; or the room
// that it had.
fn next_piece<T: Write + Drop, P: Pieces<T>>(
    pieces: &mut P,
    mut draft: AheadLines<T>,
    whole: bool,
) -> Result<AheadLines<T>, StreamRoom>
    ensures lines { IfOk result (λ next. next.lines ≡ draft.lines) }
    ensures noted { IfOk result (λ next. next.noted ≡ draft.lines) }
    ensures room { IfOk result (λ next. next.room ≡ 2048) }
    ensures whole { IsOk result → whole ≡ true }
{
    let written = whole && draft.finish();
    let head = draft.lines();
    let (mut writer, room) = draft.into_parts();
    if !written || !pieces.end(&mut writer) {
        pieces.give_up();
        return Err(room);
    }
    Ok(AheadLines::with_text(room, writer, &head))
}
