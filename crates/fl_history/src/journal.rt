//! What keeps the lines of a desk, in memory or elsewhere.

ghost use Rattle.std.specs.Prelude.{◌≡◌, ℕ, ◌+◌, ◌≤◌, ◌<◌, ◌++◌, ◌∷◌, [], Bool, false, true, List, OnOk, IsOk, IsTrue};
ghost use Rattle.std.specs.Prelude.{IfSome};
ghost use mathlib.Core.List.{IsPrefix};
ghost use Rattle.fl_history.specs.Place.{place_of};
ghost use Rattle.fl_history.specs.declared.history.Line.{Line as Entry};
ghost use Rattle.fl_history.specs.declared.history.Line.TheVariants as line;

use crate::lines::Lines;
use fl_order::{NoMemory, Order, StateLine, Told};

/// Where the lines of a desk go, in the order of time. A journal may begin a new *piece*: the lines that come then go
/// behind a head, which tells what is there after all lines before.
pub trait Journal {
    /// All lines so far, wherever they are.
    ghost lines: { Self → List Entry };

    /// Those at their front that are stored: what the journal is there for has them. If it stores none for anybody,
    /// these are all lines.
    ghost stored: { Self → List Entry };

    /// For how many more lines there is room.
    ghost room: { Self → ℕ };

    /// The lines that stand where the next ones go: all lines, or those of the piece at hand.
    ghost piece: { Self → List Entry };

    /// The lines of the head that is told for the next piece.
    ghost draft: { Self → List Entry };

    /// Whether `store_all` always stores all: each line is stored as it comes, or nobody wants any stored.
    ghost infallible: { Bool } = { false };

    /// Makes room for so many lines more, at most 2,048. A refusal changes no line, and doesn't come if there is
    /// room.
    fn reserve(&mut self, count: usize) -> Result<(), NoMemory>
        requires few { count ≤ 2048 }
        ensures lines { lines self.new ≡ lines self.old }
        ensures stored { IsPrefix (stored self.old) (stored self.new) }
        ensures piece { piece self.new ≡ piece self.old }
        ensures room { OnOk result (count ≤ room self.new) }
        ensures succeeds { count ≤ room self.old → IsOk result };

    /// An order of a worker more.
    fn push_asked(&mut self, worker: u32, order: &Order)
        requires room { 0 < room self.old }
        ensures lines { lines self.new ≡ lines self.old ++ line.Asked worker order.now ∷ [] }
        ensures piece { piece self.new ≡ piece self.old ++ line.Asked worker order.now ∷ [] }
        ensures stored { IsPrefix (stored self.old) (stored self.new) }
        ensures room { room self.old ≤ room self.new + 1 };

    /// A reply more.
    fn push_told(&mut self, told: &Told)
        requires room { 0 < room self.old }
        ensures lines { lines self.new ≡ lines self.old ++ line.Told told.now ∷ [] }
        ensures piece { piece self.new ≡ piece self.old ++ line.Told told.now ∷ [] }
        ensures stored { IsPrefix (stored self.old) (stored self.new) }
        ensures room { room self.old ≤ room self.new + 1 };

    /// Stores all lines, and says whether it did. No line changes.
    fn store_all(&mut self) -> bool
        ensures lines { lines self.new ≡ lines self.old }
        ensures piece { piece self.new ≡ piece self.old }
        ensures stored { IsPrefix (stored self.old) (stored self.new) }
        ensures all { IsTrue result → stored self.new ≡ lines self.new }
        ensures infallible { IsTrue infallible → IsTrue result };

    /// Stores all lines if they must be stored before replies leave, and says whether that is so: they are stored, or
    /// need not be. No line changes.
    fn store_if_due(&mut self) -> bool
        ensures lines { lines self.new ≡ lines self.old }
        ensures piece { piece self.new ≡ piece self.old }
        ensures stored { IsPrefix (stored self.old) (stored self.new) }
        ensures all { IsTrue result → stored self.new ≡ lines self.new };

    /// Whether a new piece is due, and how many orders and replies stand before it then: 2^64 - 1, if there are more.
    fn due(&self) -> Option<u64>
        ensures { IfSome result (λ n. n ≡ (place_of (lines self.now)).lines) }
    {
        None
    }

    /// Begins a head for the next piece, and says whether it could.
    fn begin_piece(&mut self) -> bool
        ensures lines { lines self.new ≡ lines self.old }
        ensures piece { piece self.new ≡ piece self.old }
        ensures stored { IsPrefix (stored self.old) (stored self.new) }
        ensures room { room self.old ≤ room self.new }
        ensures draft { result ≡ true → draft self.new ≡ [] }
    {
        false
    }

    /// A line more of this head. Says whether it was taken.
    fn push_state(&mut self, state: &StateLine) -> bool
        ensures lines { lines self.new ≡ lines self.old }
        ensures piece { piece self.new ≡ piece self.old }
        ensures stored { stored self.new ≡ stored self.old }
        ensures room { room self.new ≡ room self.old }
        ensures draft { result ≡ true → draft self.new ≡ draft self.old ++ line.State state.now ∷ [] }
        ensures refused { result ≡ false → draft self.new ≡ draft self.old }
    {
        let _ = state;
        false
    }

    /// Ends this head. If it is whole, the next lines go behind it, unless this says no: then they go where the last
    /// ones went.
    fn end_piece(&mut self, whole: bool) -> bool
        ensures lines { lines self.new ≡ lines self.old }
        ensures stored { IsPrefix (stored self.old) (stored self.new) }
        ensures room { room self.old ≤ room self.new }
        ensures whole { result ≡ true → whole ≡ true }
        ensures turned { result ≡ true → piece self.new ≡ draft self.old }
        ensures stays { result ≡ false → piece self.new ≡ piece self.old }
    {
        let _ = whole;
        false
    }
}

/// Lines that stay in memory.
impl Journal for Lines {
    ghost lines = { λ l. l.items };

    ghost stored = { λ l. l.items };

    ghost room = { λ l. l.room };

    ghost piece = { λ l. l.items };

    ghost draft = { λ _. [] };

    ghost infallible = { true };

    #[tactic(auto, using(crate::proofs::Prefixes::of_itself))]
    fn reserve(&mut self, count: usize) -> Result<(), NoMemory> {
        Ok(Lines::reserve(self, count)?)
    }

    #[tactic(auto, using(crate::proofs::Prefixes::of_one_more))]
    fn push_asked(&mut self, worker: u32, order: &Order) {
        Lines::push_asked(self, worker, order);
    }

    #[tactic(auto, using(crate::proofs::Prefixes::of_one_more))]
    fn push_told(&mut self, told: &Told) {
        Lines::push_told(self, told);
    }

    #[tactic(auto, using(crate::proofs::Prefixes::of_itself))]
    fn store_all(&mut self) -> bool {
        true
    }

    #[tactic(auto, using(crate::proofs::Prefixes::of_itself))]
    fn store_if_due(&mut self) -> bool {
        true
    }
}
