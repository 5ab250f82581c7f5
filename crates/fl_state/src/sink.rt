//! Where the parts of a state go.

ghost use Rattle.std.specs.Prelude.{◌≡◌, Bool, IsTrue, List, [], ◌∷◌, ◌++◌, true, false};
ghost use Rattle.fl_order.specs.declared.state_part.StatePart.{StatePart};

use fl_order::StatePart;

/// Where the parts of a state go, one after another.
pub trait StateSink {
    /// The parts that it was told.
    ghost told: { Self → List StatePart };

    /// Whether it takes each part.
    ghost infallible: { Bool } = { false };

    /// What no part changes.
    ghost Kept: { Type 0 } = { Unit {0} };

    /// What no part changes of it.
    ghost kept: { Self → Kept };

    /// One part more. Says whether it was taken.
    fn tell(&mut self, part: &StatePart) -> bool
        ensures told { result ≡ true → told self.new ≡ told self.old ++ part.now ∷ [] }
        ensures refused { result ≡ false → told self.new ≡ told self.old }
        ensures kept { kept self.new ≡ kept self.old }
        ensures infallible { IsTrue infallible → result ≡ true };
}
