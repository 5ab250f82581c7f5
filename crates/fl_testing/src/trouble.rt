//! Which calls of a writer fail, and how.

ghost use Rattle.std.specs.Prelude.{◌≡◌, ◌↔◌, ◌≤◌, ◌-◌, ◌^◌, true, false, IsTrue, IsNone};
ghost use Rattle.fl_testing.specs.Trouble.{Meets};

use std::io::ErrorKind;

/// A writer whose calls fail from one on, or one of them alone.
#[derive(Clone, Copy, Debug)]
pub struct Trouble {
    /// How many calls come before the first that fails.
    pub after: usize,
    /// No other call fails.
    pub once: bool,
    /// How they fail. If nothing is said, a write doesn't fail and takes no byte.
    pub kind: Option<ErrorKind>,
}

impl Trouble {
    /// No call fails.
    pub fn none() -> Trouble
        ensures { (result.after ≡ 2 ^ 64 - 1) × (result.once ≡ true) × IsNone result.kind }
    {
        Trouble::once(usize::MAX, None)
    }

    /// All calls fail behind so many, as this says.
    pub fn behind(after: usize, kind: Option<ErrorKind>) -> Trouble
        ensures { (result.after ≡ after) × (result.once ≡ false) × (result.kind ≡ kind) }
    {
        Trouble {
            after,
            once: false,
            kind,
        }
    }

    /// The one call behind so many fails, as this says.
    pub fn once(after: usize, kind: Option<ErrorKind>) -> Trouble
        ensures { (result.after ≡ after) × (result.once ≡ true) × (result.kind ≡ kind) }
    {
        Trouble {
            after,
            once: true,
            kind,
        }
    }

    /// Whether the call behind so many meets it.
    pub fn meets(self, calls: usize) -> bool
        ensures { IsTrue result ↔ Meets self calls }
    {
        if self.once {
            calls == self.after
        } else {
            calls >= self.after
        }
    }
}
