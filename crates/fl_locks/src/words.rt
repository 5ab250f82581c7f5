//! The words for the class and the kind of a lock.

ghost use Rattle.std.specs.Prelude.{◌≡◌};
ghost use Rattle.fl_locks.specs.Words.{class_word, kind_word};

use fl_marks::{Class, Kind};

/// `POSIX` or `FLOCK`.
pub(crate) fn class_word(class: Class) -> &'static str
    ensures { result.now ≡ class_word class }
{
    match class {
        Class::Record => "POSIX",
        Class::Flock => "FLOCK",
    }
}

/// `READ` or `WRITE`.
pub(crate) fn kind_word(kind: Kind) -> &'static str
    ensures { result.now ≡ kind_word kind }
{
    match kind {
        Kind::Read => "READ",
        Kind::Write => "WRITE",
    }
}
