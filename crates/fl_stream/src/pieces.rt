//! Where the pieces of a trace go.

ghost use Rattle.std.specs.Prelude.{◌≡◌, IfSome};
ghost use Rattle.fl_stream.specs.Streams.{IsBlank};

use std::io::Write;

/// Where the pieces of a trace go, one after another.
pub trait Pieces<T: Write> {
    /// Whether a new piece is due behind the one that goes to this writer. It has lines enough, or not: 65,536 orders
    /// and replies.
    fn is_due(&self, here: &T, enough: bool) -> bool;

    /// A writer for the next piece, which has nothing yet, behind the one that goes to this writer; none if there can't
    /// be one now.
    fn begin(&mut self, here: &T, enough: bool) -> Option<T>
        ensures { IfSome result (λ writer. IsBlank (T.contents writer)) };

    /// The head of the next piece is whole: from now on this piece counts, and goes to this writer. Says whether it
    /// could be done.
    fn end(&mut self, writer: &mut T) -> bool
        ensures { T.contents writer.new ≡ T.contents writer.old };

    /// The next piece was begun, and doesn't count: its head can't be written, or `end` said no.
    fn give_up(&mut self);
}
