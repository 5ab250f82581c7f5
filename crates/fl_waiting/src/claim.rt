//! What is kept of a parked request: the request, and the lock that it wants.

ghost use Rattle.std.specs.Prelude.{◌≡◌, false};
ghost use Rattle.fl_waiting.specs.LockRequest.{is_malformed, stroke_of};
ghost use Rattle.fl_marks.specs.Marking.{stroke_on};

use crate::parked::Request;
use fl_marks::{Key, Mark, Range};

/// A parked request, and the lock that it wants, read off what it asks: the owner's key, the bytes, and what each of
/// them is to carry. Contracts see the request alone.
#[derive(Clone, Copy, Debug)]
pub struct Claim {
    pub request: Request,
    pub key: Key,
    pub range: Range,
    pub mark: Option<Mark>,
    pub ghost asked: { is_malformed request.ask ≡ false },
    pub ghost wanted: { stroke_on key range mark ≡ stroke_of request.node request.ask },
}
