//! The cutting of a stream of bytes into whole messages.

ghost use Rattle.std.specs.Prelude.{◌≡◌};
ghost use Rattle.fl_wire.specs.Cut.{first_step};

use crate::frame::Frame;
use crate::layout::u32_at;

/// What stands first in the bytes of a stream.
#[derive(Drop)]
pub enum Step<'a> {
    /// A length that no message has, outside 40 to 8192.
    Bad(u32),
    /// A beginning of a message, or nothing: more has to come.
    More,
    /// A whole message. Bytes may follow it.
    Whole(Frame<'a>),
}

/// What stands first in these bytes.
pub fn next_frame(bytes: &[u8]) -> Step<'_>
    ensures { result ≡ first_step bytes.now }
{
    if bytes.len() < 4 {
        return Step::More;
    }
    let len = u32_at(bytes, 0);
    if len < 40 || len > 8192 {
        return Step::Bad(len);
    }
    let len = len as usize;
    if bytes.len() < len {
        return Step::More;
    }
    Step::Whole(Frame {
        bytes: &bytes[..len],
    })
}
