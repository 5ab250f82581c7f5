//! What a message is answered.

ghost use Rattle.std.specs.Prelude.{◌≡◌};
ghost use Rattle.fl_transport.specs.Response.{error_to, lost, refusal_of, unserved, without_memory};

use fl_order::{Errno, OpKind, Told};
use fl_wire::{InitStep, WholeAsk};

/// What a message is answered.
#[derive(Clone, Copy, Debug)]
pub enum Response<'a> {
    /// No reply.
    Nothing,
    /// The reply to the INIT with this unique.
    Init(u64, InitStep),
    /// One reply.
    One(Told),
    /// The replies of an order, none or several.
    Replies(&'a [Told]),
    /// What a whole session answers to the message with this unique. Any other answers ENOSYS.
    Whole(u64, WholeAsk),
}

impl<'a> Response<'a> {
    /// The answer to an order of this kind for which memory ran out.
    pub fn lost(kind: OpKind, unique: u64) -> Response<'a>
        ensures { result ≡ lost kind unique }
    {
        Response::refusal(kind, unique, without_memory(kind))
    }

    // A reply that is an error, or nothing if no reply is owed to a message of this kind.
    pub(crate) fn refusal(kind: OpKind, unique: u64, e: Errno) -> Response<'a>
        ensures { result ≡ refusal_of kind unique e }
    {
        if kind.is_silent() {
            Response::Nothing
        } else {
            Response::error(unique, e)
        }
    }

    // A reply that is an error.
    pub(crate) fn error(unique: u64, e: Errno) -> Response<'a>
        ensures { result ≡ error_to unique e }
    {
        Response::One(Told {
            unique,
            result: Err(e),
        })
    }
}

/// The reply to a message of this unique that a session doesn't serve.
pub fn unserved(unique: u64) -> Told
    ensures { result ≡ unserved unique }
{
    Told {
        unique,
        result: Err(Errno::ENOSYS),
    }
}

// The error of an order for which memory ran out: an INTERRUPT may come again.
fn without_memory(kind: OpKind) -> Errno
    ensures { result ≡ without_memory kind }
{
    match kind {
        OpKind::Interrupt => Errno::EAGAIN,
        _ => Errno::ENOMEM,
    }
}
