//! Why a session ended before its stream did.

ghost use Rattle.std.specs.Prelude.{◌≡◌, ℕ, List, Option, None, Some, IsSome, if◌then◌else◌};
ghost use Rattle.fl_transport.specs.Ending.{EndsBy, IsEnding};
ghost use Rattle.fl_transport.specs.Handshake.{handshake_of};

use thiserror::Error;

/// Why a session ended before its stream did. Its text is the line on standard error.
#[derive(Clone, Copy, Debug, PartialEq, Eq, Error)]
pub enum Fault {
    /// The stream ended inside a message.
    #[error("cut")]
    Cut,
    /// A message says this length, which none has: it is outside 40 to 8192 bytes.
    #[error("bad length {0}")]
    BadLength(u32),
    /// A read failed.
    #[error("read failed")]
    Read,
    /// A write failed, or took nothing.
    #[error("write failed")]
    Write,
    /// Out of memory, before anything was read.
    #[error("no memory")]
    NoMemory,
    /// A worker got no reader of what the board publishes, or the history is shorter than what a worker handed in or
    /// was shown. Only a session with workers ends so.
    #[error("no reader")]
    NoReader,
    /// Lines of orders couldn't be stored, so that their replies may not leave. A session ends so only if its journal
    /// is fallible.
    #[error("trace failed")]
    Unstored,
}

impl Fault {
    /// The fault of a session, whose writer is broken or not: its reader's if there is one, else its writer's.
    pub fn told(reader: Option<Fault>, broken: bool) -> Option<Fault>
        ensures ends { (messages : List (List ℕ)) (rest : List ℕ) (left : Option (List ℕ))
            → IsEnding reader (handshake_of messages).over rest left → EndsBy result broken messages rest left }
        ensures reader { IsSome reader → result ≡ reader }
        ensures writer { reader ≡ None → result ≡ (if broken then Some Fault.Write else None) }
        ensures memory { result ≡ Some Fault.NoMemory → reader ≡ Some Fault.NoMemory }
    {
        match reader {
            None if broken => Some(Fault::Write),
            fault => fault,
        }
    }
}
