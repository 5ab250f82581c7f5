//! The kinds of message: their numbers, their words in a trace, and the shapes of their bodies.

ghost use Rattle.std.specs.Prelude.{◌≡◌, ◌↔◌};

use crate::body::Shape;
use crate::errno::Errno;
use crate::refusal::Refusal;

/// The kinds of message that are told apart, with the numbers of `enum fuse_opcode` (Linux `fuse.h`).
#[derive(Clone, Copy, Debug, PartialEq, Eq)]
pub enum OpKind {
    /// Tells the node of a name.
    Lookup = 1,
    /// The kernel forgets lookups of a node. No reply is owed.
    Forget = 2,
    /// Tells a node's attributes.
    Getattr = 3,
    /// Makes a file, and doesn't open it.
    Mknod = 8,
    /// Makes a folder.
    Mkdir = 9,
    /// Takes a file's name away.
    Unlink = 10,
    /// Takes a folder's name away.
    Rmdir = 11,
    /// Opens a node.
    Open = 14,
    /// Closes an open file.
    Release = 18,
    /// A descriptor of an open file was closed.
    Flush = 25,
    /// Opens a session.
    Init = 26,
    /// Tells a lock that conflicts with the one asked for.
    Getlk = 31,
    /// Sets or takes away a lock, and doesn't wait.
    Setlk = 32,
    /// Sets or takes away a lock, and waits until it can be set.
    Setlkw = 33,
    /// Makes a file and opens it.
    Create = 35,
    /// Ends the wait of another order.
    Interrupt = 36,
    /// Ends a session.
    Destroy = 38,
    /// The kernel forgets several nodes. No reply is owed.
    BatchForget = 42,
}

// Each kind once.
const ALL: [OpKind; 18] = [
    OpKind::Lookup,
    OpKind::Forget,
    OpKind::Getattr,
    OpKind::Unlink,
    OpKind::Open,
    OpKind::Release,
    OpKind::Flush,
    OpKind::Init,
    OpKind::Getlk,
    OpKind::Setlk,
    OpKind::Setlkw,
    OpKind::Create,
    OpKind::Interrupt,
    OpKind::Destroy,
    OpKind::BatchForget,
    OpKind::Mknod,
    OpKind::Mkdir,
    OpKind::Rmdir,
];

impl OpKind {
    ghost use Rattle.fl_order.specs.OpKind.{opcode_for, word_for, shape_for, is_silent, refusal_for};
    ghost use Rattle.fl_order.specs.OpKind.{kind_of_opcode, kind_of_word, IsFoundBy};

    /// Its number in a message's header.
    pub fn opcode(self) -> u32
        ensures { result ≡ opcode_for self }
    {
        self as u32
    }

    /// The kind of this number; none if no kind has it.
    pub fn of_opcode(opcode: u32) -> Option<OpKind>
        ensures value { result ≡ kind_of_opcode opcode }
        ensures inverse { IsFoundBy opcode_for opcode result }
    {
        ALL.iter().find(|kind| kind.opcode() == opcode).copied()
    }

    // Its word, and the shape of its bodies or how its messages are refused.
    fn signature(self) -> (&'static str, Result<Shape, Refusal>)
        ensures word { result.0.now ≡ word_for self }
        ensures shape { result.1 ≡ shape_for self }
    {
        match self {
            OpKind::Lookup => ("lookup", Ok(Shape::Name)),
            OpKind::Forget => ("forget", Ok(Shape::Number)),
            OpKind::Getattr => ("getattr", Ok(Shape::Getattr)),
            OpKind::Unlink => ("unlink", Ok(Shape::Name)),
            OpKind::Open => ("open", Ok(Shape::Open)),
            OpKind::Release => ("release", Ok(Shape::Release)),
            OpKind::Flush => ("flush", Ok(Shape::Flush)),
            OpKind::Init => ("init", Err(Refusal::Answer(Errno::EPROTO))),
            OpKind::Getlk => ("getlk", Ok(Shape::Lock)),
            OpKind::Setlk => ("setlk", Ok(Shape::Lock)),
            OpKind::Setlkw => ("setlkw", Ok(Shape::Lock)),
            OpKind::Create => ("create", Ok(Shape::Create)),
            OpKind::Interrupt => ("interrupt", Ok(Shape::Number)),
            OpKind::Destroy => ("destroy", Err(Refusal::Destroy)),
            OpKind::BatchForget => ("batch_forget", Err(Refusal::Silent)),
            OpKind::Mknod => ("mknod", Ok(Shape::Make)),
            OpKind::Mkdir => ("mkdir", Ok(Shape::Make)),
            OpKind::Rmdir => ("rmdir", Ok(Shape::Name)),
        }
    }

    /// Its word in the text of a trace.
    pub fn word(self) -> &'static str
        ensures { result.now ≡ word_for self }
    {
        self.signature().0
    }

    /// The shape of the bodies of its messages; if they are no orders, how they are refused.
    pub fn shape(self) -> Result<Shape, Refusal>
        ensures { result ≡ shape_for self }
    {
        self.signature().1
    }

    /// Whether a kernel waits for no reply to its messages.
    pub fn is_silent(self) -> bool
        ensures { result ≡ is_silent self }
    {
        matches!(self, OpKind::Forget | OpKind::BatchForget)
    }

    /// How its message is refused that has this fault.
    pub fn refusal(self, e: Errno) -> Refusal
        ensures { result ≡ refusal_for self e }
    {
        if self.is_silent() {
            Refusal::Silent
        } else {
            Refusal::Answer(e)
        }
    }

    /// The kind of this word; none if no kind has it.
    pub fn of_word(word: &str) -> Option<OpKind>
        ensures value { result ≡ kind_of_word word.now }
        ensures inverse { IsFoundBy word_for word.now result }
    {
        ALL.iter().find(|kind| kind.word() == word).copied()
    }
}
