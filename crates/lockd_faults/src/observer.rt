//! What a server tells of itself beside its faults: what it does, and why it serves nobody.

use std::io;
use std::io::ErrorKind;

/// Is told what a server does. The server does the same whatever the observer does, but it waits for each of its calls.
pub trait Observer {
    /// It listens at the socket's path, and no client is there yet.
    fn listening(&mut self);

    /// A client is connected.
    fn connected(&mut self);

    /// The session is over, and this is what became of its client. If a write to it failed, `unwritten` says why the
    /// last one did.
    fn ended(&mut self, client: Parting, unwritten: Option<ErrorKind>);

    /// No connection came, for this reason: `InvalidInput` at an empty path. `cannot listen` was told.
    fn unheard(&mut self, why: io::Error);

    /// The trace's file was made.
    fn traced(&mut self);

    /// The trace's file was made, and can't be locked for this reason.
    fn unlocked(&mut self, why: &io::Error);

    /// There is no file for the trace. `cannot trace` was told.
    fn untraced(&mut self, why: Untraced);

    /// The trace's file was cut or written to by another program, or is gone at the end. `trace failed` was told.
    fn lost(&mut self);
}

/// What the last read from a client said of it.
#[derive(Clone, Copy, Debug, PartialEq, Eq)]
pub enum Parting {
    /// It had closed its end, and all that it sent was read.
    Closed,
    /// The read failed, for this reason.
    Unread(ErrorKind),
    /// Neither, so that the server ended the session: after a DESTROY, or for a fault.
    Here,
}

/// What there is more of than rules allow.
#[derive(Clone, Copy, Debug, PartialEq, Eq)]
pub enum Misfit {
    /// Files.
    Files,
    /// Open files.
    OpenFiles,
    /// Runs of locked bytes.
    Runs,
    /// Parked requests; or one of them would be granted by these rules.
    Parked,
}

/// Why a server has no file for its trace.
#[derive(Drop)]
pub enum Untraced {
    /// It begins with a head, and so few lines stand behind that pieces before are wanted, to know messages that are
    /// sent again. The one of this number isn't there, or isn't the one before, or they have too few lines. There is
    /// none, if the number is 0.
    Headed(u64),
    /// It has no lines, though the piece before it of this number is there: a server would begin with nothing.
    Emptied(u64),
    /// It has no lines, though FILE.new is there, a piece or a copy that a killed server was writing.
    Unfinished,
    /// What is there doesn't fit the rules that were said, since there are more of these than they allow.
    Misfit(Misfit),
    /// No new piece could be begun by the rules that were said, or the last one lacks replies and can't be written.
    Unturned,
    /// Its folder can't be listed, to find the piece before, for this reason.
    Unlisted(io::Error),
    /// It can't be opened or made, for this reason.
    Unopened(io::Error),
    /// Another program has it locked.
    Taken,
    /// It can't be locked, for this reason.
    Unlocked(io::Error),
    /// Another file stood at its path by the time that it was locked, or none.
    Gone,
    /// It is no regular file, or the system doesn't tell.
    Irregular,
    /// What follows its last newline can't be cut off, for this reason.
    Uncut(io::Error),
}
