//! A stream that is cut into messages.

ghost use Rattle.std.specs.Prelude.{◌≡◌, ℕ, List, ◌≤◌, ◌<◌, ◌+◌, ◌-◌, ◌^◌, take, drop, length, IfOk, OnErr};
ghost use Rattle.std.specs.Io.KnownBytes.{Consumes, IsAtEnd, Keeps};
ghost use Rattle.fl_wire.specs.Cut.{first_step};
ghost use Rattle.fl_wire.specs.Frame.{IsMessage};
ghost use Rattle.fl_transport.specs.Inbox.{work, IsUnread, ReadsAgain, ReadsOn, Takes, IsEnd};

use crate::fault::Fault;
use fl_order::NoMemory;
use fl_wire::{Step, next_frame};
use std::alloc::Global;
use std::io;
use std::io::{ErrorKind, Read};
use std::marker::Model;

// The most bytes of a message.
const MESSAGE_BYTES: usize = 8192;

/// The result of a read.
#[derive(Clone, Copy, Debug, PartialEq, Eq)]
pub enum Filled {
    /// Bytes came.
    More,
    /// The read was interrupted: none came.
    Interrupted,
    /// No more come: the session ends, with this fault of its reader, if any.
    End(Option<Fault>),
}

/// The bytes that were read from a stream and not taken yet. There is room for a message of any length.
pub struct Inbox {
    buffer: Vec<u8>,
    // The bytes stand in the buffer from here,
    from: usize,
    // up to here.
    filled: usize,
    // How many reads may come yet. No session lives to see the last.
    reads: u64,
}

impl Model for Inbox {
    ghost use Rattle.std.specs.Prelude.{◌≡◌, ◌≤◌, ◌-◌, take, drop, vec_len};
    ghost use Rattle.fl_transport.specs.Inbox.{Inflow};

    ghost Value = { Inflow };

    ghost view = { λ b. record { rest = take (b.filled - b.from) (drop b.from b.buffer.items); reads = b.reads } };

    ghost invariant = { λ b. (vec_len b.buffer ≡ 8192) × (b.from ≤ b.filled) × (b.filled ≤ 8192) };
}

impl Drop for Inbox {
    // One call for an owner, and not a step for each part.
    fn drop(self) {
        let Inbox {
            buffer: _buffer,
            from: _from,
            filled: _filled,
            reads: _reads,
        } = self;
    }
}

impl Inbox {
    /// Nothing was read yet.
    pub fn new(alloc: Global) -> Result<Inbox, NoMemory>
        ensures unread { IfOk result IsUnread }
        ensures reads { IfOk result (λ made. made.reads ≡ 2 ^ 64 - 1) }
    {
        Ok(Inbox {
            buffer: vec![in alloc; 0; MESSAGE_BYTES]?,
            from: 0,
            filled: 0,
            reads: u64::MAX,
        })
    }

    /// What stands first.
    pub fn next(&self) -> Step<'_>
        ensures { result ≡ first_step self.now.rest }
    {
        next_frame(&self.buffer[self.from..self.filled])
    }

    /// Takes the message away that stands first, of this length.
    pub fn skip(&mut self, len: usize)
        requires whole { (message : List ℕ) × (first_step self.old.rest ≡ Step.Whole message) × (length message ≡ len) }
        requires some { 0 < len }
        ensures rest { self.new.rest ≡ drop len self.old.rest }
        ensures reads { self.new.reads ≡ self.old.reads }
        ensures shorter { length self.new.rest ≤ length self.old.rest }
        ensures less { work self.new < work self.old }
        ensures taken { (message : List ℕ) → first_step self.old.rest ≡ Step.Whole message → IsMessage message
            → Takes message self.old.rest self.new.rest }
    {
        self.from += len;
    }

    /// Moves the bytes to the front, and reads once into the room behind them.
    pub fn fill<R: Read>(&mut self, r: &mut R) -> Filled
        requires { first_step self.old.rest ≡ Step.More }
        ensures bounded { length self.new.rest ≤ 8192 }
        ensures more { result ≡ Filled.More → length self.old.rest < length self.new.rest }
        ensures interrupted { result ≡ Filled.Interrupted → self.new.rest ≡ self.old.rest }
        ensures reads { ReadsAgain result → self.new.reads + 1 ≡ self.old.reads }
        ensures less { ReadsAgain result → work self.new < work self.old }
        ensures read { ReadsOn (R.remaining r.old) (R.remaining r.new) self.old.rest self.new.rest }
        ensures end { IsEnd result self.new.rest (R.remaining r.new) }
    {
        if self.reads == 0 {
            return Filled::End(Some(Fault::Read));
        }
        self.reads -= 1;
        let read = read_behind(r, &mut self.buffer, self.from, self.filled);
        self.filled -= self.from;
        self.from = 0;
        match read {
            Ok(0) if self.filled == 0 => Filled::End(None),
            Ok(0) => Filled::End(Some(Fault::Cut)),
            Ok(n) => {
                self.filled += n;
                Filled::More
            }
            Err(error) if error.kind() == ErrorKind::Interrupted => Filled::Interrupted,
            Err(_) => Filled::End(Some(Fault::Read)),
        }
    }
}

// Moves the bytes between these places to the front, and reads behind them.
fn read_behind<R: Read>(
    r: &mut R,
    buffer: &mut [u8],
    from: usize,
    filled: usize,
) -> io::Result<usize>
    requires order { from ≤ filled }
    requires within { filled ≤ length buffer.old }
    ensures front { take (filled - from) buffer.new ≡ take (filled - from) (drop from buffer.old) }
    ensures within { IfOk result (λ n. filled - from + n ≤ length buffer.new) }
    ensures read { IfOk result (λ n.
        Consumes (R.remaining r.old) (R.remaining r.new) (take n (drop (filled - from) buffer.new))) }
    ensures end { IfOk result (λ n. n ≡ 0 → filled - from < length buffer.new → IsAtEnd (R.remaining r.new)) }
    ensures failed { OnErr result (Keeps (R.remaining r.old) (R.remaining r.new)) }
{
    buffer.copy_within(from..filled, 0);
    r.read(&mut buffer[filled - from..])
}
