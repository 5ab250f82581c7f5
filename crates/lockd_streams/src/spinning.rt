//! A reader that spins before it sleeps in a read, and a writer that retries while the reader spins.

ghost use Rattle.std.specs.Prelude.{◌≡◌, ◌↔◌, IfSome, IsTrue, MatchOption};
ghost use Rattle.std.specs.Io.{ReadsAtMost};
ghost use Rattle.std.specs.Io.KnownBytes.{Keeps, ReadConsumes};
ghost use Rattle.lockd_streams.specs.Inside.{WouldWait};

use lockd_faults::Parting;
use std::io;
use std::io::{ErrorKind, Read, Write};
use std::marker::Model;
use std::os::unix::net::UnixStream;
use std::time::Duration;

// How many reads one spin tries, some tens of microseconds long. A client that waits for each reply needs less until
// its next message.
const TRIES: u32 = 128;

// How many reads come without a spin after one that found nothing.
const WITHOUT_SPIN: u32 = 64;

// How many seconds a read waits at the most, if it isn't to wait for ever.
const TICK: u64 = 1;

// How often a write is tried that finds a full socket which doesn't wait. It is made to wait before each further try,
// so that only a spin that begins in just that moment makes one more needed.
const WRITES: u32 = 1000;

/// Reads what a socket has, and spins before a read sleeps, since to be woken takes longer than an order. After a spin
/// that found nothing the next 64 reads come without one. So a slow client costs little, and one that is silent
/// nothing. While it spins the socket doesn't wait, so others write to it by a `Patient` alone. Contracts see the
/// stream.
#[derive(Drop)]
pub struct Spinning<'a, R> {
    stream: R,
    // What `stream` reads from. Contracts see that the stream is read, whatever this is.
    socket: &'a UnixStream,
    // Reads have a timeout.
    ticks: bool,
    // How many reads come before the next spin.
    without_spin: u32,
    // What the last read said of the client.
    client: Parting,
}

impl<'a, R> Model for Spinning<'a, R> {
    ghost Value = { R };

    ghost view = { λ s. s.stream };
}

impl<'a, R: Read> Spinning<'a, R> {
    /// Over a stream that reads from this socket.
    pub fn new(stream: R, socket: &'a UnixStream) -> Spinning<'a, R>
        ensures { result ≡ stream }
    {
        Spinning {
            stream,
            socket,
            ticks: false,
            without_spin: 0,
            client: Parting::Here,
        }
    }

    /// The same, but a read that waits for a second is told as interrupted.
    pub fn ticking(stream: R, socket: &'a UnixStream) -> Spinning<'a, R>
        ensures { result ≡ stream }
    {
        let timeout = Some(Duration::from_secs(TICK));
        Spinning {
            ticks: socket.set_read_timeout(timeout).is_ok(),
            ..Spinning::new(stream, socket)
        }
    }

    /// What the last read said of the client.
    pub fn client(&self) -> Parting {
        self.client
    }

    // What a spin reads; none if it found nothing, or if it isn't time for one.
    fn spin(&mut self, buf: &mut [u8]) -> Option<io::Result<usize>>
        ensures read { MatchOption result (Keeps (R.remaining self.old) (R.remaining self.new))
            (λ read. ReadsAtMost read buf.new
            × ReadConsumes (R.remaining self.old) (R.remaining self.new) read buf.new) }
        ensures found { IfSome result (λ read. ¬ WouldWait read) }
    {
        if self.without_spin > 0 {
            self.without_spin -= 1;
            return None;
        }
        if self.socket.set_nonblocking(true).is_err() {
            return None;
        }
        let read = read_soon(&mut self.stream, buf);
        // If this is refused, a later read is told as one that failed or was interrupted, and a write as one that failed.
        let _ = self.socket.set_nonblocking(false);
        if read.is_none() {
            self.without_spin = WITHOUT_SPIN;
        }
        read
    }

    // Reads without a spin. If it waited for too long, it was interrupted.
    fn read_once(&mut self, buf: &mut [u8]) -> io::Result<usize>
        ensures { ReadsAtMost result buf.new
            × ReadConsumes (R.remaining self.old) (R.remaining self.new) result buf.new }
    {
        let read = self.stream.read(buf);
        if self.ticks && would_wait(&read) {
            return Err(io::Error::from(ErrorKind::Interrupted));
        }
        read
    }
}

impl<R: Read> Read for Spinning<'_, R> {
    ghost remaining = { R.remaining };

    fn read(&mut self, buf: &mut [u8]) -> io::Result<usize> {
        let read = match self.spin(buf) {
            Some(read) => read,
            None => self.read_once(buf),
        };
        self.client = parting(&read);
        read
    }
}

/// Writes to a socket at which another thread may spin. If the socket is full and doesn't wait, it is made to wait
/// again, and the write is tried anew. The spin then ends with a read that sleeps. Contracts see the stream.
#[derive(Drop)]
pub struct Patient<'a, W> {
    stream: W,
    // What `stream` writes to. Contracts see that the stream is written to, whatever this is.
    socket: &'a UnixStream,
}

impl<'a, W> Model for Patient<'a, W> {
    ghost Value = { W };

    ghost view = { λ p. p.stream };
}

impl<'a, W: Write> Patient<'a, W> {
    /// Over a stream that writes to this socket.
    pub fn new(stream: W, socket: &'a UnixStream) -> Patient<'a, W>
        ensures { result ≡ stream }
    {
        Patient { stream, socket }
    }
}

impl<W: Write> Write for Patient<'_, W> {
    ghost contents = { W.contents };

    fn write(&mut self, buf: &[u8]) -> io::Result<usize> {
        for _ in 1..WRITES {
            let written = self.stream.write(buf);
            if !would_wait(&written) {
                return written;
            }
            // If this is refused, the write is told as one that failed at last.
            let _ = self.socket.set_nonblocking(false);
        }
        self.stream.write(buf)
    }

    fn flush(&mut self) -> io::Result<()> {
        self.stream.flush()
    }
}

// Reads again and again for a while, until a read has more to say than that it would wait.
fn read_soon<R: Read>(stream: &mut R, buf: &mut [u8]) -> Option<io::Result<usize>>
    ensures read { MatchOption result (Keeps (R.remaining stream.old) (R.remaining stream.new))
        (λ read. ReadsAtMost read buf.new
        × ReadConsumes (R.remaining stream.old) (R.remaining stream.new) read buf.new) }
    ensures found { IfSome result (λ read. ¬ WouldWait read) }
{
    for _ in 0..TRIES {
        let read = stream.read(buf);
        if !would_wait(&read) {
            return Some(read);
        }
    }
    None
}

// What a read says of the client. None asks for no bytes.
fn parting(read: &io::Result<usize>) -> Parting {
    match read {
        Ok(0) => Parting::Closed,
        Ok(_) => Parting::Here,
        Err(error) if error.kind() == ErrorKind::Interrupted => Parting::Here,
        Err(error) => Parting::Unread(error.kind()),
    }
}

// Whether a read or a write says no more than that it would wait.
fn would_wait(done: &io::Result<usize>) -> bool
    ensures { IsTrue result ↔ WouldWait done.now }
{
    matches!(done, Err(e) if e.kind() == ErrorKind::WouldBlock)
}
