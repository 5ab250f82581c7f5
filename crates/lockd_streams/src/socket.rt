//! The socket that `lockd serve` listens at.

ghost use Rattle.std.specs.Prelude.{◌≡◌, ◌↔◌, [], IsErr, IsTrue};
ghost use Rattle.std.specs.Path.{path_bytes};
ghost use Rattle.lockd_streams.specs.Inside.{IsSameSocket};

use lockd_faults::{Observer, read_all, split_line};
use std::alloc::Global;
use std::fs::{Files, OpenOptions};
use std::io::ErrorKind;
use std::net::Net;
use std::os::unix::fs::{FileTypeExt, MetadataExt};
use std::os::unix::net::{UnixListener, UnixStream};
use std::path::Path;
use std::{fs, io};

/// What is done with a socket's file that stands at the path of a server.
#[derive(Clone, Copy, PartialEq, Eq)]
pub enum OldSocket {
    /// It stays, and the server doesn't listen.
    Keep,
    /// It is replaced, if nobody listens at it any more.
    Replace,
}

/// The first connection at a path, whose file is then taken away. A socket with no path has no file, and nobody finds
/// it. The observer is told when it listens, and when the connection is there.
pub fn connection<R: Net + Files, O: Observer>(
    rt: &R,
    alloc: Global,
    path: Path<'_>,
    old: OldSocket,
    observer: &mut O,
) -> io::Result<UnixStream>
    ensures unnamed { path_bytes path.entry ≡ [] → IsErr result }
{
    if path.as_str().is_empty() {
        return Err(io::Error::from(ErrorKind::InvalidInput));
    }
    if old == OldSocket::Replace {
        remove_stale(rt, alloc, path);
    }
    let listener = UnixListener::bind(rt, path)?;
    let made = file_at(rt, path);
    observer.listening();
    let accepted = listener.accept();
    remove_socket(rt, path, made);
    let (stream, _) = accepted?;
    observer.connected();
    Ok(stream)
}

// What stands at a path. No other file has these two numbers while this one is there, or is open.
#[derive(Clone, Copy)]
struct FoundFile {
    is_socket: bool,
    device: u64,
    inode: u64,
}

// Takes a socket's file at a path away, if nobody listens at it: Linux lists no socket of this path, and a connection
// is refused. Linux lists paths as they were given, so of one that isn't absolute the connection alone decides. Whoever
// listens by another spelling of the path, or in another network, gets this connection.
fn remove_stale<R: Net + Files>(rt: &R, alloc: Global, path: Path<'_>) {
    if path.as_str().as_bytes().first() == Some(&b'/') && is_listed(rt, alloc, path.as_str()) {
        return;
    }
    let found = file_at(rt, path);
    if let Err(error) = UnixStream::connect(rt, path) {
        if error.kind() == ErrorKind::ConnectionRefused {
            remove_socket(rt, path, found);
        }
    }
}

// Whether Linux lists a socket of this path, or doesn't tell.
fn is_listed<R: Files>(rt: &R, alloc: Global, path: &str) -> bool {
    let Ok(mut list) = OpenOptions::new().read(true).open(rt, "/proc/net/unix") else {
        return true;
    };
    match read_all(alloc, &mut list) {
        Ok(text) => has_line_of(&text, path.as_bytes()),
        Err(_) => true,
    }
}

// Whether a line of this text ends with a space and these bytes.
fn has_line_of(text: &[u8], end: &[u8]) -> bool {
    let mut rest = text;
    for _ in 0..text.len() {
        let Some((line, behind)) = split_line(rest) else {
            return false;
        };
        if let Some(front) = line.strip_suffix(end) {
            if front.last() == Some(&b' ') {
                return true;
            }
        }
        rest = behind;
    }
    false
}

// What stands at a path, if the file system tells.
fn file_at<R: Files>(rt: &R, path: Path<'_>) -> Option<FoundFile> {
    let found = fs::symlink_metadata(rt, path).ok()?;
    Some(FoundFile {
        is_socket: found.file_type().is_socket(),
        device: found.dev(),
        inode: found.ino(),
    })
}

// Takes the file at a path away if it is the socket that was made, and no other file.
fn remove_socket<R: Files>(rt: &R, path: Path<'_>, made: Option<FoundFile>) {
    if is_same_socket(made, file_at(rt, path)) {
        let _ = fs::remove_file(rt, path);
    }
}

// Whether what is found at a path is the socket that was made there.
fn is_same_socket(made: Option<FoundFile>, found: Option<FoundFile>) -> bool
    ensures { IsTrue result ↔ IsSameSocket made found }
{
    match (made, found) {
        (Some(made), Some(found)) => {
            made.is_socket
                && found.is_socket
                && made.device == found.device
                && made.inode == found.inode
        }
        _ => false,
    }
}
