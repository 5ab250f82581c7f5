//! A trace's file that keeps its place: if it was moved or removed, it is put back.

use crate::trace_file::{is_at, is_same, remove_if_at};
use std::alloc::{AllocError, Global};
use std::fmt::Write as _;
use std::fs::{File, OpenFile, OpenOptions, TryLockError};
use std::io::{ErrorKind, Seek, SeekFrom, Write};
use std::os::fd::AsRawFd;
use std::os::unix::fs::{MetadataExt, chown};
use std::path::{Path, PathBuf};
use std::time::{Duration, Instant};
use std::{fs, io};

// How many seconds it is until the file is looked for again, and until the next try if it couldn't be put back.
const TICK: u64 = 1;

const PAUSE: u64 = 10;

const TAKEN: &str = "another file is there";

/// The path of a trace's file.
#[derive(Clone, Copy)]
pub struct TracePath<'a> {
    pub rt: &'a HostRuntime,
    /// FILE.
    pub name: &'a str,
    /// FILE.new, which takes the place of FILE once it is whole.
    pub next: &'a str,
}

/// The path of FILE.new, behind that of FILE.
pub fn next_name(alloc: Global, name: &str) -> Result<String, AllocError> {
    let mut next = String::new(alloc);
    write!(next, "{name}.new")?;
    Ok(next)
}

impl<'a> TracePath<'a> {
    // The path of FILE.
    pub(crate) fn file(&self) -> Path<'a> {
        Path::new(self.name)
    }

    // The path of FILE.new.
    pub(crate) fn next_file(&self) -> Path<'a> {
        Path::new(self.next)
    }

    // A new FILE.new, which is locked, so that no other server goes on in it. Its permissions and its owner are those of
    // another file, as far as this process may give them.
    pub(crate) fn make_next(&self, like: &File) -> io::Result<File> {
        let path = self.next_file();
        remove_untaken(self.rt, path);
        let made = OpenOptions::new()
            .read(true)
            .append(true)
            .create_new(true)
            .open(self.rt, path)?;
        if let Err(why) = become_like(self.rt, path, &made, like) {
            let _ = fs::remove_file(self.rt, path);
            return Err(why);
        }
        Ok(made)
    }

    // Says why FILE.new can't become FILE, if something is there: unless that is an empty file which no server has.
    pub(crate) fn refuse_another(&self) -> io::Result<()> {
        match fs::symlink_metadata(self.rt, self.file()) {
            Ok(there) if there.is_file() && there.len() == 0 && !is_taken(self.rt, self.file()) =>
                Ok(()),
            Ok(_) => Err(io::Error::new(ErrorKind::AlreadyExists, TAKEN)),
            Err(why) if why.kind() == ErrorKind::NotFound => Ok(()),
            Err(why) => Err(why),
        }
    }

    // FILE.new becomes FILE.
    pub(crate) fn put_next(&self) -> io::Result<()> {
        fs::rename(self.rt, self.next_file(), self.file())
    }
}

/// What became of a trace's file at its path.
#[derive(Clone, Copy, Debug, PartialEq, Eq)]
enum Found {
    /// It is there.
    There,
    /// No file is there, or another one.
    Missing(&'static str),
    /// It lacks bytes that it had, or has others.
    Spoilt(&'static str),
}

/// A trace's file. Each flush looks for it at its path, but not more often than once a second. If it isn't there, it gets
/// that name again; if it has none any more, a copy of it is put there, and what comes is written to that. A file that
/// stands there is replaced only if it is empty, and no other server has it. `notices` gets a line of each change.
#[derive(Drop)]
pub struct PlacedFile<'a, N> {
    at: TracePath<'a>,
    file: File,
    // So many bytes it has.
    bytes: u64,
    found: Found,
    // When it is looked for again, and when it is tried again to put it back.
    look_at: Option<Instant>,
    try_at: Option<Instant>,
    // It has no place yet.
    is_draft: bool,
    notices: N,
}

impl<'a, N: Write + Copy> PlacedFile<'a, N> {
    /// The file at this path, of so many bytes.
    pub fn new(at: TracePath<'a>, file: File, bytes: u64, notices: N) -> PlacedFile<'a, N> {
        PlacedFile {
            at,
            file,
            bytes,
            found: Found::There,
            look_at: None,
            try_at: None,
            is_draft: false,
            notices,
        }
    }

    // A file with nothing in it that has no place yet.
    pub(crate) fn draft(at: TracePath<'a>, file: File, notices: N) -> PlacedFile<'a, N> {
        PlacedFile {
            is_draft: true,
            ..PlacedFile::new(at, file, 0, notices)
        }
    }

    // It is at the path from now on.
    pub(crate) fn settle(&mut self) {
        self.is_draft = false;
    }

    /// The file.
    pub fn file(&self) -> &File {
        &self.file
    }

    // How many bytes it has.
    pub(crate) fn bytes(&self) -> u64 {
        self.bytes
    }

    // Whether it lacked bytes that it had, or had others, when it was looked for last.
    pub(crate) fn is_spoilt(&self) -> bool {
        matches!(self.found, Found::Spoilt(_))
    }

    /// Looks for it, and says whether it is at its path, with all that it had.
    pub fn is_kept(&mut self) -> bool {
        self.look(true);
        self.found == Found::There && is_at(self.at.rt, self.at.file(), &self.file)
    }

    // Looks for it, if it has a place, and the last look was a second ago.
    fn look_if_due(&mut self) {
        if self.is_draft {
            return;
        }
        let Ok(now) = Instant::now(self.at.rt) else {
            return;
        };
        if is_due(now, self.look_at) {
            self.look_at = now.checked_add(Duration::from_secs(TICK));
            let tries = is_due(now, self.try_at);
            self.look(tries);
            if tries {
                self.try_at = now.checked_add(Duration::from_secs(PAUSE));
            }
        }
    }

    // Looks for it. If it isn't there, and wasn't missed yet or is to be tried again, it is put back.
    fn look(&mut self, tries: bool) {
        let found = self.find();
        let is_new = found != self.found;
        self.found = found;
        match found {
            Found::There => self.tell_if(is_new, "is there again"),
            Found::Spoilt(how) => self.tell_if(is_new, how),
            Found::Missing(how) if tries || is_new => self.put_back(is_new, how),
            Found::Missing(_) => {}
        }
    }

    // What became of it. What can't be found out is as it was.
    fn find(&self) -> Found {
        let Ok(own) = self.file.metadata() else {
            return self.found;
        };
        if own.len() < self.bytes {
            return Found::Spoilt("was cut");
        }
        let gone = Found::Missing("was moved or removed");
        match fs::metadata(self.at.rt, self.at.file()) {
            Ok(there) if !is_same(&own, &there) => Found::Missing("was replaced"),
            Ok(_) if own.len() > self.bytes => Found::Spoilt("was written to by another program"),
            Ok(_) => Found::There,
            Err(why) => match why.kind() {
                ErrorKind::NotFound | ErrorKind::NotADirectory => gone,
                _ => self.found,
            },
        }
    }

    // Puts it back at its path, and tells that, and what became of it. If it can't, that is told only if it is new.
    fn put_back(&mut self, is_new: bool, what: &str) {
        let name = self.at.name;
        let put = match self.link() {
            Ok(()) => Ok(()),
            Err(_) => self.copy(),
        };
        match put {
            Ok(()) => {
                self.found = Found::There;
                let _ = writeln!(self.notices, "{name} {what}, and is there again");
            }
            Err(why) if is_new => {
                let _ = writeln!(self.notices, "{name} {what}, and can't be put back: {why}");
            }
            Err(_) => {}
        }
    }

    // Gives it its name back as another one, if it still has one.
    fn link(&self) -> io::Result<()> {
        let TracePath { rt, .. } = self.at;
        let (next, moved) = (self.at.next_file(), path_of(rt, &self.file)?);
        self.at.refuse_another()?;
        remove_untaken(rt, next);
        fs::hard_link(rt, moved.as_path(), next)?;
        if is_at(rt, next, &self.file) {
            return self.at.put_next();
        }
        fs::remove_file(rt, next)?;
        Err(io::Error::from(ErrorKind::NotFound))
    }

    // Puts a copy of it at its path, and goes on in that.
    fn copy(&mut self) -> io::Result<()> {
        self.at.refuse_another()?;
        let mut made = self.at.make_next(&self.file)?;
        if let Err(why) = self.fill(&mut made) {
            remove_if_at(self.at.rt, self.at.next, &made);
            return Err(why);
        }
        self.file = made;
        Ok(())
    }

    // Fills FILE.new with all that it has, and puts that at its path.
    fn fill(&mut self, made: &mut File) -> io::Result<()> {
        self.file.seek(SeekFrom::Start(0))?;
        io::copy(&mut self.file, made)?;
        made.sync_data()?;
        self.at.refuse_another()?;
        self.at.put_next()
    }

    // Tells what became of it.
    fn tell_if(&mut self, is_new: bool, what: &str) {
        if is_new {
            let _ = writeln!(self.notices, "{} {what}", self.at.name);
        }
    }
}

impl<N: Write + Copy> Write for PlacedFile<'_, N> {
    fn write(&mut self, buf: &[u8]) -> io::Result<usize> {
        let written = self.file.write(buf);
        if let Ok(count) = &written {
            self.bytes = self.bytes.saturating_add(*count as u64);
        }
        written
    }

    fn flush(&mut self) -> io::Result<()> {
        self.look_if_due();
        self.file.flush()
    }
}

// When what couldn't be done is tried again.
pub(crate) fn after_pause(rt: &HostRuntime) -> Option<Instant> {
    Instant::now(rt)
        .ok()?
        .checked_add(Duration::from_secs(PAUSE))
}

// Whether it is time by now.
pub(crate) fn is_time(rt: &HostRuntime, at: Option<Instant>) -> bool {
    matches!(Instant::now(rt), Ok(now) if is_due(now, at))
}

// Whether it is time for what comes at this time, or at once.
fn is_due(now: Instant, at: Option<Instant>) -> bool {
    match at {
        Some(then) => now >= then,
        None => true,
    }
}

// Gives a new file the permissions and the owner of another, as far as this process may, and locks it.
fn become_like(rt: &HostRuntime, path: Path<'_>, made: &File, other: &File) -> io::Result<()> {
    made.try_lock()?;
    let found = other.metadata()?;
    let _ = chown(rt, path, Some(found.uid()), Some(found.gid()));
    made.set_permissions(found.permissions())
}

// The path of an open file, as Linux tells it.
fn path_of(rt: &HostRuntime, file: &File) -> io::Result<PathBuf> {
    let mut name = String::new(rt.alloc());
    write!(name, "/proc/self/fd/{}", file.as_raw_fd())?;
    fs::read_link(rt, Path::new(name.as_str()))
}

// Whether a server has the regular file at a path, as far as it can be opened.
fn is_taken(rt: &HostRuntime, path: Path<'_>) -> bool {
    match open_regular(rt, path) {
        Ok(file) => matches!(file.try_lock(), Err(TryLockError::WouldBlock)),
        Err(_) => false,
    }
}

// Takes a file at a path away, unless a server has it, and says whether it did.
pub(crate) fn remove_untaken(rt: &HostRuntime, path: Path<'_>) -> bool {
    if is_taken(rt, path) {
        return false;
    }
    fs::remove_file(rt, path).is_ok()
}

// The regular file at a path, to be read. No other one is opened, since that may wait.
pub(crate) fn open_regular(rt: &HostRuntime, path: Path<'_>) -> io::Result<File> {
    if !fs::metadata(rt, path)?.is_file() {
        return Err(io::Error::from(ErrorKind::InvalidInput));
    }
    File::open(rt, path)
}
