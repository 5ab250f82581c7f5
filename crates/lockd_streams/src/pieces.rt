//! A trace's file that is the last piece of its trace. Those before it have numbers behind its name: FILE.1, FILE.2, ..

ghost use Rattle.std.specs.Prelude.{◌≡◌, ◌<◌, IfOk, IfSome};

use crate::placed_file::{
    PlacedFile, TracePath, after_pause, is_time, open_regular, remove_untaken,
};
use crate::retrying::{Announcing, PieceWriter, Retrying, WhenUnwritten};
use crate::trace_file::{is_at, remove_if_at};
use fl_stream::Pieces;
use std::alloc::{AllocError, Global};
use std::fmt::Write as _;
use std::fs::File;
use std::io::{ErrorKind, Write};
use std::path::Path;
use std::time::Instant;
use std::{fs, io};

// A dot and a number of 64 bits have so many bytes at most.
const NUMBER_ROOM: usize = 21;

const GONE: &str = "the file was removed or replaced";

const LINK: &str = "it is a symbolic link";

// How many names that others took are passed by, before a piece gets none.
const MOST_TAKEN: u64 = 1000;

/// When the next piece of a trace begins, and which stay.
#[derive(Clone, Copy)]
pub struct Rotation {
    /// A piece is over once it has so many bytes, and 65,536 orders and replies.
    pub bytes: u64,
    /// So many pieces stay, the one at hand among them; all, if that isn't said.
    pub keep: Option<u64>,
}

/// The pieces of a trace whose last one is FILE. The next one is written to FILE.new. Once its head is whole, the file at
/// hand gets a number, and FILE.new takes its place. So at each moment FILE is the piece that counts. If that fails, the
/// lines go on in the file at hand, `notices` gets a line of it, and the next try comes once that has grown by as much
/// again. A piece whose file was cut, or written to by another program, is over at once. All memory is there before.
#[derive(Drop)]
pub struct FilePieces<'a, N> {
    at: TracePath<'a>,
    names: PieceNames<'a>,
    rotation: Rotation,
    when: WhenUnwritten,
    notices: N,
    // The greatest number that a piece has.
    last: u64,
    // How many bytes the piece at hand has when the next one is due, and when it is due behind a spoilt one.
    due_at: u64,
    spoilt_due_at: Option<Instant>,
    // A piece couldn't be begun, and none was since.
    failed: bool,
    turn: Option<Turn>,
}

// A turn from one piece to the next.
#[derive(Drop)]
struct Turn {
    here: File,
    next: File,
    bytes: u64,
    // No piece before it is needed any more.
    enough: bool,
    // Its file was cut, or another program wrote to it.
    is_spoilt: bool,
}

impl<'a, N: Write + Copy> FilePieces<'a, N> {
    /// Behind FILE, before which this is the greatest number of a piece.
    pub fn new(
        at: TracePath<'a>,
        last: u64,
        rotation: Rotation,
        when: WhenUnwritten,
        notices: N,
    ) -> Result<FilePieces<'a, N>, AllocError> {
        Ok(FilePieces {
            at,
            names: PieceNames::of(at.rt.alloc(), at.name)?,
            rotation,
            when,
            notices,
            last,
            due_at: rotation.bytes,
            spoilt_due_at: None,
            failed: false,
            turn: None,
        })
    }

    // Makes FILE.new, for a piece behind this one.
    fn make_next(&mut self, here: &PlacedFile<'a, N>, enough: bool) -> io::Result<File> {
        let own = here.file().try_clone()?;
        let made = self.at.make_next(&own)?;
        let next = match made.try_clone() {
            Ok(next) => next,
            Err(why) => {
                remove_if_at(self.at.rt, self.at.next, &made);
                return Err(why);
            }
        };
        self.turn = Some(Turn {
            here: own,
            next,
            bytes: here.bytes(),
            enough,
            is_spoilt: here.is_spoilt(),
        });
        Ok(made)
    }

    // The next piece counts from now on, whose head this file has. A spoilt file at hand that is gone gets no
    // number.
    fn put(&mut self, turn: &Turn, next: &File) -> io::Result<()> {
        next.sync_data()?;
        let is_gone = turn.is_spoilt && self.at.refuse_another().is_ok();
        let number = if is_gone {
            self.last
        } else {
            self.number(&turn.here)?
        };
        self.at.put_next()?;
        self.last = number;
        Ok(())
    }

    // Gives the file at hand a number greater than those of all pieces, and says which. If it has one, since a server
    // was killed in just this moment, that is it.
    fn number(&mut self, here: &File) -> io::Result<u64> {
        if !is_at(self.at.rt, self.at.file(), here) {
            return Err(io::Error::new(ErrorKind::NotFound, GONE));
        }
        if is_link(self.at.rt, self.at.file()) {
            return Err(io::Error::new(ErrorKind::InvalidInput, LINK));
        }
        for taken in 0..MOST_TAKEN {
            let number = self.last.saturating_add(1).saturating_add(taken);
            if self.takes(here, number)? {
                return Ok(number);
            }
        }
        Err(io::Error::from(ErrorKind::AlreadyExists))
    }

    // Gives the file at hand this number, and says whether it has it: another file may.
    fn takes(&mut self, here: &File, number: u64) -> io::Result<bool> {
        let TracePath { rt, .. } = self.at;
        let path = self.names.numbered(number)?;
        match fs::hard_link(rt, self.at.file(), path) {
            Ok(()) => Ok(true),
            Err(why) if why.kind() == ErrorKind::AlreadyExists => Ok(is_at(rt, path, here)),
            Err(why) => Err(why),
        }
    }

    // Removes the pieces that don't stay.
    fn remove_old(&mut self) {
        let Some(keep) = self.rotation.keep else {
            return;
        };
        let number = self.last.saturating_add(1).saturating_sub(keep);
        for below in 0..number {
            let Ok(path) = self.names.numbered(number - below) else {
                return;
            };
            if !remove_untaken(self.at.rt, path) {
                return;
            }
        }
    }

    // Tells why there is no new piece, if that isn't told yet, and puts the next one off.
    fn fail(&mut self, why: &io::Error, bytes: u64) {
        if !self.failed {
            let _ = writeln!(self.notices, "no new piece of {}: {why}", self.at.name);
        }
        self.put_off(bytes);
    }

    // A piece was begun. It is told, if none was when the last one was due, or the file was spoilt.
    fn recover(&mut self, is_spoilt: bool) {
        if self.failed || is_spoilt {
            self.failed = false;
            let _ = writeln!(self.notices, "{} goes on in a new piece", self.at.name);
        }
    }

    // None was begun behind one of so many bytes: the next one is due once that has grown by as much again, or if it was
    // cut after a pause.
    fn put_off(&mut self, bytes: u64) {
        self.failed = true;
        self.due_at = bytes.saturating_add(self.rotation.bytes);
        self.spoilt_due_at = after_pause(self.at.rt);
    }
}

impl<'a, N: Write + Copy + Drop> Pieces<PieceWriter<'a, N>> for FilePieces<'a, N> {
    fn is_due(&self, here: &PieceWriter<'a, N>, enough: bool) -> bool {
        let file = here.writer().file();
        let is_long = enough && file.bytes() >= self.due_at;
        is_long || file.is_spoilt() && is_time(self.at.rt, self.spoilt_due_at)
    }

    fn begin(&mut self, here: &PieceWriter<'a, N>, enough: bool) -> Option<PieceWriter<'a, N>> {
        let file = here.writer().file();
        match self.make_next(file, enough) {
            Ok(made) => {
                let draft = PlacedFile::draft(self.at, made, self.notices);
                let told = Announcing::draft(draft, self.at.name, self.notices, self.failed);
                Some(Retrying::new(told, self.at.rt, WhenUnwritten::End))
            }
            Err(why) => {
                self.fail(&why, file.bytes());
                None
            }
        }
    }

    fn end(&mut self, writer: &mut PieceWriter<'a, N>) -> bool {
        let Some(turn) = self.turn.take() else {
            return false;
        };
        if let Err(why) = self.put(&turn, writer.writer().file().file()) {
            self.fail(&why, turn.bytes);
            self.turn = Some(turn);
            return false;
        }
        self.due_at = self.rotation.bytes;
        self.spoilt_due_at = None;
        self.recover(turn.is_spoilt);
        writer.settle(self.when);
        if turn.enough {
            self.remove_old();
        }
        true
    }

    fn give_up(&mut self) {
        if let Some(turn) = self.turn.take() {
            remove_if_at(self.at.rt, self.at.next, &turn.next);
            self.put_off(turn.bytes);
        }
    }
}

/// Whether what stands at a path is a symbolic link, which the next piece would replace.
pub fn is_link(rt: &HostRuntime, path: Path<'_>) -> bool {
    matches!(fs::symlink_metadata(rt, path), Ok(found) if found.is_symlink())
}

/// The greatest number of a piece before a trace's file: of a file FILE.N, from 1 on, that isn't this one. If there is
/// none, it is 0.
pub fn last_piece(rt: &HostRuntime, name: &str, file: &File) -> io::Result<u64> {
    let (folder, own) = parts_of(name);
    let mut last = 0;
    for entry in fs::read_dir(rt, folder)? {
        match entry {
            Ok(entry) => {
                let number = number_behind(entry.file_name(), own).unwrap_or(0);
                if number > last && !is_at(rt, entry.path(), file) {
                    last = number;
                }
            }
            // A name that is no text is none of a piece.
            Err(why) if why.kind() == ErrorKind::InvalidFilename => {}
            Err(why) => return Err(why),
        }
    }
    Ok(last)
}

// The folder of a path, and the name in it.
fn parts_of(name: &str) -> (Path<'_>, &str) {
    match name.rsplit_once('/') {
        Some(("", own)) => (Path::new("/"), own),
        Some((folder, own)) => (Path::new(folder), own),
        None => (Path::new("."), name),
    }
}

// The number behind a name and a dot, from 1 on and with no zero in front.
fn number_behind(found: &str, own: &str) -> Option<u64> {
    let number = found.strip_prefix(own)?.strip_prefix('.')?;
    match number.as_bytes().first() {
        Some(b'1'..=b'9') => number.parse::<u64>().ok(),
        _ => None,
    }
}

// The names of a trace's pieces, in a room that never grows.
#[derive(Drop)]
struct PieceNames<'a> {
    name: &'a str,
    text: String,
}

impl<'a> PieceNames<'a> {
    // Those behind this name.
    fn of(alloc: Global, name: &'a str) -> Result<PieceNames<'a>, AllocError> {
        let text = String::with_capacity(alloc, name.len() + NUMBER_ROOM)?;
        Ok(PieceNames { name, text })
    }

    // That of the piece of this number.
    fn numbered(&mut self, number: u64) -> io::Result<Path<'_>> {
        self.text.clear();
        write!(self.text, "{}.{number}", self.name)?;
        Ok(Path::new(self.text.as_str()))
    }
}

/// The pieces before a trace's file, which are opened from the last to the first: FILE.N, FILE.(N-1), ..
#[derive(Drop)]
pub struct OlderPieces<'a> {
    rt: &'a HostRuntime,
    names: PieceNames<'a>,
    /// The number of the piece that is opened next; 0, if there is none.
    pub number: u64,
}

impl<'a> OlderPieces<'a> {
    /// Those of a file of this name, from this number on.
    pub fn new(
        rt: &'a HostRuntime,
        name: &'a str,
        number: u64,
    ) -> Result<OlderPieces<'a>, AllocError>
        ensures { IfOk result (λ it. it.number ≡ number) }
    {
        let names = PieceNames::of(rt.alloc(), name)?;
        Ok(OlderPieces { rt, names, number })
    }

    /// The next piece, to be read. None, if there is none, or it can't be opened.
    pub fn open_next(&mut self) -> Option<File>
        ensures { IfSome result (λ _. self.new.number < self.old.number) }
    {
        let number = self.number;
        self.number = number.saturating_sub(1);
        if number == 0 {
            return None;
        }
        let path = self.names.numbered(number).ok()?;
        open_regular(self.rt, path).ok()
    }
}
