//! The pieces of a history, which are read from their files: `lockd check PIECE..`.

ghost use Rattle.std.specs.Io.{ReadsAtMost};

use crate::host::Host;
use lockd_cli::SaidRules;
use lockd_commands::{
    CommandFault, Details, LINE_ROOM, Noting, PieceReader, Rules, Status, check_row_on, end,
    explain_streams, explain_trace, read_opening,
};
use std::alloc::{AllocError, Global};
use std::fs::File;
use std::io;
use std::io::{Chain, Cursor, ErrorKind, Read, Write};
use std::path::Path;

// A piece, which is opened once it is read, and closed at its end.
#[derive(Drop)]
struct Piece<'a> {
    rt: &'a HostRuntime,
    path: &'a str,
    // The rules that its head names.
    named: Option<Rules>,
    // What was read ahead of a file that can't be read twice stands before the rest of it.
    file: Option<Chain<Cursor<Vec<u8>>, File>>,
    // It was read, and the last read failed for this reason.
    begun: bool,
    unread: Option<ErrorKind>,
}

impl<'a> Piece<'a> {
    fn new(rt: &'a HostRuntime, path: &'a str) -> Piece<'a> {
        Piece {
            rt,
            path,
            named: None,
            file: None,
            begun: false,
            unread: None,
        }
    }

    // Reads ahead which rules its head names; none, if it names none, or can't be read. A file that can't be read
    // twice, as a pipe, stays open.
    fn look_ahead(&mut self) -> Result<(), AllocError> {
        let Ok(mut file) = File::open(self.rt, Path::new(self.path)) else {
            return Ok(());
        };
        let mut room = [0; LINE_ROOM];
        let Ok(opening) = read_opening(&mut file, &mut room) else {
            return Ok(());
        };
        self.named = opening.rules;
        if !is_regular(&file) {
            let mut ahead = Vec::new(self.rt.alloc());
            ahead.extend_from_slice(&room[..opening.bytes])?;
            self.file = Some(Cursor::new(ahead).chain(file));
        }
        Ok(())
    }

    // Reads, and opens the file before, if nothing was read yet and it isn't open.
    fn read_on(&mut self, buf: &mut [u8]) -> io::Result<usize>
        ensures { ReadsAtMost result buf.new }
    {
        if !self.begun {
            self.begun = true;
            self.open()?;
        }
        match &mut self.file {
            Some(file) => file.read(buf),
            None => Ok(0),
        }
    }

    // Opens the file, if it isn't open.
    fn open(&mut self) -> io::Result<()> {
        if self.file.is_none() {
            let file = File::open(self.rt, Path::new(self.path))?;
            self.file = Some(Cursor::new(Vec::new(self.rt.alloc())).chain(file));
        }
        Ok(())
    }
}

impl Read for Piece<'_> {
    ghost use Rattle.std.specs.Prelude.{None};

    ghost remaining = { λ _. None };

    fn read(&mut self, buf: &mut [u8]) -> io::Result<usize> {
        let read = self.read_on(buf);
        match &read {
            Ok(0) => self.file = None,
            Ok(_) => {}
            Err(error) => self.unread = Some(error.kind()),
        }
        read
    }
}

/// `lockd check PIECE..`. Rules that aren't said are those of each piece's own head, or, if it has none, those of the
/// piece behind it. A piece that can't be read is named.
pub fn check_pieces(host: Host<'_>, said: SaidRules, paths: &[String]) -> Status {
    let (rt, alloc) = (host.rt, host.rt.alloc());
    let mut output = Noting::new(io::writer(rt));
    let mut faults = rt.stderr();
    let Ok(mut pieces) = pieces_at(rt, paths) else {
        return end(&mut faults, Err(CommandFault::NoMemory));
    };
    give_rules(said, pieces.as_mut_slice());
    let mut details = Details::new();
    let status = check_row_on(
        alloc,
        pieces.as_mut_slice(),
        &mut output,
        &mut faults,
        &mut details,
    );
    if status == Status::Faulted(CommandFault::Read) {
        explain_unread(&mut faults, pieces.as_slice());
    }
    if host.verbose {
        explain_streams(&mut faults, status, None, output.failed());
        explain_row(&mut faults, alloc, status, pieces.as_slice(), &details);
    }
    status
}

// The pieces at these paths, of which the heads were read ahead.
fn pieces_at<'a>(
    rt: &'a HostRuntime,
    paths: &'a [String],
) -> Result<Vec<PieceReader<Piece<'a>>>, AllocError> {
    let mut pieces = Vec::new(rt.alloc());
    for path in paths.iter() {
        let mut input = Piece::new(rt, path.as_str());
        input.look_ahead()?;
        let rules = Rules::standard();
        pieces.push(PieceReader { rules, input })?;
    }
    Ok(pieces)
}

// Gives each piece the rules that are said, and those of its head where nothing is said. If it has no head, these are
// those of the piece behind it, and of the last one the standard ones.
fn give_rules(said: SaidRules, pieces: &mut [PieceReader<Piece<'_>>]) {
    let mut named = Rules::standard();
    for piece in pieces.iter_mut().rev() {
        named = piece.input.named.unwrap_or(named);
        piece.rules = said.over(named);
    }
}

// Says which piece can't be read.
fn explain_unread<W: Write>(to: &mut W, pieces: &[PieceReader<Piece<'_>>]) {
    for piece in pieces.iter() {
        if let Some(why) = piece.input.unread {
            let path = piece.input.path;
            let _ = writeln!(to, "{path}: {why}");
        }
    }
}

// Says more of the last piece that was read, and how many there are, if all are legal.
fn explain_row<W: Write>(
    to: &mut W,
    alloc: Global,
    status: Status,
    pieces: &[PieceReader<Piece<'_>>],
    details: &Details,
) {
    let Some(last) = last_begun(pieces) else {
        return;
    };
    let (path, count) = (last.input.path, pieces.len());
    if status == Status::Different && details.difference.is_none() {
        let _ = writeln!(
            to,
            "{path} doesn't go on from what is there after the piece before it"
        );
    }
    if status == Status::Good && count > 1 {
        let _ = write!(to, "{count} pieces, the last one with ");
    }
    explain_trace(to, alloc, status, path, last.rules, details);
}

// The last piece that was read.
fn last_begun<'a, 'b>(pieces: &'b [PieceReader<Piece<'a>>]) -> Option<&'b PieceReader<Piece<'a>>> {
    let mut last = None;
    for piece in pieces.iter() {
        if piece.input.begun {
            last = Some(piece);
        }
    }
    last
}

// Whether a file can be read twice.
fn is_regular(file: &File) -> bool {
    match file.metadata() {
        Ok(found) => found.is_file(),
        Err(_) => false,
    }
}
