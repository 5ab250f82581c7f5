//! What `--verbose` adds on standard error.

use lockd_commands::{Details, Rules, Status, explain_streams, explain_trace};
use lockd_faults::{Misfit, Observer, Parting, Untraced};
use lockd_resume::ResumeObserver;
use std::alloc::Global;
use std::fmt::Display;
use std::fs::Files;
use std::io::{ErrorKind, Write};
use std::os::unix::fs::FileTypeExt;
use std::path::Path;
use std::{fs, io};

/// Says what a server does, and why it serves nobody, if that is asked for.
#[derive(Drop)]
pub struct ServerWords<'a, R, W> {
    rt: &'a R,
    to: Option<W>,
    // The path of the socket, and that of the trace's file, if there is one.
    socket: &'a str,
    file: &'a str,
    rules: Rules,
    // It goes on behind the file's lines.
    goes_on: bool,
    // It has made its socket.
    listens: bool,
}

impl<'a, R: Files, W: Write> ServerWords<'a, R, W> {
    /// To this writer; to none, nothing is said.
    pub fn new(
        rt: &'a R,
        to: Option<W>,
        socket: &'a str,
        file: &'a str,
        rules: Rules,
    ) -> ServerWords<'a, R, W> {
        ServerWords {
            rt,
            to,
            socket,
            file,
            rules,
            goes_on: false,
            listens: false,
        }
    }

    /// The server ended so, and the last write to its output that failed did so for this reason.
    pub fn printed(&mut self, status: Status, unwritten: Option<ErrorKind>) {
        if let Some(to) = &mut self.to {
            explain_streams(to, status, None, unwritten);
        }
    }

    // Writes a line.
    fn say<D: Display + Drop>(&mut self, line: D) {
        if let Some(to) = &mut self.to {
            let _ = writeln!(to, "{line}");
        }
    }
}

impl<R: Files, W: Write> Observer for ServerWords<'_, R, W> {
    fn listening(&mut self) {
        self.listens = true;
        let socket = self.socket;
        self.say(format_args!("listening at {socket}"));
    }

    fn connected(&mut self) {
        self.say("a client is connected");
    }

    fn ended(&mut self, client: Parting, unwritten: Option<ErrorKind>) {
        match client {
            Parting::Closed => self.say("the client has closed its end"),
            Parting::Here => self.say("the server ended the session"),
            Parting::Unread(why) => {
                self.say(format_args!("the client's messages can't be read: {why}"));
                if why == ErrorKind::ConnectionReset {
                    self.say("it closed its end with replies unread: it has to read them first");
                }
            }
        }
        if let Some(why) = unwritten {
            self.say(format_args!("replies can't be written to the client: {why}"));
            if why == ErrorKind::BrokenPipe {
                self.say("it closed its end before they came: it has to wait for them");
            }
        }
    }

    fn unheard(&mut self, why: io::Error) {
        let socket = self.socket;
        if socket.is_empty() {
            self.say(NO_PATH);
            return;
        }
        let advice = if self.listens {
            "no connection can be taken: try again"
        } else {
            unbound(self.rt, socket, why.kind(), self.goes_on)
        };
        self.say(format_args!("{socket}: {why}\n{advice}"));
    }

    fn traced(&mut self) {
        let file = self.file;
        self.say(format_args!("the trace goes to {file}"));
    }

    fn unlocked(&mut self, why: &io::Error) {
        let file = self.file;
        self.say(format_args!(
            "{file}: it can't be locked: {why}\nlet no other server go on in it by --resume"
        ));
    }

    fn untraced(&mut self, why: Untraced) {
        let file = self.file;
        match why {
            Untraced::Unopened(why) => {
                let advice = unopened(why.kind());
                self.say(format_args!("{file}: {why}\n{advice}"));
            }
            Untraced::Taken => self.say(format_args!(
                "{file}: another program has it locked, as a server does: end that one first"
            )),
            Untraced::Unlocked(why) => self.say(format_args!(
                "{file}: it can't be locked: {why}\nchoose a file that can be locked"
            )),
            Untraced::Gone => self.say(format_args!(
                "{file}: another file is there by now, or none: try again"
            )),
            Untraced::Headed(0) => self.say(format_args!(
                "{file} goes on from a piece before it, which isn't there: {file}.N has its last orders, which may be sent again"
            )),
            Untraced::Headed(number) => self.say(format_args!(
                "{file}.{number} isn't the next piece before {file}, can't be read, or is the first one and all have too few orders: put back the pieces that stand before {file}, or say --allow-gap"
            )),
            Untraced::Emptied(number) => self.say(format_args!(
                "{file} has no lines, though {file}.{number} is a piece before it: put {file} back, or move the pieces away to begin with nothing"
            )),
            Untraced::Unfinished => self.say(format_args!(
                "{file} has no lines, though {file}.new is there, perhaps a part of it: put {file} back and remove {file}.new, or remove that to begin with nothing"
            )),
            Untraced::Misfit(what) => {
                let more = more_than_allowed(what);
                self.say(format_args!("{file}: {more}"));
            }
            Untraced::Unturned => self.say(format_args!(
                "{file}: its head names other RULES, and no new piece could be begun by these"
            )),
            Untraced::Unlisted(why) => self.say(format_args!(
                "{file}: the pieces before and behind it can't be looked for: {why}"
            )),
            Untraced::Irregular => self.say(format_args!(
                "{file}: it is no regular file: name another"
            )),
            Untraced::Uncut(why) => self.say(format_args!(
                "{file}: what follows its last newline can't be cut off: {why}\ngo on behind a copy of it"
            )),
        }
    }

    fn lost(&mut self) {
        let file = self.file;
        self.say(format_args!(
            "{file}: it was cut or written to, or is gone: another file is there, or none"
        ));
    }
}

impl<R: Files, W: Write> ResumeObserver for ServerWords<'_, R, W> {
    fn resumed(&mut self) {
        self.goes_on = true;
        let file = self.file;
        self.say(format_args!("going on behind the lines of {file}"));
    }

    fn unresumed(&mut self, alloc: Global, status: Status, details: &Details) {
        if let Some(to) = &mut self.to {
            explain_trace(to, alloc, status, self.file, self.rules, details);
        }
    }
}

const NO_PATH: &str = "the path of the socket is empty: name a file";

// What is said if there is more of this than the rules allow.
fn more_than_allowed(what: Misfit) -> &'static str {
    match what {
        Misfit::Files => "more files are there than --files allows",
        Misfit::OpenFiles => "more files are open than --open allows",
        Misfit::Runs => "more locked runs are there than --runs allows",
        Misfit::Parked => "more requests wait than --parked allows, or --fair is new and one waits",
    }
}

// A socket's path has so many bytes at most.
const MOST_BYTES: usize = 107;

const TOO_LONG: &str = "a socket's path has at most 107 bytes: choose a shorter one";

// What to do if no socket can be made at a path, for a reason of this kind.
fn unbound<R: Files>(rt: &R, socket: &str, kind: ErrorKind, goes_on: bool) -> &'static str {
    if socket.len() > MOST_BYTES {
        return TOO_LONG;
    }
    if kind != ErrorKind::AddrInUse {
        return in_folder(kind);
    }
    let Ok(found) = fs::symlink_metadata(rt, Path::new(socket)) else {
        return in_folder(kind);
    };
    let file = found.file_type();
    if file.is_dir() {
        return "a folder is there: choose a path in it";
    }
    match (file.is_socket(), goes_on) {
        (true, true) =>
            "a socket is there that can't be replaced: end its server, or choose another path",
        (true, false) =>
            "a socket's file is there: if no server listens at it, remove it, or use --resume, which replaces it",
        (false, _) => "a file is there that is no socket: choose another path",
    }
}

// What to do if a trace's file can't be opened or made, for a reason of this kind.
fn unopened(kind: ErrorKind) -> &'static str {
    match kind {
        ErrorKind::AlreadyExists => "something is there: choose another path",
        ErrorKind::IsADirectory => "a folder is there: choose a path in it",
        _ => in_folder(kind),
    }
}

// What to do if no file can be made at a path at which there is none.
fn in_folder(kind: ErrorKind) -> &'static str {
    match kind {
        ErrorKind::NotFound => "there is no such folder: make it first",
        ErrorKind::NotADirectory => "a part of the path is no folder: choose another path",
        ErrorKind::PermissionDenied =>
            "this user has no right to do that: choose another path, or another user",
        _ => "choose another path",
    }
}

/// Says why no server was reached at a path, and what to do. The system gave this reason, if the path isn't empty.
pub(crate) fn explain_unconnected<R: Files, W: Write>(
    to: &mut W,
    rt: &R,
    socket: &str,
    why: &Option<io::Error>,
) {
    let _ = match why {
        None => writeln!(to, "{NO_PATH}"),
        Some(why) => {
            let advice = unreached(rt, socket, why.kind());
            writeln!(to, "{socket}: {why}\n{advice}")
        }
    };
}

// What to do if no server was reached at a path, for a reason of this kind.
fn unreached<R: Files>(rt: &R, socket: &str, kind: ErrorKind) -> &'static str {
    if socket.len() > MOST_BYTES {
        return TOO_LONG;
    }
    match kind {
        ErrorKind::NotFound => "no file is there: start a server there first",
        ErrorKind::NotADirectory => "a part of the path is no folder: name the socket of a server",
        ErrorKind::PermissionDenied =>
            "this user has no right to do that: name another socket, or be another user",
        ErrorKind::ConnectionRefused if is_socket(rt, socket) => {
            "no server listens at the socket there: start one"
        }
        ErrorKind::ConnectionRefused => "what is there is no socket: name that of a server",
        _ => "name the socket of a server, or try again",
    }
}

fn is_socket<R: Files>(rt: &R, path: &str) -> bool {
    match fs::metadata(rt, Path::new(path)) {
        Ok(found) => found.file_type().is_socket(),
        Err(_) => false,
    }
}
