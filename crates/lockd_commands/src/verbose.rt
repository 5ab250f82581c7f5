//! What `--verbose` adds of a command that read lines.

use fl_audit::Details;
use fl_core::Rules;
use fl_history::Line;
use fl_judge::Difference;
use fl_trace::{LINE_ROOM, push_line};
use lockd_faults::{CommandFault, Status, Why, split_line, why_bad, why_bad_hex, why_bad_order};
use std::alloc::Global;
use std::fmt;
use std::fmt::{Display, Formatter};
use std::io::{ErrorKind, Write};

/// Says more of how a command ended that read a trace from an input of this name, by these rules. Lines are spelled in
/// this memory, and less is said if there is none.
pub fn explain_trace<W: Write>(
    to: &mut W,
    alloc: Global,
    status: Status,
    name: &str,
    rules: Rules,
    details: &Details,
) {
    match status {
        Status::Good => print_counts(to, details.lines, details.orders),
        Status::Faulted(CommandFault::BadLine(n)) => {
            let line = details.bad.text();
            print_bad(to, name, n, line, why_bad(line, details.bad.is_ended));
        }
        Status::Different | Status::Faulted(CommandFault::Differs(_)) => {
            if let Some(difference) = &details.difference {
                print_difference(to, alloc, name, difference);
                print_rules(to, rules);
            }
        }
        Status::Faulted(_) => {}
    }
}

/// Says more of how a command ended that read this text of orders, if it was kept, from an input of this name.
pub fn explain_script<W: Write>(to: &mut W, status: Status, name: &str, text: Option<&[u8]>) {
    let Some(text) = text else {
        return;
    };
    match status {
        Status::Good => {
            let orders = text.iter().filter(|byte| **byte == b'\n').count();
            print_counts(to, orders, orders);
        }
        Status::Faulted(CommandFault::BadLine(n)) => {
            if let Some((line, ended)) = line_of(text, n) {
                print_bad(to, name, n, line, why_bad_order(line, ended));
            }
        }
        Status::Different | Status::Faulted(_) => {}
    }
}

/// Says more of how a command ended that read this text of hex, if it was kept, from an input of this name.
pub fn explain_hex<W: Write>(to: &mut W, status: Status, name: &str, text: Option<&[u8]>) {
    if let (Some(text), Status::Faulted(CommandFault::BadLine(n))) = (text, status) {
        if let Some((line, ended)) = line_of(text, n) {
            print_bad(to, name, n, line, why_bad_hex(line, ended));
        }
    }
}

/// Says why standard input can't be read, or standard output can't be written, if a command ended for this.
pub fn explain_streams<W: Write>(
    to: &mut W,
    status: Status,
    unread: Option<ErrorKind>,
    unwritten: Option<ErrorKind>,
) {
    if let (Status::Faulted(CommandFault::Read), Some(why)) = (status, unread) {
        let _ = writeln!(to, "standard input can't be read: {why}");
    }
    if let (Status::Faulted(CommandFault::Write), Some(why)) = (status, unwritten) {
        let _ = writeln!(to, "standard output can't be written: {why}");
    }
}

// The line of this number, from 1, without its newline, and whether one ends it; none if there are fewer.
fn line_of(text: &[u8], number: usize) -> Option<(&[u8], bool)> {
    let mut rest = text;
    for _ in 1..number {
        let (_, behind) = split_line(rest)?;
        rest = behind;
    }
    match split_line(rest) {
        Some((line, _)) => Some((line, true)),
        None => Some((rest, false)),
    }
}

fn print_counts<W: Write>(to: &mut W, lines: usize, orders: usize) {
    let lines = Count(lines, "line");
    let orders = Count(orders, "order");
    let _ = writeln!(to, "{lines}, {orders}");
}

fn print_bad<W: Write>(to: &mut W, name: &str, n: usize, line: &[u8], why: Why<'_>) {
    let text = Shown(line);
    let _ = writeln!(to, "line {n} of {name}: {text}");
    let _ = writeln!(to, "{why}");
}

// Says which line breaks the rules, and what they want there.
fn print_difference<W: Write>(to: &mut W, alloc: Global, name: &str, difference: &Difference) {
    let n = difference.number;
    match &difference.found {
        Some(line) => print_line(to, alloc, format_args!("line {n} of {name}"), line),
        None => {
            let _ = writeln!(to, "line {n} of {name} is missing");
        }
    }
    match (difference.due, difference.found) {
        (Some(due), _) => print_line(to, alloc, format_args!("the rules want"), &Line::Told(due)),
        (None, None) => {
            let _ = writeln!(to, "the rules want the rest of the head: a part, or go");
        }
        (None, Some(Line::State(_))) => {
            let _ = writeln!(
                to,
                "the rules want a head at the beginning alone, under these rules, each part of which fits those before it"
            );
        }
        (None, Some(_)) => {
            let _ = writeln!(to, "the rules want an order there: no reply is due");
        }
    }
}

// Says by which rules it was judged, as options.
fn print_rules<W: Write>(to: &mut W, rules: Rules) {
    let Rules {
        fair,
        runs,
        parked,
        files,
        open_files,
        ..
    } = rules;
    let fair = if fair { "--fair " } else { "" };
    let _ = writeln!(
        to,
        "judged by {fair}--runs {runs} --parked {parked} --files {files} --open {open_files}: perhaps it was made by other rules"
    );
}

// Says what a line is, and the line, if there is memory to spell it.
fn print_line<W: Write, D: Display + Drop>(to: &mut W, alloc: Global, what: D, line: &Line) {
    let mut text = Vec::new(alloc);
    if text.reserve(LINE_ROOM).is_ok() {
        push_line(&mut text, line);
        let text = Shown(&text);
        let _ = writeln!(to, "{what}: {text}");
    }
}

// So many things of this name.
#[derive(Clone, Copy)]
struct Count<'a>(usize, &'a str);

impl Display for Count<'_> {
    fn fmt<W: fmt::Write>(&self, f: &mut Formatter<W>) -> fmt::Result {
        let Count(count, name) = self;
        let end = if *count == 1 { "" } else { "s" };
        write!(f, "{count} {name}{end}")
    }
}

// So many bytes of a line are shown: all of one of a trace, and one less than a `BadLine` keeps of others.
const MOST_SHOWN: usize = 699;

// A line without its newline, in which each byte that isn't printable is `\xHH`. If it is longer than any of a trace,
// two dots stand for the rest.
#[derive(Clone, Copy)]
struct Shown<'a>(&'a [u8]);

impl Display for Shown<'_> {
    fn fmt<W: fmt::Write>(&self, f: &mut Formatter<W>) -> fmt::Result {
        let line = self.0.strip_suffix(b"\n").unwrap_or(self.0);
        for byte in &line[..line.len().min(MOST_SHOWN)] {
            if *byte >= 32 && *byte < 127 {
                f.write_char(char::from(*byte))?;
            } else {
                write!(f, "\\x{byte:02x}")?;
            }
        }
        if line.len() > MOST_SHOWN {
            f.write_str("..")?;
        }
        Ok(())
    }
}
