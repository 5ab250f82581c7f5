//! The commands that read standard input.

use crate::descriptors::hold_closed_streams;
use crate::host::Host;
use crate::kept::Kept;
use crate::words::explain_unconnected;
use lockd_cli::SaidRules;
use lockd_commands::{
    CheckOptions, CommandFault, Details, LINE_ROOM, LocksOptions, Noting, Opening, Rules, Status,
    bytes_on, check_on, end, explain_hex, explain_script, explain_streams, explain_trace, locks_on,
    read_opening, script_on, state_on,
};
use lockd_drive::drive_on;
use std::io;
use std::io::{ErrorKind, Read, Write};
use std::path::Path;

// What is read, in words.
const INPUT: &str = "standard input";

/// `lockd script`.
pub fn script(host: Host<'_>, rules: Rules) -> Status {
    let rt = host.rt;
    let mut input = Kept::new(Noting::new(rt.reader()), host.memory());
    let mut output = Noting::new(io::writer(rt));
    let mut faults = rt.stderr();
    let status = script_on(rt.alloc(), rules, &mut input, &mut output, &mut faults);
    explain_failed(
        host,
        &mut faults,
        status,
        input.input().failed(),
        output.failed(),
    );
    explain_script(&mut faults, status, INPUT, input.text());
    status
}

/// `lockd check`.
pub fn check(host: Host<'_>, said: SaidRules, tells_quiet: bool, cut: bool) -> Status {
    let (rt, alloc) = (host.rt, host.rt.alloc());
    let options = CheckOptions { tells_quiet, cut };
    let mut input = Noting::new(rt.reader());
    let mut output = Noting::new(io::writer(rt));
    let mut faults = rt.stderr();
    let mut room = [0; LINE_ROOM];
    let opening = match read_opening(&mut input, &mut room) {
        Ok(opening) => opening,
        Err(_) => return end_unread(host, &mut faults, input.failed()),
    };
    let rules = rules_of(said, opening);
    let mut trace = room[..opening.bytes].chain(&mut input);
    let mut details = Details::new();
    let status = check_on(
        alloc,
        rules,
        options,
        &mut trace,
        &mut output,
        &mut faults,
        &mut details,
    );
    explain_failed(host, &mut faults, status, input.failed(), output.failed());
    explain_details(host, &mut faults, status, rules, &details);
    status
}

/// `lockd locks`.
pub fn locks(
    host: Host<'_>,
    said: SaidRules,
    at: Option<u32>,
    file: &Option<String>,
    json: bool,
) -> Status {
    let (rt, alloc) = (host.rt, host.rt.alloc());
    // Matches, since each closure would take the prover some 20 seconds.
    let at = match at {
        Some(lines) => Some(lines as usize),
        None => None,
    };
    let file = match file {
        Some(name) => Some(name.as_bytes()),
        None => None,
    };
    let options = LocksOptions { at, file, json };
    let mut input = Noting::new(rt.reader());
    let mut output = Noting::new(io::writer(rt));
    let mut faults = rt.stderr();
    let mut room = [0; LINE_ROOM];
    let opening = match read_opening(&mut input, &mut room) {
        Ok(opening) => opening,
        Err(_) => return end_unread(host, &mut faults, input.failed()),
    };
    let rules = rules_of(said, opening);
    let mut trace = room[..opening.bytes].chain(&mut input);
    let mut details = Details::new();
    let status = locks_on(
        alloc,
        rules,
        options,
        &mut trace,
        &mut output,
        &mut faults,
        &mut details,
    );
    explain_failed(host, &mut faults, status, input.failed(), output.failed());
    explain_details(host, &mut faults, status, rules, &details);
    status
}

/// `lockd state`.
pub fn state(host: Host<'_>, said: SaidRules) -> Status {
    let (rt, alloc) = (host.rt, host.rt.alloc());
    let mut input = Noting::new(rt.reader());
    let mut output = Noting::new(io::writer(rt));
    let mut faults = rt.stderr();
    let mut room = [0; LINE_ROOM];
    let opening = match read_opening(&mut input, &mut room) {
        Ok(opening) => opening,
        Err(_) => return end_unread(host, &mut faults, input.failed()),
    };
    let rules = rules_of(said, opening);
    let mut trace = room[..opening.bytes].chain(&mut input);
    let mut details = Details::new();
    let status = state_on(
        alloc,
        rules,
        &mut trace,
        &mut output,
        &mut faults,
        &mut details,
    );
    explain_failed(host, &mut faults, status, input.failed(), output.failed());
    explain_details(host, &mut faults, status, rules, &details);
    status
}

/// `lockd bytes`.
pub fn bytes(host: Host<'_>, rules: Rules) -> Status {
    let rt = host.rt;
    let mut input = Kept::new(Noting::new(rt.reader()), host.memory());
    let mut output = Noting::new(io::writer(rt));
    let mut faults = rt.stderr();
    let status = bytes_on(rt.alloc(), rules, &mut input, &mut output, &mut faults);
    explain_failed(
        host,
        &mut faults,
        status,
        input.input().failed(),
        output.failed(),
    );
    explain_hex(&mut faults, status, INPUT, input.text());
    status
}

/// `lockd drive`.
pub fn drive(host: Host<'_>, socket: &str) -> Status {
    let rt = host.rt;
    hold_closed_streams(rt);
    let mut input = Kept::new(Noting::new(rt.reader()), host.memory());
    let mut output = Noting::new(io::writer(rt));
    let mut faults = rt.stderr();
    let mut why = None;
    let status = drive_on(
        rt,
        rt.alloc(),
        Path::new(socket),
        &mut input,
        &mut output,
        &mut faults,
        &mut why,
    );
    explain_failed(
        host,
        &mut faults,
        status,
        input.input().failed(),
        output.failed(),
    );
    explain_hex(&mut faults, status, INPUT, input.text());
    if host.verbose && status == Status::Faulted(CommandFault::Connect) {
        explain_unconnected(&mut faults, rt, socket, &why);
    }
    status
}

// Says why standard input or output failed a command, if more is to be said. If not, no text is kept, and so none is
// explained.
fn explain_failed<W: Write>(
    host: Host<'_>,
    to: &mut W,
    status: Status,
    unread: Option<ErrorKind>,
    unwritten: Option<ErrorKind>,
) {
    if host.verbose {
        explain_streams(to, status, unread, unwritten);
    }
}

// Says more of a trace that was read by these rules, if more is to be said.
fn explain_details<W: Write>(
    host: Host<'_>,
    to: &mut W,
    status: Status,
    rules: Rules,
    details: &Details,
) {
    if host.verbose {
        explain_trace(to, host.rt.alloc(), status, INPUT, rules, details);
    }
}

// The rules that are said, and those of the trace's head, or the standard ones, where nothing is said.
fn rules_of(said: SaidRules, opening: Opening) -> Rules {
    let named = match opening.rules {
        Some(named) => named,
        None => Rules::standard(),
    };
    said.over(named)
}

// Ends a command whose input couldn't be read.
fn end_unread<W: Write>(host: Host<'_>, faults: &mut W, unread: Option<ErrorKind>) -> Status {
    let status = end(faults, Err(CommandFault::Read));
    explain_failed(host, faults, status, unread, None);
    status
}
