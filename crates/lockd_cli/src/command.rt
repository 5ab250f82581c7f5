//! The commands of `lockd` and their options: a table of each, and what `clap` makes of it.

use crate::rotation_options::LEAST_KEPT;
use crate::serve_options::MOST_WORKERS;
use crate::version::VERSION;
use clap::builder::ValueParser;
use clap::{Arg, ArgAction, Command, Error};
use fl_waiting::{MOST_FILES, MOST_OPEN, MOST_PARKED, MOST_RUNS};
use std::alloc::Global;

// A command.
struct Usage {
    name: &'static str,
    about: &'static str,
    // Its own arguments. Those of `common` come behind them.
    own: &'static [Argument],
    common: &'static [Argument],
}

// An option or a positional argument.
struct Argument {
    name: &'static str,
    help: &'static str,
    kind: Kind,
    // It can't be given together with these.
    conflicts_with: &'static [&'static str],
}

enum Kind {
    // An option without a value, which may have a letter.
    Flag(Option<char>),
    // An option with a number from the first to the second, which has this name in the help.
    Between(&'static str, i64, i64),
    // An option with a number from 0 on.
    Number,
    // An option with a text that isn't empty, which has this name in the help.
    Text(&'static str),
    // An option with one of these words.
    OneOf(&'static [&'static str]),
    // It is required, and no option.
    Positional,
    // Any number of texts that aren't empty, which are no options.
    Positionals,
}

const COMMANDS: &[Usage] = &[
    Usage {
        name: "script",
        about: "Answers the ask lines on standard input and prints the trace",
        own: &[],
        common: RULES,
    },
    Usage {
        name: "bytes",
        about: "Serves the messages on standard input, lines of hex, and prints each reply as one",
        own: &[],
        common: RULES,
    },
    Usage {
        name: "check",
        about: "Judges the trace on standard input, or the history that stands in these pieces, and prints legal, or differs and a line's number",
        own: CHECK,
        common: RULES,
    },
    Usage {
        name: "locks",
        about: "Lists the locks that are held and the requests that wait after the lines of the trace on standard input, which may be cut off",
        own: LOCKS,
        common: RULES,
    },
    Usage {
        name: "state",
        about: "Prints the head of a trace that goes on from what is there after the whole trace on standard input",
        own: &[],
        common: RULES,
    },
    Usage {
        name: "serve",
        about: "Serves the first connection to a Unix stream socket, and prints the trace of the session",
        own: SERVE,
        common: RULES,
    },
    Usage {
        name: "drive",
        about: "Sends the lines of hex on standard input to a server, and prints its replies: `recv N` waits for N",
        own: &[SOCKET],
        common: &[VERBOSE],
    },
];

const CHECK: &[Argument] = &[
    Argument {
        name: "PIECE",
        help: "The paths of a history's pieces, the first of them first: each later one goes on from the one before",
        kind: Kind::Positionals,
        conflicts_with: &["quiet", "cut"],
    },
    Argument {
        name: "quiet",
        help: "Prints after legal whether the trace is quiet: no owner asks for a record lock while it waits for one",
        kind: Kind::Flag(None),
        conflicts_with: &[],
    },
    Argument {
        name: "cut",
        help: "Takes the trace of a killed server: drops what follows the last newline, and prints begins, with status 0, where only replies or the rest of a head are missing at the end; --quiet prints nothing after begins",
        kind: Kind::Flag(None),
        conflicts_with: &[],
    },
];

const LOCKS: &[Argument] = &[
    Argument {
        name: "at",
        help: "Lists them after the first N lines; after all, if not said",
        kind: Kind::Number,
        conflicts_with: &[],
    },
    Argument {
        name: "file",
        help: "Lists those of the file that has this name alone",
        kind: Kind::Text("NAME"),
        conflicts_with: &[],
    },
    Argument {
        name: "json",
        help: "Prints one line of JSON and no table",
        kind: Kind::Flag(None),
        conflicts_with: &[],
    },
];

const SERVE: &[Argument] = &[
    SOCKET,
    Argument {
        name: "workers",
        help: "How many workers take orders, 1 to 16; 4, if not said, and 1 with --rotate or --whole",
        kind: Kind::Between("N", 1, MOST_WORKERS as i64),
        conflicts_with: &[],
    },
    Argument {
        name: "trace",
        help: "Writes the trace to a new file as orders come, or keeps none; else it is printed at the end, and memory grows until then",
        kind: Kind::Text("FILE|none"),
        conflicts_with: &[],
    },
    Argument {
        name: "resume",
        help: "Goes on behind the trace that a server left in this file, which is made if it isn't there; one worker writes each order's lines there before its replies go out",
        kind: Kind::Text("FILE"),
        conflicts_with: &["trace", "workers"],
    },
    Argument {
        name: "allow-gap",
        help: "With --resume FILE: goes on also if pieces before FILE that are wanted, to know requests that are sent again, are missing, can't be read or don't fit; such a request may be taken twice",
        kind: Kind::Flag(None),
        conflicts_with: &[],
    },
    Argument {
        name: "rotate",
        help: "With --resume FILE, or with --trace FILE and one worker: begins a new piece of the trace in FILE once that has so many bytes, and 65536 orders and replies behind its head; older pieces are FILE.1, FILE.2, and so on",
        kind: Kind::Between("BYTES", 1, u32::MAX as i64),
        conflicts_with: &[],
    },
    Argument {
        name: "keep",
        help: "With --rotate BYTES: how many pieces stay, FILE among them, 2 or more; all, if not said",
        kind: Kind::Between("N", LEAST_KEPT as i64, u32::MAX as i64),
        conflicts_with: &[],
    },
    // The first two words go with --trace, and the others with --resume or --rotate.
    Argument {
        name: "trace-full",
        help: "What happens while the trace's file can't be written. With --trace FILE orders go on without it, if not said; refuse has replies wait until their lines are in the file, and refuses what can't be taken meanwhile. With --resume FILE or --rotate BYTES clients wait, if not said, or the session ends",
        kind: Kind::OneOf(&["go-on", "refuse", "wait", "end"]),
        conflicts_with: &[],
    },
];

const SOCKET: Argument = Argument {
    name: "SOCKET",
    help: "The path of a server's Unix stream socket",
    kind: Kind::Positional,
    conflicts_with: &[],
};

// The rules by which orders are answered.
const RULES: &[Argument] = &[
    Argument {
        name: "fair",
        help: "Lets a request for a record lock wait behind an older one that waits and excludes it",
        kind: Kind::Flag(None),
        conflicts_with: &[],
    },
    Argument {
        name: "whole",
        help: "With one worker: a session also takes MKNOD, MKDIR and RMDIR, answers READDIR, STATFS and READ, and rejects RENAME, LINK, SYMLINK and WRITE with errors of their own; otherwise, all are ENOSYS",
        kind: Kind::Flag(None),
        conflicts_with: &[],
    },
    Argument {
        name: "runs",
        help: "How many runs of locked bytes there may be, 1 to 65536; 4096, if not said",
        kind: Kind::Between("N", 1, MOST_RUNS as i64),
        conflicts_with: &[],
    },
    Argument {
        name: "parked",
        help: "How many requests may wait, 1 to 1024; 256, if not said",
        kind: Kind::Between("N", 1, MOST_PARKED as i64),
        conflicts_with: &[],
    },
    Argument {
        name: "files",
        help: "How many files and folders there may be, 1 to 65536; 256, if not said",
        kind: Kind::Between("N", 1, MOST_FILES as i64),
        conflicts_with: &[],
    },
    Argument {
        name: "open",
        help: "How many files may be open at once, 1 to 65536; 1024, if not said",
        kind: Kind::Between("N", 1, MOST_OPEN as i64),
        conflicts_with: &[],
    },
    VERBOSE,
];

const VERBOSE: Argument = Argument {
    name: "verbose",
    help: "Says more on standard error: behind a fault its reason and what to do, how much was read, and what a server does",
    kind: Kind::Flag(Some('v')),
    conflicts_with: &[],
};

/// The whole command line. Options without a command are those of `script`, and none stands before a command.
pub(crate) fn lockd<'a>(alloc: Global) -> Result<Command<'a>, Error> {
    let lockd = with_arguments(alloc, program(alloc), RULES)?;
    with_commands(alloc, lockd, COMMANDS)
}

fn program<'a>(alloc: Global) -> Command<'a> {
    Command::new(alloc, "lockd")
        .about("Keeps the locks of a directory of lock files")
        .version(VERSION)
        .args_conflicts_with_subcommands(true)
        .after_help("Without a command it is script, with its options.")
}

fn with_commands<'a>(
    alloc: Global,
    lockd: Command<'a>,
    usages: &[Usage],
) -> Result<Command<'a>, Error> {
    let mut lockd = lockd;
    for usage in usages.iter() {
        lockd = with_command(alloc, lockd, usage)?;
    }
    Ok(lockd)
}

fn with_command<'a>(
    alloc: Global,
    lockd: Command<'a>,
    usage: &Usage,
) -> Result<Command<'a>, Error> {
    Ok(lockd.subcommand(command(alloc, usage)?)?)
}

fn command<'a>(alloc: Global, usage: &Usage) -> Result<Command<'a>, Error> {
    let command = Command::new(alloc, usage.name).about(usage.about);
    let command = with_arguments(alloc, command, usage.own)?;
    with_arguments(alloc, command, usage.common)
}

fn with_arguments<'a>(
    alloc: Global,
    command: Command<'a>,
    arguments: &[Argument],
) -> Result<Command<'a>, Error> {
    let mut command = command;
    for argument in arguments.iter() {
        command = with_argument(alloc, command, argument)?;
    }
    Ok(command)
}

fn with_argument<'a>(
    alloc: Global,
    command: Command<'a>,
    argument: &Argument,
) -> Result<Command<'a>, Error> {
    Ok(command.arg(arg(alloc, argument)?)?)
}

fn arg<'a>(alloc: Global, argument: &Argument) -> Result<Arg<'a>, Error> {
    let arg = Arg::new(alloc, argument.name).help(argument.help);
    let mut arg = of_kind(arg, argument);
    for other in argument.conflicts_with.iter() {
        arg = arg.conflicts_with(*other)?;
    }
    Ok(arg)
}

fn of_kind<'a>(arg: Arg<'a>, argument: &Argument) -> Arg<'a> {
    let name = argument.name;
    match argument.kind {
        Kind::Positional => positional(arg),
        Kind::Positionals => positionals(arg),
        Kind::Flag(letter) => flag(arg, name, letter),
        Kind::Number => valued(arg, name, "N", number()),
        Kind::Between(value, least, most) => valued(arg, name, value, between(least, most)),
        Kind::Text(value) => valued(arg, name, value, ValueParser::NonEmptyString),
        Kind::OneOf(words) => valued(arg, name, "WORD", ValueParser::from(words)),
    }
}

fn positional<'a>(arg: Arg<'a>) -> Arg<'a> {
    arg.required(true).action(ArgAction::Set)
}

fn positionals<'a>(arg: Arg<'a>) -> Arg<'a> {
    let arg = arg.num_args(1..).action(ArgAction::Append);
    arg.value_parser(ValueParser::NonEmptyString)
}

fn flag<'a>(arg: Arg<'a>, name: &'static str, letter: Option<char>) -> Arg<'a> {
    let arg = arg.long(name).action(ArgAction::SetTrue);
    match letter {
        None => arg,
        Some(letter) => arg.short(letter),
    }
}

fn number() -> ValueParser<'static> {
    ValueParser::from(clap::value_parser!(u32))
}

fn between(least: i64, most: i64) -> ValueParser<'static> {
    ValueParser::from(clap::value_parser!(u32).range(least..=most))
}

fn valued<'a>(
    arg: Arg<'a>,
    name: &'static str,
    value: &'static str,
    parser: ValueParser<'static>,
) -> Arg<'a> {
    let arg = arg.long(name).value_name(value).action(ArgAction::Set);
    arg.value_parser(parser)
}
