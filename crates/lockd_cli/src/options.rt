//! What a command line asks for, read by `clap`.

ghost use Rattle.std.specs.Prelude.{◌≡◌, ◌<◌, ◌^◌, ◌++◌, ℕ, List, None, Some, IfErr, IfOk, OnOk};
ghost use Rattle.std.specs.Prelude.{codes, map, option_map};
ghost use Rattle.std.specs.String.{string_bytes};
ghost use Rattle.clap.specs.Matches.{found_of, one_text};
ghost use Rattle.clap.specs.Words.{first_value};
ghost use Rattle.lockd_cli.specs.Inside.{Ask, AsksFor, AsksMore, SayOwnRules, SayRules, Spells};
ghost use Rattle.lockd_cli.specs.Inside.{pieces_said, socket_said, word_of};
ghost use Rattle.lockd_cli.specs.Numbers.{HasWorkers};

use crate::command::lockd;
use crate::rotation::Rotation;
use crate::said_rules::SaidRules;
use crate::serve_options::serve_of;
use crate::usage_error::UsageError;
use clap::ArgMatches;
use clap::error::ErrorKind;
use fl_waiting::Rules;
use std::alloc::{AllocError, Global};

/// A command line.
#[derive(Drop)]
pub struct CommandLine {
    /// What it asks for.
    pub asked: Asked,
    /// Whether it asks for more lines on standard error.
    pub verbose: bool,
}

/// What a command line asks for.
#[derive(Drop)]
pub enum Asked {
    /// Answers the orders of a text and prints the trace. It is also what is asked for without a command.
    Script(Rules),
    /// Answers messages in lines of hex and prints their replies.
    Bytes(Rules),
    /// Judges a trace, or the pieces of one. It says whether the trace is quiet if that is asked, and takes one that
    /// may be cut off if that is said.
    Check {
        /// The paths of the pieces; none, if it is the trace on standard input.
        pieces: Vec<String>,
        /// Whether it is asked if the trace is quiet.
        quiet: bool,
        /// Whether the trace may be cut off.
        cut: bool,
        /// What is said of the rules by which it is judged.
        rules: SaidRules,
    },
    /// Lists the locks after a trace's lines.
    Locks {
        /// After how many of its lines; after all, if that isn't said.
        at: Option<u32>,
        /// The name of the file whose locks are listed; of all files, if that isn't said.
        file: Option<String>,
        /// Whether they are a line of JSON, and not a table.
        json: bool,
        /// What is said of the rules by which the trace was made.
        rules: SaidRules,
    },
    /// Tells what is there after a trace that was made by such rules, as the head of one that goes on from there.
    State(SaidRules),
    /// Serves a socket.
    Serve {
        /// The path of the socket.
        socket: String,
        /// How many workers take orders, 1 to 16; one, if the session is whole.
        workers: u32,
        /// Where the trace goes.
        trace: Trace,
        /// The rules by which orders are answered.
        rules: Rules,
    },
    /// Serves a socket by one worker, which goes on behind the lines of a trace's file and writes its own there.
    Resume {
        /// The path of the socket.
        socket: String,
        /// The path of the trace's file.
        file: String,
        /// Whether the file is made, and none may be there: one with no lines, whose trace goes on in new pieces.
        is_new: bool,
        /// Whether it goes on also if pieces before the file that are wanted are missing, or don't fit.
        allows_gap: bool,
        /// What becomes of the session while the file can't be written.
        when_stuck: WhenStuck,
        /// When it goes on in a new piece, and how many stay; never, if that isn't said.
        rotation: Option<Rotation>,
        /// What is said of the rules by which orders are answered. Other ones than those of the file's head begin a new
        /// piece of the trace.
        rules: SaidRules,
    },
    /// Sends messages to the socket at this path and prints its replies.
    Drive(String),
    /// Prints the program's version.
    Version,
}

/// Where the trace of a server goes.
#[derive(Drop)]
pub enum Trace {
    /// To standard output, once the session is over. Memory grows with each order until then.
    Printed,
    /// Nowhere. Memory doesn't grow.
    Nowhere,
    /// To a new file at this path, as orders come. Memory doesn't grow.
    File(String, WhenFull),
}

/// What becomes of orders once the trace's file can't be written.
#[derive(Clone, Copy)]
pub enum WhenFull {
    /// They go on, and the rest of the trace is lost.
    GoOn,
    /// They are refused until it can be written again.
    Refuse,
}

/// What becomes of a session while the file that it goes on in can't be written.
#[derive(Clone, Copy)]
pub enum WhenStuck {
    /// Its clients wait until it can be written again.
    Wait,
    /// It ends.
    End,
}

/// What the words of a command line ask for; the first is the program's name. A word that no command takes, a number
/// out of its option's range, a request for help, and running out of memory, are refused, each with its text.
pub fn read_words(alloc: Global, words: &[String]) -> Result<CommandLine, UsageError>
    ensures workers { IfOk result (λ line. HasWorkers line.asked) }
{
    match lockd(alloc)?.try_get_matches_from(words) {
        Ok(matches) => line_of(alloc, &matches),
        Err(error) if error.kind() == ErrorKind::DisplayVersion => Ok(CommandLine {
            asked: Asked::Version,
            verbose: false,
        }),
        Err(error) => Err(UsageError::from(error)),
    }
}

// The command line of words that `clap` took.
fn line_of(alloc: Global, matches: &ArgMatches<'_>) -> Result<CommandLine, UsageError>
    ensures workers { IfOk result (λ line. HasWorkers line.asked) }
    ensures said { IfOk result (λ line. AsksFor matches.now line.asked) }
    ensures more { IfOk result (λ line. AsksMore matches.now line.verbose) }
{
    let asked = asked_by(alloc, matches)?;
    Ok(CommandLine {
        asked,
        verbose: is_verbose(matches),
    })
}

// Whether these words ask for more lines.
fn is_verbose(matches: &ArgMatches<'_>) -> bool
    ensures { AsksMore matches.now result }
{
    match matches.subcommand() {
        Some((_, options)) => options.get_flag("verbose"),
        None => matches.get_flag("verbose"),
    }
}

// What words ask for that `clap` took.
fn asked_by(alloc: Global, matches: &ArgMatches<'_>) -> Result<Asked, UsageError>
    ensures workers { IfOk result HasWorkers }
    ensures said { IfOk result (AsksFor matches.now) }
{
    match matches.subcommand() {
        Some(("script", options)) => Ok(Asked::Script(rules_of(options))),
        Some(("bytes", options)) => Ok(Asked::Bytes(rules_of(options))),
        Some(("check", options)) => check_of(alloc, options),
        Some(("locks", options)) => locks_of(alloc, options),
        Some(("state", options)) => Ok(Asked::State(said_rules_of(options))),
        Some(("serve", options)) => serve_of(alloc, options),
        Some(("drive", options)) => drive_of(alloc, options),
        _ => Ok(Asked::Script(rules_of(matches))),
    }
}

// The rules that options say, and the standard ones if they say nothing.
pub(crate) fn rules_of(options: &ArgMatches<'_>) -> Rules
    ensures { SayRules (found_of options.now) result }
{
    said_rules_of(options).over(Rules::standard())
}

// What options say of rules.
pub(crate) fn said_rules_of(options: &ArgMatches<'_>) -> SaidRules
    ensures { SayOwnRules (found_of options.now) result }
{
    SaidRules {
        fair: options.get_flag("fair"),
        whole: options.get_flag("whole"),
        runs: number_of(options, "runs"),
        parked: number_of(options, "parked"),
        files: number_of(options, "files"),
        open_files: number_of(options, "open"),
    }
}

// The number that is said for an option.
pub(crate) fn number_of(options: &ArgMatches<'_>, name: &str) -> Option<u32>
    ensures none { one_text (found_of options.now) name.now ≡ None → result ≡ None }
    ensures some { (text : List ℕ) (n : ℕ) → one_text (found_of options.now) name.now ≡ Some text
        → Spells text n → n < 2 ^ 32 → result ≡ Some n }
{
    options.get_one::<u32>(name)
}

// What the options of `check` ask for.
fn check_of(alloc: Global, options: &ArgMatches<'_>) -> Result<Asked, UsageError>
    ensures workers { IfOk result HasWorkers }
    ensures check { IfOk result (λ asked. word_of asked ≡ codes "check") }
    ensures said { IfOk result (Ask (found_of options.now)) }
{
    let pieces = pieces_of(alloc, options)?;
    Ok(Asked::Check {
        pieces,
        quiet: options.get_flag("quiet"),
        cut: options.get_flag("cut"),
        rules: said_rules_of(options),
    })
}

// The paths of the pieces that the options name.
fn pieces_of(alloc: Global, options: &ArgMatches<'_>) -> Result<Vec<String>, UsageError>
    ensures { IfOk result (λ pieces. map string_bytes pieces.items ≡ pieces_said (found_of options.now)) }
{
    let mut pieces = Vec::new(alloc);
    if let Some(said) = options.get_strs("PIECE") {
        push_all(alloc, &mut pieces, said)?;
    }
    Ok(pieces)
}

// Puts these texts behind others.
fn push_all(alloc: Global, texts: &mut Vec<String>, said: &[&str]) -> Result<(), AllocError>
    ensures { OnOk result (map string_bytes texts.new.items
        ≡ map string_bytes texts.old.items ++ map (λ s. s.now) said.now) }
{
    for text in said.iter() {
        texts.push(String::from_str(alloc, text)?)?;
    }
    Ok(())
}

// What the options of `drive` ask for.
fn drive_of(alloc: Global, options: &ArgMatches<'_>) -> Result<Asked, UsageError>
    ensures workers { IfOk result HasWorkers }
    ensures drive { IfOk result (λ asked. word_of asked ≡ codes "drive") }
    ensures said { IfOk result (Ask (found_of options.now)) }
{
    Ok(Asked::Drive(socket_of(alloc, options)?))
}

// What the options of `locks` ask for.
fn locks_of(alloc: Global, options: &ArgMatches<'_>) -> Result<Asked, UsageError>
    ensures workers { IfOk result HasWorkers }
    ensures locks { IfOk result (λ asked. word_of asked ≡ codes "locks") }
    ensures said { IfOk result (Ask (found_of options.now)) }
{
    let file = file_of(alloc, options)?;
    Ok(Asked::Locks {
        at: number_of(options, "at"),
        file,
        json: options.get_flag("json"),
        rules: said_rules_of(options),
    })
}

// The name of the file that the options say.
fn file_of(alloc: Global, options: &ArgMatches<'_>) -> Result<Option<String>, UsageError>
    ensures { IfOk result (λ file. option_map string_bytes file ≡ first_value (found_of options.now) (codes "file")) }
{
    match options.get_str("file") {
        None => Ok(None),
        Some(name) => Ok(Some(String::from_str(alloc, name)?)),
    }
}

// The socket that a command's options name; it is required.
pub(crate) fn socket_of(alloc: Global, options: &ArgMatches<'_>) -> Result<String, UsageError>
    ensures refused { IfErr result (λ error. error ≡ UsageError.NoMemory) }
    ensures said { IfOk result (λ socket. string_bytes socket ≡ socket_said (found_of options.now)) }
{
    let socket = options.get_str("SOCKET").unwrap_or("");
    Ok(String::from_str(alloc, socket)?)
}
