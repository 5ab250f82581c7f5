//! `lockd`: keeps the locks of a directory of lock files. `lockd_cli` reads the command line, and each command is a
//! function of `lockd_commands`, `lockd_drive` or `lockd_serve`; `lockd_stdio` runs those that read standard input. Where
//! a trace goes, and whether orders are refused when its file can't be written, are contracts (`opened`, `when_full`).
//! Contracts let through:
//! - a `run` that runs another command than is asked for;
//! - a function of a command (`serve`, `serve_opened`, `resume`) that gives it other rules or workers, another path,
//!   another `when_full` or rotation, or another trace than `opened` made, or has another status;
//! - an `opened` or a `resume` whose file is at another path, or that is always refused; an `end_traced` that never asks
//!   for the file;
//! - a `remove_unused` or a `remove_unserved` that takes away the trace's file of a session that was served, or
//!   another's file, or leaves one of none;
//! - any line of `--verbose`, and one without that option;
//! - a `main` that prints no refusal, or ends with another status.
//!
//! The scripts of `tests/commands` and `tests/serve` meet these.
#![tactic(auto)]

ghost use Rattle.std.specs.Prelude.{IfOk};
ghost use Rattle.lockd_cli.specs.Numbers.{HasWorkers};

use lockd_cli::{Asked, CommandLine, UsageError, print_version, read_words};
use lockd_commands::{CommandFault, Status};
use lockd_stdio::{Host, bytes, check, check_pieces, drive, locks, script, state};
use serving::{resume, resuming, serve, when_unwritten};
use std::fs::Files;
use std::io::Write;
use std::net::Net;
use std::process::ExitCode;
use std::sync::Wait;
use std::thread::Threads;
use std::{env, io};

mod serving;

fn main(rt: HostRuntime) -> ExitCode {
    match asked(&rt) {
        Ok(line) => ExitCode::from(run(&rt, &rt, &line).exit_code()),
        Err(refusal) => {
            let _ = rt.eprint(refusal);
            ExitCode::from(2)
        }
    }
}

fn asked(rt: &HostRuntime) -> Result<CommandLine, UsageError>
    ensures workers { IfOk result (λ line. HasWorkers line.asked) }
{
    let words: Vec<String> = env::args(rt)?.collect(rt.alloc())?;
    read_words(rt.alloc(), words.as_slice())
}

// `threads` is the runtime too: only `main` has the right to start threads and to wait.
fn run<T: Threads + Wait + Net + Files + Sync>(
    rt: &HostRuntime,
    threads: &T,
    line: &CommandLine,
) -> Status
    requires workers { HasWorkers line.now.asked }
{
    let verbose = line.verbose;
    let host = Host { rt, verbose };
    match &line.asked {
        Asked::Script(rules) => script(host, *rules),
        Asked::Bytes(rules) => bytes(host, *rules),
        Asked::State(rules) => state(host, *rules),
        Asked::Check {
            pieces,
            quiet,
            cut,
            rules,
        } => {
            if pieces.is_empty() {
                check(host, *rules, *quiet, *cut)
            } else {
                check_pieces(host, *rules, pieces.as_slice())
            }
        }
        Asked::Locks {
            at,
            file,
            json,
            rules,
        } => locks(host, *rules, *at, file, *json),
        Asked::Serve {
            socket,
            workers,
            trace,
            rules,
        } => serve(host, threads, socket.as_str(), *workers, trace, *rules),
        Asked::Resume {
            socket,
            file,
            is_new,
            allows_gap,
            when_stuck,
            rotation,
            rules,
        } => {
            let when = when_unwritten(*when_stuck);
            let how = resuming(file.as_str(), *is_new, *allows_gap, when, rotation);
            resume(host, socket.as_str(), how, *rules)
        }
        Asked::Drive(socket) => drive(host, socket.as_str()),
        Asked::Version => version(&mut io::writer(rt), &mut rt.stderr()),
    }
}

// `lockd --version`: writes the line that says the version.
fn version<W: Write, F: Write>(output: &mut W, faults: &mut F) -> Status {
    match print_version(output) {
        Ok(()) => Status::Good,
        Err(_) => {
            let fault = CommandFault::Write;
            let _ = writeln!(faults, "{fault}");
            Status::Faulted(fault)
        }
    }
}
