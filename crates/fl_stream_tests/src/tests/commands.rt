//! Commands whose output fails only when it is flushed.

use lockd_commands::{
    CheckOptions, CommandFault, Details, Rules, Status, bytes_on, check_on, script_on,
};
use std::alloc::Global;
use std::io;
use std::io::Write;
use std::process::Abort;

// The order of a script, and its trace.
const SCRIPT: &str = "ask 0 1 1 0 0 0 getattr\n";

const TRACE: &str = "ask 0 1 1 0 0 0 getattr\ntell 1 attr 1 16877 2 0 0\n";

// A LOOKUP before any INIT, and its reply: EPROTO.
const LOOKUP: &str = "\
2a000000010000000900000000000000010000000000000000000000000000000000000000000000\
6100\n";

const EPROTO: &str = "10000000b9ffffff0900000000000000\n";

/// Takes all that is written, and can't hand it on.
#[derive(Drop)]
struct Unflushed {
    held: Vec<u8>,
}

impl Write for Unflushed {
    ghost use Rattle.std.specs.Prelude.{Some};

    ghost contents = { λ w. Some w.held.items };

    fn write(&mut self, buf: &[u8]) -> io::Result<usize> {
        self.held.extend_from_slice(buf)?;
        Ok(buf.len())
    }

    fn flush(&mut self) -> io::Result<()> {
        Err(io::Error::from(io::ErrorKind::Other))
    }
}

// The three commands that read a text and write one.
#[derive(Clone, Copy)]
enum Command {
    Script,
    Bytes,
    Check,
}

fn run(
    alloc: Global,
    command: Command,
    text: &str,
    output: &mut Unflushed,
    told: &mut Vec<u8>,
) -> Status {
    let mut input = text.as_bytes();
    let rules = Rules::standard();
    let options = CheckOptions {
        tells_quiet: true,
        cut: false,
    };
    match command {
        Command::Script => script_on(alloc, rules, &mut input, output, told),
        Command::Bytes => bytes_on(alloc, rules, &mut input, output, told),
        Command::Check => {
            let mut details = Details::new();
            check_on(
                alloc,
                rules,
                options,
                &mut input,
                output,
                told,
                &mut details,
            )
        }
    }
}

// It held what is wanted, told its fault, and ended so.
fn is_over(rt: &impl Abort, status: Status, held: &[u8], wanted: &str, told: &[u8]) {
    assert!(rt; status == Status::Faulted(CommandFault::Write));
    assert_eq!(rt; held, wanted.as_bytes());
    assert_eq!(rt; told, b"write failed\n".as_slice());
}

fn is_unflushed(rt: &impl Abort, alloc: Global, command: Command, text: &str, wanted: &str) {
    let mut output = Unflushed {
        held: Vec::new(alloc),
    };
    let mut told = Vec::new(alloc);
    let status = run(alloc, command, text, &mut output, &mut told);
    is_over(rt, status, &output.held, wanted, &told);
}

#[test]
fn an_output_that_fails_when_it_is_flushed(rt: HostRuntime) {
    is_unflushed(&rt, rt.alloc(), Command::Script, SCRIPT, TRACE);
    is_unflushed(&rt, rt.alloc(), Command::Bytes, LOOKUP, EPROTO);
    is_unflushed(&rt, rt.alloc(), Command::Check, TRACE, "legal\nquiet\n");
}
