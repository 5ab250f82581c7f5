//! Why no command is run.

ghost use Rattle.std.specs.Prelude.{◌≡◌};

use clap::error::ErrorKind;
use std::alloc::AllocError;
use std::io;
use thiserror::Error;

/// Why no command was run: its text goes to standard error, also if help was asked for.
#[derive(Debug, Drop, Error)]
pub enum UsageError {
    #[error("no memory\n")]
    NoMemory,
    #[error("the command line can't be read: {0}\n")]
    Words(io::Error),
    #[error("error: '--trace-full' takes go-on or refuse with '--trace FILE', and wait or end with '--resume FILE' or '--rotate BYTES'\n\nFor more information, try '--help'.\n")]
    TraceFull,
    #[error("error: '--trace-full refuse' takes two workers or more: while one waits to write, another refuses orders\n\nFor more information, try '--help'.\n")]
    OneWorker,
    #[error("error: '--rotate' needs '--resume FILE' or '--trace FILE', '--keep' needs '--rotate BYTES', and '--allow-gap' needs '--resume FILE'\n\nFor more information, try '--help'.\n")]
    Rotate,
    #[error("error: '--rotate' and '--whole' take one worker: with several, a new piece's head, or a list of files, would be told while others take orders\n\nFor more information, try '--help'.\n")]
    ManyWorkers,
    #[error("{0}")]
    CommandLine(clap::Error),
}

impl From<AllocError> for UsageError {
    ghost use Rattle.lockd_cli.specs.declared.usage_error.UsageError.TheVariants.{NoMemory};

    ghost from_gives = { λ _ error. error ≡ NoMemory };

    fn from(_e: AllocError) -> UsageError {
        UsageError::NoMemory
    }
}

impl From<io::Error> for UsageError {
    fn from(error: io::Error) -> UsageError {
        match error.kind() {
            io::ErrorKind::OutOfMemory => UsageError::NoMemory,
            _ => UsageError::Words(error),
        }
    }
}

impl From<clap::Error> for UsageError {
    fn from(error: clap::Error) -> UsageError {
        match error.kind() {
            ErrorKind::OutOfMemory => UsageError::NoMemory,
            _ => UsageError::CommandLine(error),
        }
    }
}
