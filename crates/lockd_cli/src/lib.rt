//! The command line of `lockd`: which command its words ask for, or why none is run.
//!
//! A server has 1 to 16 workers (`workers`), and `Rules` and `Rotation` keep the other limits in their types. A
//! private contract, `asked_by`, says what is asked for by the command and the texts that `clap` found: the socket, the
//! workers, the trace, the file of `--resume`, `--rotate`, `--keep`, `--trace-full`, `--quiet`, `--cut` and the rules.
//! `is_verbose` says the same of `--verbose`. `serve_of` says when the word of `--trace-full` doesn't fit the trace,
//! when `--rotate` and `--keep` lack the option that they need, and when `--whole`, or `--rotate` of a new file, is said
//! with several workers. `read_words` repeats none of them. `clap` doesn't
//! state which words it takes for which text, if options and commands exclude each other, as they do here. Contracts
//! let through:
//! - a `print_version` that always fails, and another version;
//! - a `read_words` that refuses everything, or doesn't ask `line_of`;
//! - a `command` with an option that has another name, another range, another default, or none of them;
//! - a `command` that lets words through that no command takes, as `--resume` beside `--trace`.
//!
//! These tests refuse most of them:
//! - words that are refused, `--resume`, `--rotate`, `--keep`, `--quiet`, `--cut`, `--verbose`, and rules:
//!   `tests/commands/words.py` and `tests/commands/texts.py`;
//! - the number of workers: `try_the_number_of_threads` of `tests/serve/sessions.py`, `tests/serve/whole.py`;
//! - the socket: `tests/serve/sockets.py`;
//! - `--trace` and `--trace-full`: `tests/serve/traces.py`.
//!
//! The wording of `clap`'s texts is neither proved nor tested.
#![tactic(auto)]

mod command;
mod options;
mod rotation;
mod rotation_options;
mod said_rules;
mod serve_options;
mod usage_error;
mod version;

pub use options::{Asked, CommandLine, Trace, WhenFull, WhenStuck, read_words};
pub use rotation::Rotation;
pub use said_rules::SaidRules;
pub use usage_error::UsageError;
pub use version::{VERSION, print_version};
