//! What the options of `serve` ask for.

ghost use Rattle.std.specs.Prelude.{◌≡◌, ◌≢◌, ◌≤◌, ℕ, None, Some, IfErr, IfOk, OnOk, codes, false, true};
ghost use Rattle.clap.specs.Matches.{found_of, one_text};
ghost use Rattle.clap.specs.Words.{first_value};
ghost use Rattle.lockd_cli.specs.Inside.{AllowsWorkers, AreSeveral, Ask, IsFlagOf, IsNotForResume, IsNotForTrace};
ghost use Rattle.lockd_cli.specs.Inside.{IsNumberOf, Misfits, MisfitsPieces, MisfitsTrace, MisfitsWorkers, SaysNoFull};
ghost use Rattle.lockd_cli.specs.Inside.{SaysNoPieces, SaysRotation, SaysTrace, SaysWhenFull, SaysWhenStuck, word_of};
ghost use Rattle.lockd_cli.specs.Inside.{workers_unsaid};
ghost use Rattle.lockd_cli.specs.Numbers.{HasWorkers};

use crate::options::{
    Asked, Trace, WhenFull, WhenStuck, number_of, rules_of, said_rules_of, socket_of,
};
use crate::rotation::Rotation;
use crate::rotation_options::{refuse_several, rotation_of};
use crate::usage_error::UsageError;
use clap::ArgMatches;
use std::alloc::Global;

/// The most workers of a server.
pub(crate) const MOST_WORKERS: u32 = 16;

// Its workers if none are said.
const STANDARD_WORKERS: u32 = 4;

// What the options of `serve` ask for.
pub(crate) fn serve_of(alloc: Global, options: &ArgMatches<'_>) -> Result<Asked, UsageError>
    ensures workers { IfOk result HasWorkers }
    ensures serve { IfOk result (λ asked. word_of asked ≡ codes "serve") }
    ensures said { IfOk result (Ask (found_of options.now)) }
    ensures refused { IfErr result (λ error. error ≡ UsageError.TraceFull → Misfits (found_of options.now)) }
    ensures pieces { IfErr result (λ error. error ≡ UsageError.Rotate → MisfitsPieces (found_of options.now)) }
    ensures several { IfErr result (λ error. error ≡ UsageError.ManyWorkers → MisfitsWorkers (found_of options.now)) }
{
    match options.get_str("resume") {
        Some(file) => resume_of(alloc, options, file),
        None if options.get_flag("allow-gap") => Err(UsageError::Rotate),
        None => begin_of(alloc, options),
    }
}

// What the options of `serve` ask for if they name a file to go on in.
fn resume_of(alloc: Global, options: &ArgMatches<'_>, file: &str) -> Result<Asked, UsageError>
    requires { first_value (found_of options.now) (codes "resume") ≡ Some file.now }
    ensures workers { IfOk result HasWorkers }
    ensures serve { IfOk result (λ asked. word_of asked ≡ codes "serve") }
    ensures said { IfOk result (Ask (found_of options.now)) }
    ensures refused { IfErr result (λ error. error ≡ UsageError.TraceFull → Misfits (found_of options.now)) }
    ensures pieces { IfErr result (λ error. error ≡ UsageError.Rotate → MisfitsPieces (found_of options.now)) }
    ensures several { IfErr result (λ error. error ≢ UsageError.ManyWorkers) }
{
    let when_stuck = when_stuck_of(options)?;
    let rotation = rotation_of(options)?;
    let socket = socket_of(alloc, options)?;
    let file = String::from_str(alloc, file)?;
    Ok(Asked::Resume {
        socket,
        file,
        is_new: false,
        allows_gap: options.get_flag("allow-gap"),
        when_stuck,
        rotation,
        rules: said_rules_of(options),
    })
}

// What the options of `serve` ask for if they name none.
fn begin_of(alloc: Global, options: &ArgMatches<'_>) -> Result<Asked, UsageError>
    requires resume { first_value (found_of options.now) (codes "resume") ≡ None }
    requires gap { IsFlagOf (one_text (found_of options.now) (codes "allow-gap")) false }
    ensures workers { IfOk result HasWorkers }
    ensures serve { IfOk result (λ asked. word_of asked ≡ codes "serve") }
    ensures said { IfOk result (Ask (found_of options.now)) }
    ensures refused { IfErr result (λ error. error ≡ UsageError.TraceFull → Misfits (found_of options.now)) }
    ensures pieces { IfErr result (λ error. error ≡ UsageError.Rotate → MisfitsPieces (found_of options.now)) }
    ensures several { IfErr result (λ error. error ≡ UsageError.ManyWorkers → MisfitsWorkers (found_of options.now)) }
{
    let Some(rotation) = rotation_of(options)? else {
        return begin_one_piece(alloc, options);
    };
    let Some(file) = options.get_str("trace") else {
        return Err(UsageError::Rotate);
    };
    if file == "none" {
        return Err(UsageError::Rotate);
    }
    begin_pieces(alloc, options, file, rotation)
}

// What the options of `serve` ask for if the trace begins in this new file, and goes on in pieces.
fn begin_pieces(
    alloc: Global,
    options: &ArgMatches<'_>,
    file: &str,
    rotation: Rotation,
) -> Result<Asked, UsageError>
    requires resume { first_value (found_of options.now) (codes "resume") ≡ None }
    requires gap { IsFlagOf (one_text (found_of options.now) (codes "allow-gap")) false }
    requires rotation { SaysRotation (found_of options.now) (Some rotation) }
    requires file { first_value (found_of options.now) (codes "trace") ≡ Some file.now }
    requires named { file.now ≢ codes "none" }
    ensures workers { IfOk result HasWorkers }
    ensures serve { IfOk result (λ asked. word_of asked ≡ codes "serve") }
    ensures said { IfOk result (Ask (found_of options.now)) }
    ensures refused { IfErr result (λ error. error ≡ UsageError.TraceFull → Misfits (found_of options.now)) }
    ensures pieces { IfErr result (λ error. error ≢ UsageError.Rotate) }
    ensures several { IfErr result (λ error. error ≡ UsageError.ManyWorkers → MisfitsWorkers (found_of options.now)) }
{
    refuse_several(options)?;
    let when_stuck = when_stuck_of(options)?;
    let socket = socket_of(alloc, options)?;
    let file = String::from_str(alloc, file)?;
    Ok(Asked::Resume {
        socket,
        file,
        is_new: true,
        allows_gap: false,
        when_stuck,
        rotation: Some(rotation),
        rules: said_rules_of(options),
    })
}

// What the options of `serve` ask for if the trace is in one piece.
fn begin_one_piece(alloc: Global, options: &ArgMatches<'_>) -> Result<Asked, UsageError>
    requires resume { first_value (found_of options.now) (codes "resume") ≡ None }
    requires gap { IsFlagOf (one_text (found_of options.now) (codes "allow-gap")) false }
    requires pieces { SaysNoPieces (found_of options.now) }
    ensures workers { IfOk result HasWorkers }
    ensures serve { IfOk result (λ asked. word_of asked ≡ codes "serve") }
    ensures said { IfOk result (Ask (found_of options.now)) }
    ensures refused { IfErr result (λ error. error ≡ UsageError.TraceFull → Misfits (found_of options.now)) }
    ensures pieces { IfErr result (λ error. error ≢ UsageError.Rotate) }
    ensures several { IfErr result (λ error. error ≡ UsageError.ManyWorkers → MisfitsWorkers (found_of options.now)) }
{
    let rules = rules_of(options);
    let workers = workers_of(options, rules.whole)?;
    let socket = socket_of(alloc, options)?;
    let trace = trace_of(alloc, options)?;
    if workers == 1 && matches!(trace, Trace::File(_, WhenFull::Refuse)) {
        return Err(UsageError::OneWorker);
    }
    Ok(Asked::Serve {
        socket,
        workers,
        trace,
        rules,
    })
}

// How many workers the options say. If they say none, there are four, or one in a whole session, for which several are
// refused.
fn workers_of(options: &ArgMatches<'_>, whole: bool) -> Result<u32, UsageError>
    ensures said { IfOk result
        (IsNumberOf (one_text (found_of options.now) (codes "workers")) AllowsWorkers (workers_unsaid whole)) }
    ensures range { IfOk result (λ workers. (1 ≤ workers) × (workers ≤ 16)) }
    ensures whole { whole ≡ true → IfOk result (λ workers. workers ≡ 1) }
    ensures refused { IfErr result (λ error. (error ≡ UsageError.ManyWorkers) × (whole ≡ true)
        × AreSeveral (one_text (found_of options.now) (codes "workers"))) }
{
    if whole {
        refuse_several(options)?;
        return Ok(1);
    }
    Ok(said_workers(number_of(options, "workers")))
}

// So many workers as are said, and four if none are. `clap` lets no number through that is out of its range; such a
// one would become the nearest that isn't.
fn said_workers(said: Option<u32>) -> u32
    ensures standard { said ≡ None → result ≡ 4 }
    ensures said { (n : ℕ) → said ≡ Some n → 1 ≤ n → n ≤ 16 → result ≡ n }
    ensures range { (1 ≤ result) × (result ≤ 16) }
{
    said.unwrap_or(STANDARD_WORKERS).clamp(1, MOST_WORKERS)
}

// Where the options send the trace. A file named none is ./none.
fn trace_of(alloc: Global, options: &ArgMatches<'_>) -> Result<Trace, UsageError>
    ensures said { IfOk result (SaysTrace (found_of options.now)) }
    ensures refused { IfErr result (λ error. error ≡ UsageError.TraceFull → MisfitsTrace (found_of options.now)) }
    ensures others { IfErr result (λ error. error ≢ UsageError.Rotate) }
    ensures several { IfErr result (λ error. error ≢ UsageError.ManyWorkers) }
{
    let Some(trace) = options.get_str("trace") else {
        return without_file(options, Trace::Printed);
    };
    if trace == "none" {
        return without_file(options, Trace::Nowhere);
    }
    let when_full = when_full_of(options)?;
    Ok(Trace::File(String::from_str(alloc, trace)?, when_full))
}

// This trace, if the options don't say what becomes of orders once its file can't be written: it has none.
fn without_file(options: &ArgMatches<'_>, trace: Trace) -> Result<Trace, UsageError>
    ensures same { IfOk result (λ it. it ≡ trace) }
    ensures said { OnOk result (SaysNoFull (found_of options.now)) }
    ensures refused { IfErr result (λ error. (error ≡ UsageError.TraceFull) × ¬ SaysNoFull (found_of options.now)) }
{
    match options.get_str("trace-full") {
        None => Ok(trace),
        Some(_) => Err(UsageError::TraceFull),
    }
}

// What the options say of orders once the trace's file can't be written.
fn when_full_of(options: &ArgMatches<'_>) -> Result<WhenFull, UsageError>
    ensures said { IfOk result (SaysWhenFull (found_of options.now)) }
    ensures refused { IfErr result (λ error. (error ≡ UsageError.TraceFull) × IsNotForTrace (found_of options.now)) }
{
    match options.get_str("trace-full").unwrap_or("go-on") {
        "go-on" => Ok(WhenFull::GoOn),
        "refuse" => Ok(WhenFull::Refuse),
        _ => Err(UsageError::TraceFull),
    }
}

// What the options say of a session while the file that it goes on in can't be written.
fn when_stuck_of(options: &ArgMatches<'_>) -> Result<WhenStuck, UsageError>
    ensures said { IfOk result (SaysWhenStuck (found_of options.now)) }
    ensures refused { IfErr result (λ error. (error ≡ UsageError.TraceFull) × IsNotForResume (found_of options.now)) }
{
    match options.get_str("trace-full").unwrap_or("wait") {
        "wait" => Ok(WhenStuck::Wait),
        "end" => Ok(WhenStuck::End),
        _ => Err(UsageError::TraceFull),
    }
}
