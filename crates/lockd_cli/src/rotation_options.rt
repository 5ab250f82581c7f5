//! What options say of pieces, and whether they lack an option that these need.

ghost use Rattle.std.specs.Prelude.{◌≡◌, ◌≤◌, ℕ, None, Some, IfErr, IfOk, OnOk, codes};
ghost use Rattle.std.specs.Option.{ForSome};
ghost use Rattle.clap.specs.Matches.{found_of, one_text};
ghost use Rattle.clap.specs.Words.{first_value};
ghost use Rattle.lockd_cli.specs.Inside.{AllowsWorkers, AreKept, AreSeveral, IsDueAt, IsNumberOf, MisfitsPieces};
ghost use Rattle.lockd_cli.specs.Inside.{SaysRotation};

use crate::options::number_of;
use crate::rotation::Rotation;
use crate::said_rules::said_over;
use crate::usage_error::UsageError;
use clap::ArgMatches;

/// The fewest pieces that stay: messages that are sent again after a restart may be answered in the last but one.
pub(crate) const LEAST_KEPT: u32 = 2;

// What the options say of pieces.
pub(crate) fn rotation_of(options: &ArgMatches<'_>) -> Result<Option<Rotation>, UsageError>
    ensures said { IfOk result (SaysRotation (found_of options.now)) }
    ensures refused { IfErr result (λ error. (error ≡ UsageError.Rotate) × MisfitsPieces (found_of options.now)) }
{
    match options.get_str("rotate") {
        None => without_keep(options),
        Some(_) => Ok(Some(said_rotation(options))),
    }
}

// No rotation. To say how many pieces stay is refused, since no new one begins.
fn without_keep(options: &ArgMatches<'_>) -> Result<Option<Rotation>, UsageError>
    requires { first_value (found_of options.now) (codes "rotate") ≡ None }
    ensures said { IfOk result (SaysRotation (found_of options.now)) }
    ensures refused { IfErr result (λ error. (error ≡ UsageError.Rotate) × MisfitsPieces (found_of options.now)) }
{
    match options.get_str("keep") {
        None => Ok(None),
        Some(_) => Err(UsageError::Rotate),
    }
}

// What the options say of pieces, if they say when a new one is due. `clap` lets no number through that is out of its
// range; such a one would become the nearest that isn't.
fn said_rotation(options: &ArgMatches<'_>) -> Rotation
    ensures bytes { IsDueAt (one_text (found_of options.now) (codes "rotate")) result.bytes }
    ensures keep { AreKept (one_text (found_of options.now) (codes "keep")) result.keep }
{
    Rotation {
        bytes: said_over(number_of(options, "rotate"), u32::MAX, u32::MAX),
        keep: kept(number_of(options, "keep")),
    }
}

// So many pieces as are said, but two at least, and all if no number is.
fn kept(said: Option<u32>) -> Option<u32>
    ensures all { said ≡ None → result ≡ None }
    ensures said { (n : ℕ) → said ≡ Some n → 2 ≤ n → result ≡ Some n }
    ensures two { ForSome result (λ pieces. 2 ≤ pieces) }
{
    Some(said?.max(LEAST_KEPT))
}

// Refuses options that say several workers, for a trace in pieces or a whole session.
pub(crate) fn refuse_several(options: &ArgMatches<'_>) -> Result<(), UsageError>
    ensures one { OnOk result (IsNumberOf (one_text (found_of options.now) (codes "workers")) AllowsWorkers 1 1) }
    ensures refused { IfErr result (λ error.
        (error ≡ UsageError.ManyWorkers) × AreSeveral (one_text (found_of options.now) (codes "workers"))) }
{
    match number_of(options, "workers") {
        None | Some(0..=1) => Ok(()),
        Some(_) => Err(UsageError::ManyWorkers),
    }
}
