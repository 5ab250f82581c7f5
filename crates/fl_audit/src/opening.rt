//! The rules that a trace names, which are read ahead.

ghost use Rattle.std.specs.Prelude.{◌≡◌, ◌≤◌, ◌<◌, ◌+◌, ◌⊎◌, true, false, length, take, drop, unwrap_or, IfOk, IfErr, IfSome};
ghost use Rattle.std.specs.Prelude.{IsNone};
ghost use Rattle.std.specs.Io.KnownBytes.{Consumes, IsAtEnd};
ghost use Rattle.fl_desk.specs.Heads.{NamesRules};
ghost use Rattle.fl_audit.specs.Audit.{has_newline};
ghost use Rattle.fl_waiting.specs.declared.rules.Rules.{Rules as Limits};
ghost use Rattle.fl_audit.specs.Opening.{AreNamed};
ghost use Rattle.fl_audit.specs.Opening.Inside.{IsEnough, IsHeadUnder};

use crate::finding::AuditFault;
use fl_core::Rules;
use fl_history::Line;
use fl_order::{Head, StateLine};
use fl_trace::laws::a_line_is_short;
use fl_trace::{LINE_ROOM, first_line};
use std::io::{ErrorKind, Read};

// How many reads may come. None gives less than a byte, but one that was interrupted.
const MOST_READS: u32 = 1_000_000;

/// What was read ahead of a trace.
#[derive(Clone, Copy, Debug)]
pub struct Opening {
    /// The rules that its head names, if it begins with one, and they may be.
    pub rules: Option<Rules>,
    /// How many bytes were read.
    pub bytes: usize,
}

/// Reads a trace up to the end of its first line or a little more, and gives the rules that this line names, if it is
/// the first one of a head. The bytes that were read stand at the front of `room`. The fault is that reading failed.
pub fn read_opening<R: Read>(
    input: &mut R,
    room: &mut [u8; LINE_ROOM],
) -> Result<Opening, AuditFault>
    ensures within { IfOk result (λ it. it.bytes ≤ 700) }
    ensures read { IfOk result (λ it.
        Consumes (R.remaining input.old) (R.remaining input.new) (take it.bytes room.new)) }
    ensures named { IfOk result (λ it. IfSome (R.remaining input.old) (λ text. AreNamed text it.rules)) }
    ensures error { IfErr result (λ fault. fault ≡ AuditFault.Read) }
{
    a_line_is_short();
    let bytes = read_front(input, room)?;
    Ok(Opening {
        rules: named_rules(&room[..bytes]),
        bytes,
    })
}

// Reads until there is a newline, or the room is full, or nothing is left. How many bytes were read.
fn read_front<R: Read>(input: &mut R, room: &mut [u8]) -> Result<usize, AuditFault>
    requires { length room.old ≡ 700 }
    ensures within { IfOk result (λ bytes. bytes ≤ length room.new) }
    ensures read { IfOk result (λ bytes.
        Consumes (R.remaining input.old) (R.remaining input.new) (take bytes room.new)) }
    ensures enough { IfOk result (λ bytes. IsEnough (take bytes room.new) (R.remaining input.new)) }
    ensures error { IfErr result (λ fault. fault ≡ AuditFault.Read) }
{
    let mut bytes = 0;
    for _ in 0..MOST_READS {
        if is_enough(&room[..bytes]) {
            return Ok(bytes);
        }
        let came = read_behind(input, room, bytes)?;
        match came {
            Some(came) => bytes += came,
            None => return Ok(bytes),
        }
    }
    Err(AuditFault::Read)
}

// Whether a first line stands in these bytes, or none can end behind them.
fn is_enough(bytes: &[u8]) -> bool
    ensures yes { result ≡ true → (has_newline bytes.now ≡ true) ⊎ (700 ≤ length bytes.now) }
    ensures no { result ≡ false → length bytes.now < 700 }
{
    bytes.len() >= LINE_ROOM || bytes.contains(&b'\n')
}

// Reads once, behind so many bytes of a room. How many bytes came: none if the read was interrupted; nothing is said if
// nothing is left.
fn read_behind<R: Read>(
    input: &mut R,
    room: &mut [u8],
    bytes: usize,
) -> Result<Option<usize>, AuditFault>
    requires { bytes < length room.old }
    ensures front { take bytes room.new ≡ take bytes room.old }
    ensures long { length room.new ≡ length room.old }
    ensures read { IfOk result (λ came. let n = unwrap_or came 0 in (bytes + n ≤ length room.new)
        × Consumes (R.remaining input.old) (R.remaining input.new) (take n (drop bytes room.new))) }
    ensures end { IfOk result (λ came. IsNone came → IsAtEnd (R.remaining input.new)) }
    ensures error { IfErr result (λ fault. fault ≡ AuditFault.Read) }
{
    match input.read(&mut room[bytes..]) {
        Ok(0) => Ok(None),
        Ok(came) => Ok(Some(came)),
        Err(error) if error.kind() == ErrorKind::Interrupted => Ok(Some(0)),
        Err(_) => Err(AuditFault::Read),
    }
}

// The rules that the first line of a text names.
fn named_rules(text: &[u8]) -> Option<Rules>
    ensures { AreNamed text.now result }
{
    match first_line(text) {
        Some((line, _)) => line_rules(&line),
        None => None,
    }
}

// The rules that a line names, if it is the first one of a head.
fn line_rules(line: &Line) -> Option<Rules>
    ensures some { IfSome result (IsHeadUnder line.now) }
    ensures none { IsNone result → (rules : Limits) → ¬ IsHeadUnder line.now rules }
{
    match line {
        Line::State(StateLine::Head(head)) => head_rules(head),
        _ => None,
    }
}

// The rules that a head names, if they may be.
fn head_rules(head: &Head) -> Option<Rules>
    ensures some { IfSome result (NamesRules head.now) }
    ensures none { IsNone result → (rules : Limits) → ¬ NamesRules head.now rules }
{
    let rules = Rules::standard().with_fair(head.fair);
    let rules = rules.with_limits(head.runs, head.parked)?;
    rules.with_files(head.files, head.open_files)
}
