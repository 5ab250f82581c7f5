//! A history's text, as what a command prints.

ghost use Rattle.std.specs.Prelude.{◌≡◌, OnOk, IfErr};
ghost use Rattle.std.specs.Io.KnownBytes.{Appends};
ghost use Rattle.fl_stream.specs.Streams.{WroteSome};
ghost use Rattle.fl_trace.specs.Text.{text_of};
ghost use Rattle.lockd_faults.specs.declared.fault.CommandFault.{CommandFault};

use crate::fault::CommandFault;
use fl_history::History;
use fl_stream::{TraceRoom, Unwritten, write_trace};
use std::io::Write;

/// Writes the text of a history in pieces, and hands it on. If a write fails, that is `CommandFault::Write`, and a
/// beginning of the text may be written, which may end within a line.
pub fn print<W: Write>(
    room: &mut TraceRoom,
    history: &History,
    output: &mut W,
) -> Result<(), CommandFault>
    ensures written { OnOk result (Appends (W.contents output.old) (W.contents output.new) (text_of history.now)) }
    ensures error { IfErr result (λ fault. fault ≡ CommandFault.Write) }
    ensures begun { WroteSome (text_of history.now) (W.contents output.old) (W.contents output.new) }
{
    match write_trace(room, history, output) {
        Ok(()) => Ok(()),
        Err(Unwritten) => Err(CommandFault::Write),
    }
}
