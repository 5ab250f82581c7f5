//! Whole inputs and outputs.
ghost use Rattle.std.specs.Prelude.{◌≡◌, ◌⊎◌, IfSome, IfOk, OnOk, IfErr, IsTrue};
ghost use Rattle.std.specs.Io.KnownBytes.{Appends};
ghost use Rattle.lockd_faults.specs.Faults.{IsBegun};
ghost use Rattle.lockd_faults.specs.declared.fault.CommandFault.{CommandFault};

use crate::fault::CommandFault;
use std::alloc::Global;
use std::io::{ErrorKind, Read, Write};

/// All that there is to read.
pub fn read_all<R: Read>(alloc: Global, input: &mut R) -> Result<Vec<u8>, CommandFault>
    ensures bytes { IfOk result (λ text. IfSome (R.remaining input.old) (λ bytes. bytes ≡ text.items)) }
    ensures error { IfErr result (λ fault. (fault ≡ CommandFault.NoMemory) ⊎ (fault ≡ CommandFault.Read)) }
{
    let mut text = Vec::new(alloc);
    match input.read_to_end(&mut text) {
        Ok(_) => Ok(text),
        Err(error) if error.kind() == ErrorKind::OutOfMemory => Err(CommandFault::NoMemory),
        Err(_) => Err(CommandFault::Read),
    }
}

/// Writes all of a text, and hands it on. If that fails, a beginning of it may be written.
#[tactic(auto, using(crate::proofs::WriteLemmas::begun_kept, crate::proofs::WriteLemmas::all_kept))]
pub fn write_all<W: Write>(output: &mut W, text: &[u8]) -> Result<(), CommandFault>
    ensures written { OnOk result (Appends (W.contents output.old) (W.contents output.new) text.now) }
    ensures error { IfErr result (λ fault. fault ≡ CommandFault.Write) }
    ensures begun { IsBegun text.now (W.contents output.old) (W.contents output.new) }
{
    if begin(output, text) && output.flush().is_ok() {
        Ok(())
    } else {
        Err(CommandFault::Write)
    }
}

/// Writes a text up to the first write that fails, and says whether that is all of it. A write that is interrupted is
/// tried again.
#[tactic(auto, using(crate::proofs::WriteLemmas::whole, crate::proofs::WriteLemmas::begun))]
pub(crate) fn begin<W: Write>(output: &mut W, text: &[u8]) -> bool
    ensures all { IsTrue result → Appends (W.contents output.old) (W.contents output.new) text.now }
    ensures begun { IsBegun text.now (W.contents output.old) (W.contents output.new) }
{
    let mut rest = text;
    for _ in 0..u64::MAX {
        if rest.is_empty() {
            return true;
        }
        match output.write(rest) {
            Ok(0) => return false,
            Ok(n) => rest = &rest[n..],
            Err(error) if error.kind() == ErrorKind::Interrupted => {}
            Err(_) => return false,
        }
    }
    rest.is_empty()
}
