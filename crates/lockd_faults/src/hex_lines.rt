//! Lines of a text, and lines of hex.
ghost use Rattle.std.specs.Prelude.{◌==◌, ◌≡◌, ◌⊎◌, ◌<◌, ◌++◌, [], ◌∷◌, length, IsErr, IfSome, IfOk, OnOk, IfErr};
ghost use Rattle.std.specs.List.{position_from};
ghost use Rattle.hex.specs.Hex.{decode_of, encode_lower};
ghost use Rattle.lockd_faults.specs.declared.fault.CommandFault.TheVariants.{BadLine, NoMemory};
ghost use Rattle.lockd_faults.specs.HexLines.{lines_of, HasLine};

use crate::fault::CommandFault;
use hex::FromHexError;
use std::alloc::Global;

/// The first line of a text without its newline, and the text after it; none if there is no newline.
pub fn split_line(text: &[u8]) -> Option<(&[u8], &[u8])>
    ensures first { IfSome result (λ parts. lines_of text.now ≡ parts.0.now ∷ lines_of parts.1.now) }
    ensures behind { IfSome result (λ parts. HasLine parts.1.now) }
    ensures shorter { IfSome result (λ parts. length parts.1.now < length text.now) }
    ensures none { result ≡ None → lines_of text.now ≡ text.now ∷ [] }
{
    let end = first_newline(text)?;
    Some((&text[..end], &text[end + 1..]))
}

// Where the first newline stands.
fn first_newline(text: &[u8]) -> Option<usize>
    ensures place { result ≡ position_from (λ c. c == 10) 0 text.now }
    ensures inside { IfSome result (λ end. end < length text.now) }
{
    text.iter().position(|byte| *byte == b'\n')
}

/// The bytes of the line of this number.
pub fn read_line(alloc: Global, line: &[u8], number: usize) -> Result<Vec<u8>, CommandFault>
    ensures spelled { IfOk result (λ bytes. decode_of line.now ≡ Ok bytes.items) }
    ensures error { IfErr result (λ fault. (fault ≡ NoMemory)
        ⊎ ((fault ≡ BadLine number) × IsErr (decode_of line.now))) }
{
    match hex::decode(alloc, line) {
        Ok(bytes) => Ok(bytes),
        Err(FromHexError::OutOfMemory) => Err(CommandFault::NoMemory),
        Err(_) => Err(CommandFault::BadLine(number)),
    }
}

/// Appends a reply as a line of hex.
pub fn push_line(alloc: Global, lines: &mut Vec<u8>, reply: &[u8]) -> Result<(), CommandFault>
    ensures line { OnOk result (lines.new.items ≡ lines.old.items ++ (encode_lower reply.now ++ 10 ∷ [])) }
    ensures error { IfErr result (λ fault. fault ≡ NoMemory) }
{
    let digits = hex::encode(alloc, reply)?;
    lines.extend_from_slice(digits.as_bytes())?;
    lines.push(b'\n')?;
    Ok(())
}
