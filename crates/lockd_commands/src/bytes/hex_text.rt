//! Texts of hex lines.
ghost use Rattle.std.specs.Prelude.{◌≡◌, Ok, IfOk, IfErr};
ghost use Rattle.lockd_commands.specs.Bytes.Inside.{TextSays};
ghost use Rattle.lockd_commands.specs.Hex.{hex_stream};

use lockd_faults::{CommandFault, read_line, split_line};
use std::alloc::Global;

/// The bytes that a text of hex lines spells, one after another.
pub(crate) fn read_stream(alloc: Global, text: &[u8]) -> Result<Vec<u8>, CommandFault>
    ensures spelled { IfOk result (λ stream. hex_stream text.now ≡ Ok stream.items) }
    ensures error { IfErr result (TextSays text.now) }
{
    let mut stream = Vec::new(alloc);
    let mut rest = text;
    let mut number = 1;
    while !rest.is_empty() {
        let Some((line, after)) = split_line(rest) else {
            return Err(CommandFault::BadLine(number));
        };
        let bytes = read_line(alloc, line, number)?;
        stream.extend_from_slice(&bytes)?;
        rest = after;
        number += 1;
    }
    Ok(stream)
}
