//! Names of files, in printable ASCII.

ghost use Rattle.std.specs.Prelude.{◌≡◌, ◌++◌, OnOk, string_bytes};
ghost use Rattle.std.specs.List.{flat_map};
ghost use Rattle.fl_locks.specs.Names.{hex_byte, is_plain, byte_text, name_text};

use fl_order::Name;
use std::alloc::AllocError;
use std::fmt::Write;

/// Writes a name as the table has it.
pub(crate) fn push_name(text: &mut String, name: &Option<Name>) -> Result<(), AllocError>
    ensures { OnOk result (string_bytes text.new ≡ string_bytes text.old ++ name_text name.now) }
{
    match name {
        None => text.push_str("-"),
        Some(name) => push_bytes(text, name.as_bytes()),
    }
}

fn push_bytes(text: &mut String, bytes: &[u8]) -> Result<(), AllocError>
    ensures { OnOk result (string_bytes text.new ≡ string_bytes text.old ++ flat_map byte_text bytes.now) }
{
    for byte in bytes {
        push_byte(text, *byte)?;
    }
    Ok(())
}

fn push_byte(text: &mut String, byte: u8) -> Result<(), AllocError>
    ensures { OnOk result (string_bytes text.new ≡ string_bytes text.old ++ byte_text byte) }
{
    if is_plain(byte) {
        return text.push(char::from(byte));
    }
    text.push_str("\\x")?;
    push_hex_byte(text, byte)
}

fn is_plain(byte: u8) -> bool
    ensures { result ≡ is_plain byte }
{
    (33..=126).contains(&byte) && byte != b'\\'
}

/// Writes bytes in lower-case hex.
pub(crate) fn push_hex(text: &mut String, bytes: &[u8]) -> Result<(), AllocError>
    ensures { OnOk result (string_bytes text.new ≡ string_bytes text.old ++ flat_map hex_byte bytes.now) }
{
    for byte in bytes {
        push_hex_byte(text, *byte)?;
    }
    Ok(())
}

#[tactic(auto, using(std::proofs::lemmas::Fmt::hex_byte))]
fn push_hex_byte(text: &mut String, byte: u8) -> Result<(), AllocError>
    ensures { OnOk result (string_bytes text.new ≡ string_bytes text.old ++ hex_byte byte) }
{
    write!(text, "{byte:02x}")
}
