//! Stored texts, whose lines are told apart by how they begin.

ghost use Rattle.std.specs.Prelude.{◌≡◌, ◌++◌, [], if◌then◌else◌, length, take, drop, IfOk, OnOk, string_bytes};
ghost use Rattle.std.specs.List.{flat_map};
ghost use Rattle.std.specs.Str.{bytes_eq};
ghost use Rattle.std.specs.Str.Lines.{lines};
ghost use Rattle.hex.specs.Hex.{decode_of};
ghost use Rattle.fl_testing.specs.Inside.Stored.{behind, marked};

use hex::FromHexError;
use std::alloc::{AllocError, Global};

// Adds what a line that begins with the mark has behind it.
fn add_behind(text: &mut String, line: &str, mark: &str) -> Result<(), AllocError>
    ensures { OnOk result (string_bytes text.new ≡ string_bytes text.old ++ behind mark.now line.now) }
{
    if let Some(rest) = line.strip_prefix(mark) {
        text.push_str(rest)?;
    }
    Ok(())
}

// What the lines of a text that begin with the mark have behind it, all in a row.
fn marked(alloc: Global, text: &str, mark: &str) -> Result<String, AllocError>
    ensures { IfOk result (λ found. string_bytes found ≡ marked mark.now text.now) }
{
    let mut found = String::new(alloc);
    for line in text.lines() {
        add_behind(&mut found, line, mark)?;
    }
    Ok(found)
}

/// The bytes that are spelled in hex by the lines that begin with a mark, all in a row.
pub fn bytes_after(alloc: Global, text: &str, mark: &str) -> Result<Vec<u8>, FromHexError>
    ensures { IfOk result (λ bytes. decode_of (flat_map (λ line.
        if bytes_eq (take (length mark.now) line) mark.now then drop (length mark.now) line else [])
        (lines text.now)) ≡ Ok bytes.items) }
{
    let digits = marked(alloc, text, mark)?;
    hex::decode(alloc, digits.as_str())
}
