//! The version of the program.

ghost use Rattle.std.specs.Prelude.{OnOk};
ghost use Rattle.std.specs.Io.KnownBytes.{Appends};
ghost use Rattle.lockd_cli.specs.Version.{version_line};

use std::io;
use std::io::Write;

/// The program's version.
pub const VERSION: &str = "0.1.0";

/// Writes the line that says the program's version.
pub fn print_version<W: Write>(output: &mut W) -> io::Result<()>
    ensures { OnOk result (Appends (W.contents output.old) (W.contents output.new) version_line) }
{
    writeln!(output, "lockd {VERSION}")
}
