//! What commands print to standard output.

ghost use Rattle.std.specs.Prelude.{OnOk, IfErr, IsOkAnd, string_bytes};
ghost use Rattle.std.specs.Io.KnownBytes.{Appends};
ghost use Rattle.commands.specs.Stops.{IsUnwritten};

use crate::stop::{Stop, unwritten};
use std::alloc::AllocError;
use std::io::Write;

/// Writes a text to standard output.
pub fn print<O: Write>(stdout: &mut O, text: &str) -> Result<(), Stop>
    ensures ok { OnOk result (Appends (O.contents stdout.old) (O.contents stdout.new) text.now) }
    ensures err { IfErr result IsUnwritten }
{
    match stdout.write_all(text.as_bytes()) {
        Ok(()) => Ok(()),
        Err(error) => Err(unwritten(&error)),
    }
}

/// Writes a line to standard output, if there was memory for it.
pub fn print_line<O: Write>(stdout: &mut O, line: Result<String, AllocError>) -> Result<(), Stop>
    ensures ok { OnOk result (IsOkAnd line (λ text. Appends (O.contents stdout.old) (O.contents stdout.new) (string_bytes text))) }
    ensures err { IfErr result IsUnwritten }
{
    print(stdout, line?.as_str())
}
