//! What keeps the program from a report, and how it tells.
ghost use Rattle.std.specs.Prelude.{◌≡◌, OnOk};
ghost use Rattle.std.specs.Io.KnownBytes.{Appends};
ghost use Rattle.pb_program.specs.Telling.{fault_line};

use std::io::{self, Write};

/// What keeps the program from a report.
#[derive(Clone, Copy)]
pub enum ProgramFault<'a> {
    /// The file of this name cannot be opened or read.
    CannotRead(&'a str),
    /// The output does not take what is written to it.
    CannotWrite,
}

/// Writes one line to the standard error.
pub fn tell<E: Write>(fault: ProgramFault<'_>, err: &mut E) -> io::Result<()>
    ensures { OnOk result (Appends (E.contents err.old) (E.contents err.new) (fault_line fault.entry)) }
{
    match fault {
        ProgramFault::CannotRead(name) => writeln!(err, "pbcube: cannot read {name}"),
        ProgramFault::CannotWrite => writeln!(err, "pbcube: cannot write"),
    }
}
