//! The formats that are written, and their headers.
//! Source: [OPB], [DIMACS]
ghost use Rattle.std.specs.Prelude.{◌≡◌, OnOk};
ghost use Rattle.pb_write.specs.Written.{Adds, written_format as format_written};
ghost use Rattle.pb_write.specs.Text.{header_start, header_middle, header_text};

use crate::put::{put, put_number};
use pb_read::Format;
use std::io::{self, Write};

/// The format in which an instance of this format is written. An instance of iCNF is written as CNF, since its header keeps the
/// number of variables, for which iCNF has no place, and since other solvers read it.
pub fn written_format(format: Format) -> Format
    ensures { result ≡ format_written format }
{
    if format.is_clausal() {
        Format::Cnf
    } else {
        Format::Opb
    }
}

/// Writes the header line, with the numbers of variables and of constraints.
pub(crate) fn put_header<W: Write>(
    out: &mut W,
    format: Format,
    vars: u32,
    constraints: usize,
) -> io::Result<()>
    ensures { OnOk result (Adds W.contents out.old out.new (header_text format vars constraints)) }
{
    put(out, start_of(format))?;
    put_number(out, vars)?;
    put(out, middle_of(format))?;
    put_number(out, constraints)?;
    put(out, b"\n")
}

fn start_of(format: Format) -> &'static [u8]
    ensures { result.now ≡ header_start format }
{
    if format.is_clausal() {
        b"p cnf "
    } else {
        b"* #variable= "
    }
}

fn middle_of(format: Format) -> &'static [u8]
    ensures { result.now ≡ header_middle format }
{
    if format.is_clausal() {
        b" "
    } else {
        b" #constraint= "
    }
}
