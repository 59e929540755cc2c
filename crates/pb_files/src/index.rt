//! The index of the pieces.
ghost use Rattle.std.specs.Prelude.{◌≡◌, ◌-◌, ◌≤◌, IfOk, OnOk};
ghost use Rattle.std.specs.Io.KnownBytes.{Appends};
ghost use Rattle.hex.specs.Hex.{encode_lower};
ghost use Rattle.pb_files.specs.Names.{written_name};
ghost use Rattle.pb_files.specs.Writing.{index_lines, name_lines};

use crate::piece_names::piece_name;
use pb_read::Format;
use pb_write::written_format;
use std::alloc::Global;
use std::io::{self, Write};

/// What the index tells of all pieces.
#[derive(Clone, Copy)]
struct Index<'a> {
    /// The format in which the instance was written.
    format: Format,
    /// The number of pieces, at least 1.
    pieces: u32,
    /// The number of variables.
    vars: u32,
    /// The digest of the instance's text, as hex digits.
    digest: &'a str,
}

/// The text of the index of `pieces` pieces of an instance in this format, of `vars` variables, whose text has this digest. Fails
/// only where memory runs out.
pub fn index_of(
    alloc: Global,
    format: Format,
    pieces: u32,
    vars: u32,
    digest: [u8; 32],
) -> io::Result<Vec<u8>>
    ensures { IfOk result (λ text. text.items ≡ index_lines format pieces vars (encode_lower digest)) }
{
    let digest = hex::encode(alloc, digest)?;
    let told = Index {
        format,
        pieces,
        vars,
        digest: &digest,
    };
    let mut text = Vec::new(alloc);
    write_index(alloc, &mut text, &told)?;
    Ok(text)
}

/// Writes the index: the number of pieces, the format in which they are written, the number of variables, the digest of the
/// instance's text, and the pieces' names in order, each on a line.
fn write_index<W: Write>(alloc: Global, out: &mut W, index: &Index<'_>) -> io::Result<()>
    ensures { OnOk result (Appends (W.contents out.old) (W.contents out.new) (index_lines index.now.format index.now.pieces index.now.vars index.now.digest.now)) }
{
    writeln!(out, "pieces {}", index.pieces)?;
    writeln!(out, "format {}", name_of(index.format))?;
    writeln!(out, "variables {}", index.vars)?;
    writeln!(out, "sha256 {}", index.digest)?;
    write_names(alloc, out, index.format, index.pieces)
}

/// Writes the names of the pieces in order, each on a line.
fn write_names<W: Write>(alloc: Global, out: &mut W, format: Format, pieces: u32) -> io::Result<()>
    ensures { OnOk result (Appends (W.contents out.old) (W.contents out.new) (name_lines format (pieces - 1) pieces)) }
{
    let last = pieces.saturating_sub(1);
    for number in 0..pieces {
        let name = piece_name(alloc, format, number, last)?;
        writeln!(out, "{name}")?;
    }
    Ok(())
}

/// The name of the format in which the pieces are written.
fn name_of(format: Format) -> &'static str
    ensures { result.now ≡ written_name format }
{
    match written_format(format) {
        Format::Opb => "opb",
        Format::Cnf | Format::Icnf => "cnf",
    }
}
