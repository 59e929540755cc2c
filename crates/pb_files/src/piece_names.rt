//! The names of the files in the folder.
ghost use Rattle.std.specs.Prelude.{◌≡◌, ◌++◌, IfOk, codes, string_bytes};
ghost use Rattle.pb_files.specs.Names.{ending, piece_name as name_of_piece, path as path_of};

use itoa::Buffer;
use pb_read::Format;
use pb_write::written_format;
use std::alloc::{AllocError, Global};

/// The name of the index.
pub const INDEX: &str = "index";

/// The name of a piece: its number, with as many digits as the last one's, and the ending of the format in which it is
/// written.
pub fn piece_name(
    alloc: Global,
    format: Format,
    number: u32,
    last: u32,
) -> Result<String, AllocError>
    ensures { IfOk result (λ name. string_bytes name ≡ name_of_piece format number last) }
{
    let mut name = String::new(alloc);
    let mut of_last = Buffer::new();
    let mut of_number = Buffer::new();
    let width = of_last.format(last).len();
    let digits = of_number.format(number);
    for _ in digits.len()..width {
        name.push_str("0")?;
    }
    name.push_str(digits)?;
    name.push_str(ending_of(format))?;
    Ok(name)
}

/// The ending of the name of a text in this format.
fn ending_of(format: Format) -> &'static str
    ensures { result.now ≡ ending format }
{
    match written_format(format) {
        Format::Opb => ".opb",
        Format::Cnf | Format::Icnf => ".cnf",
    }
}

/// The path of the file of this name in the folder.
pub fn path(alloc: Global, folder: &str, name: &str) -> Result<String, AllocError>
    ensures { IfOk result (λ path. string_bytes path ≡ path_of folder.now name.now) }
{
    let mut path = String::from_str(alloc, folder)?;
    path.push_str("/")?;
    path.push_str(name)?;
    Ok(path)
}
