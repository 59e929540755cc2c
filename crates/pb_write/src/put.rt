//! Bytes and numbers on their way to a writer.
ghost use Rattle.std.specs.Prelude.{OnOk};
ghost use Rattle.pb_write.specs.Written.{Adds};

use itoa::{Buffer, Integer};
use std::io::{self, Write};

/// Writes the bytes.
pub(crate) fn put<W: Write>(out: &mut W, bytes: &[u8]) -> io::Result<()>
    ensures { OnOk result (Adds W.contents out.old out.new bytes.now) }
{
    out.write_all(bytes)
}

/// Writes the number's digits, behind a `-` where it is negative.
pub(crate) fn put_number<W: Write, I: Integer>(out: &mut W, number: I) -> io::Result<()>
    ensures { OnOk result (Adds W.contents out.old out.new (I.text number)) }
{
    put(out, Buffer::new().format(number).as_bytes())
}
