//! The lines of a heading, written in small pieces. Writing them takes no memory.
ghost use Rattle.std.specs.Prelude.{◌≡◌, ◌++◌, is_err, IfErr, OnOk};
ghost use Rattle.std.specs.Io.KnownBytes.{Appends};
ghost use Rattle.hex.specs.Hex.{encode_lower};
ghost use Rattle.pb_parts.specs.Heading.{numbered, cubes_text, part_line, pieces_line, numbers_line};

use itoa::Buffer;
use pb_report::{Device, RunFault};
use std::io::Write;

/// `c part <task> of <tasks> of instance <digest>`
pub(crate) fn put_part<W: Write>(
    out: &mut Device<W>,
    task: u32,
    tasks: u32,
    instance: &[u8; 32],
) -> Result<(), RunFault>
    ensures written { OnOk result (Appends (W.contents out.old.held) (W.contents out.new.held) (part_line task tasks instance.now)) }
    ensures fault { IfErr result (λ fault. fault ≡ RunFault.Write) }
    ensures failed { out.new.failed ≡ is_err result }
{
    put_numbered(out, b"c part ", task)?;
    put_numbered(out, b" of ", tasks)?;
    put(out, b" of instance ")?;
    put_digest(out, instance)?;
    put(out, b"\n")
}

/// `c pieces <pieces> split <split> cubes <digest or none>`
pub(crate) fn put_pieces<W: Write>(
    out: &mut Device<W>,
    pieces: u32,
    split: u32,
    cubes: &Option<[u8; 32]>,
) -> Result<(), RunFault>
    ensures written { OnOk result (Appends (W.contents out.old.held) (W.contents out.new.held) (pieces_line pieces split cubes.now)) }
    ensures fault { IfErr result (λ fault. fault ≡ RunFault.Write) }
    ensures failed { out.new.failed ≡ is_err result }
{
    put_numbered(out, b"c pieces ", pieces)?;
    put_numbered(out, b" split ", split)?;
    put(out, b" cubes ")?;
    put_cubes(out, cubes)?;
    put(out, b"\n")
}

/// Writes a text, and the numbers after it, each after a space.
pub(crate) fn put_numbers<W: Write>(
    out: &mut Device<W>,
    text: &[u8],
    numbers: &[u32],
) -> Result<(), RunFault>
    ensures written { OnOk result (Appends (W.contents out.old.held) (W.contents out.new.held) (numbers_line text.now numbers.now)) }
    ensures fault { IfErr result (λ fault. fault ≡ RunFault.Write) }
    ensures failed { out.new.failed ≡ is_err result }
{
    put(out, text)?;
    for number in numbers {
        put_numbered(out, b" ", *number)?;
    }
    put(out, b"\n")
}

/// Writes the digest of the cube file, or `none`.
fn put_cubes<W: Write>(out: &mut Device<W>, cubes: &Option<[u8; 32]>) -> Result<(), RunFault>
    ensures written { OnOk result (Appends (W.contents out.old.held) (W.contents out.new.held) (cubes_text cubes.now)) }
    ensures fault { IfErr result (λ fault. fault ≡ RunFault.Write) }
    ensures failed { out.new.failed ≡ is_err result }
{
    match cubes {
        None => put(out, b"none"),
        Some(digest) => put_digest(out, digest),
    }
}

/// Writes a digest in hex digits.
fn put_digest<W: Write>(out: &mut Device<W>, digest: &[u8; 32]) -> Result<(), RunFault>
    ensures written { OnOk result (Appends (W.contents out.old.held) (W.contents out.new.held) (encode_lower digest.now)) }
    ensures fault { IfErr result (λ fault. fault ≡ RunFault.Write) }
    ensures failed { out.new.failed ≡ is_err result }
{
    let mut digits = [0; 64];
    // There is room for two digits of each byte, so this cannot fail.
    let _ = hex::encode_to_slice(digest.as_slice(), &mut digits);
    put(out, &digits)
}

/// Writes a text, and a number after it.
fn put_numbered<W: Write>(out: &mut Device<W>, text: &[u8], number: u32) -> Result<(), RunFault>
    ensures written { OnOk result (Appends (W.contents out.old.held) (W.contents out.new.held) (numbered text.now number)) }
    ensures fault { IfErr result (λ fault. fault ≡ RunFault.Write) }
    ensures failed { out.new.failed ≡ is_err result }
{
    put(out, text)?;
    put(out, Buffer::new().format(number).as_bytes())
}

/// Writes all of the bytes. To a device that has failed it writes nothing.
fn put<W: Write>(out: &mut Device<W>, bytes: &[u8]) -> Result<(), RunFault>
    ensures written { OnOk result (Appends (W.contents out.old.held) (W.contents out.new.held) bytes.now) }
    ensures fault { IfErr result (λ fault. fault ≡ RunFault.Write) }
    ensures failed { out.new.failed ≡ is_err result }
{
    if out.failed() {
        return Err(RunFault::Write);
    }
    let mut rest = bytes;
    while !rest.is_empty() {
        match out.write(rest) {
            Ok(taken) => rest = &rest[taken..],
            Err(_) => return Err(RunFault::Write),
        }
    }
    Ok(())
}
