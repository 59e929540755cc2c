//! What the lines of a heading seem to say. Nothing here is proved, since the reader writes each line again and compares.
ghost use Rattle.std.specs.Prelude.{◌≡◌};

use crate::faults::PartKind;
use bstr::ByteSlice;
use hex::FromHex;
use std::alloc::Global;
use std::str;

/// What the first line says.
#[derive(Clone, Copy)]
pub(crate) struct PartLine {
    pub(crate) task: u32,
    pub(crate) tasks: u32,
    pub(crate) instance: [u8; 32],
}

/// What the second line says.
#[derive(Clone, Copy)]
pub(crate) struct PiecesLine {
    pub(crate) pieces: u32,
    pub(crate) split: u32,
    pub(crate) cubes: Option<[u8; 32]>,
}

/// `c part <task> of <tasks> of instance <digest>`
pub(crate) fn propose_part(text: &[u8]) -> Option<PartLine> {
    let mut words = text.lines().next()?.fields();
    Some(PartLine {
        task: number_of(words.nth(2)?)?,
        tasks: number_of(words.nth(1)?)?,
        instance: digest_of(words.nth(2)?)?,
    })
}

/// `c pieces <pieces> split <split> cubes <digest or none>`
pub(crate) fn propose_pieces(text: &[u8]) -> Option<PiecesLine> {
    let mut words = text.lines().next()?.fields();
    Some(PiecesLine {
        pieces: number_of(words.nth(2)?)?,
        split: number_of(words.nth(1)?)?,
        cubes: digest_of(words.nth(1)?),
    })
}

/// The numbers behind the first two words of the line.
pub(crate) fn propose_numbers(alloc: Global, text: &[u8]) -> Result<Vec<u32>, PartKind> {
    let mut numbers = Vec::new(alloc);
    let line = text.lines().next().unwrap_or(b"");
    for word in line.fields().skip(2) {
        let number = number_of(word).ok_or(PartKind::Heading)?;
        numbers.push(number)?;
    }
    Ok(numbers)
}

/// The number that digits write, where it fits 32 bits.
fn number_of(word: &[u8]) -> Option<u32> {
    str::from_utf8(word).ok()?.parse().ok()
}

/// The digest that hex digits write.
fn digest_of(word: &[u8]) -> Option<[u8; 32]> {
    <[u8; 32] as FromHex>::from_hex(word).ok()
}
