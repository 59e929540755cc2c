//! Counting the pieces, by the words and by the indexes of folders.
ghost use Rattle.std.specs.Prelude.{◌≡◌, ◌≤◌, IfOk, IfSome, OnOk};
ghost use Rattle.hex.specs.Hex.{encode_lower};
ghost use Rattle.pb_files.specs.Reading.{CountsPieces};
ghost use Rattle.pb_files.specs.Texts.{texts};
ghost use Rattle.pb_files.specs.Writing.{index_lines};

use crate::files::Files;
use crate::index::index_of;
use crate::lines::{line_at, tells_other_digest};
use crate::reports::{Unread, fault_at, read_file, report_of_task};
use crate::reports_fault::{IndexFault, Refusal, ReportsFault};
use crate::whole::Whole;
use pb_cubes::MAX_CUBES;
use pb_read::Format;
use std::alloc::Global;

/// The number of the instance's pieces: the one that is asked for, if any, and that of these indexes, each of which has to be the
/// index of the instance. Where neither gives a number, the fault is `NoNumber`, or that one of these reports is of a task.
pub fn count_pieces<'a, F: Files>(
    alloc: Global,
    format: Format,
    whole: &Whole,
    asked: Option<u32>,
    indexes: Vec<String>,
    reports: &[String],
    files: &mut F,
) -> Result<u32, ReportsFault<'a>>
    requires { IfSome asked (λ n. 1 ≤ n) }
    ensures counted { IfOk result (λ pieces. CountsPieces F.reads format whole.now.instance.vars whole.now.digest asked (texts indexes) pieces files.old files.new) }
    ensures some { IfOk result (λ pieces. 1 ≤ pieces) }
{
    let mut pieces = asked;
    for place in 0..indexes.len() {
        match read_index(alloc, format, whole, pieces, &indexes[place], files) {
            Ok(told) => pieces = Some(told),
            Err(why) => return Err(fault_at(indexes, place, why)),
        }
    }
    match pieces {
        Some(pieces) => Ok(pieces),
        None => Err(without_number(&whole.digest, reports, files)),
    }
}

/// Why there is no number of pieces: the first of these reports that is of a task, or else that nothing tells the number.
fn without_number<'a, F: Files>(
    digest: &[u8; 32],
    reports: &[String],
    files: &mut F,
) -> ReportsFault<'a> {
    match report_of_task(digest, reports, files) {
        Ok(Some((name, tasks))) => match name.clone() {
            Ok(name) => ReportsFault::Report(name, Refusal::OfTask(tasks)),
            Err(_) => ReportsFault::Memory,
        },
        Ok(None) => ReportsFault::NoNumber,
        Err(_) => ReportsFault::Memory,
    }
}

/// The number of pieces that the index of this name tells. It has to be the one that is known, if any.
fn read_index<F: Files>(
    alloc: Global,
    format: Format,
    whole: &Whole,
    known: Option<u32>,
    name: &str,
    files: &mut F,
) -> Result<u32, Unread>
    ensures known { IfOk result (λ told. IfSome known (λ n. told ≡ n)) }
    ensures some { IfOk result (λ told. 1 ≤ told) }
    ensures read { IfOk result (λ told. F.reads files.old name.now (index_lines format told whole.now.instance.vars (encode_lower whole.now.digest)) files.new) }
{
    let text = read_file(name, files)?;
    if tells_other_digest(line_at(&text, 3), b"sha256 ", &whole.digest) {
        return Err(Unread::Refused(Refusal::Index(IndexFault::OtherDigest)));
    }
    let told = number_told(&text, known)?;
    check_index(alloc, format, whole, told, &text)?;
    Ok(told)
}

/// The number of pieces that the text of an index seems to tell. It has to be the one that is known, if any.
fn number_told(text: &[u8], known: Option<u32>) -> Result<u32, Unread>
    ensures known { IfOk result (λ told. IfSome known (λ n. told ≡ n)) }
    ensures some { IfOk result (λ told. 1 ≤ told) }
{
    let Some(told) = first_number(text) else {
        return Err(Unread::Refused(Refusal::Index(IndexFault::NoNumber)));
    };
    match known {
        Some(known) if known != told => {
            let other = IndexFault::OtherNumber(told, known);
            Err(Unread::Refused(Refusal::Index(other)))
        }
        _ => Ok(told),
    }
}

/// The number of pieces at its place in the first line, if it is within the limits.
fn first_number(text: &[u8]) -> Option<u32>
    ensures { IfSome result (λ told. 1 ≤ told) }
{
    let mut number: u32 = 0;
    for byte in text.get(b"pieces ".len()..)? {
        if !byte.is_ascii_digit() {
            break;
        }
        let digit = u32::from(byte.saturating_sub(b'0'));
        number = number.saturating_mul(10).saturating_add(digit);
    }
    match number.checked_sub(1) {
        Some(cubes) if cubes as usize <= MAX_CUBES => Some(number),
        _ => None,
    }
}

/// Refuses a text that is not, byte for byte, that of the index of `pieces` pieces of the instance.
fn check_index(
    alloc: Global,
    format: Format,
    whole: &Whole,
    pieces: u32,
    text: &[u8],
) -> Result<(), Unread>
    ensures { OnOk result (text.now ≡ index_lines format pieces whole.now.instance.vars (encode_lower whole.now.digest)) }
{
    let vars = whole.instance.vars();
    let Ok(expected) = index_of(alloc, format, pieces, vars, whole.digest) else {
        return Err(Unread::Memory);
    };
    if *text == *expected.as_slice() {
        return Ok(());
    }
    let fault = match first_difference(text, &expected) {
        4 => IndexFault::OtherDigest,
        line => IndexFault::OtherLine(line),
    };
    Err(Unread::Refused(Refusal::Index(fault)))
}

/// The line, counted from 1, at which the texts begin to differ.
fn first_difference(text: &[u8], expected: &[u8]) -> usize {
    let mut line: usize = 1;
    for (byte, wanted) in text.iter().zip(expected) {
        if byte != wanted {
            break;
        }
        if *byte == b'\n' {
            line = line.saturating_add(1);
        }
    }
    line
}
