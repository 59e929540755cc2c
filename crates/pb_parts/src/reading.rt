//! Reading a part's report.
ghost use Rattle.std.specs.Prelude.{◌≡◌, ◌<◌, ◌++◌, IfOk};
ghost use Rattle.pb_parts.specs.Heading.{part_line, pieces_line, numbers_line};
ghost use Rattle.pb_parts.specs.Parts.{ArePieces, IsFit, IsPartReport, heading_text};

use crate::faults::{PartFault, PartKind};
use crate::fitting::{are_apart, check_numbers};
use crate::parts::{Division, Heading, PartReport};
use crate::proposals::{PartLine, PiecesLine, propose_numbers, propose_part, propose_pieces};
use crate::putting::{put_numbers, put_part, put_pieces};
use pb_read::Format;
use pb_report::{Device, ReportFault, ReportKind, read_report};
use std::alloc::Global;

/// The number of lines before the claim.
const HEADING_LINES: u64 = 4;

/// What a part's report says of an instance of `vars` variables.
///
/// It begins with the heading as `report_heading` writes it: a heading that is spelled otherwise in any byte is refused, and so
/// is one whose numbers no part can have. Then comes a report as `read_report` of `pb_report` reads it. The caller decides which
/// claims a part can make. Every other text is refused with its first fault.
pub fn read_part(
    alloc: Global,
    format: Format,
    vars: u32,
    text: &[u8],
) -> Result<PartReport, PartFault>
    ensures read { IfOk result (λ report. IsPartReport format vars text.now report) }
    ensures fit { IfOk result (λ report. IsFit report.heading) }
{
    let (heading, rest) = read_heading(alloc, text)?;
    match read_report(alloc, format, vars, rest) {
        Ok(claim) => Ok(PartReport { heading, claim }),
        Err(fault) => Err(after_heading(fault)),
    }
}

/// The heading of the text, and what comes after it.
fn read_heading<'a>(alloc: Global, text: &'a [u8]) -> Result<(Heading, &'a [u8]), PartFault>
    ensures spelled { IfOk result (λ read. text.now ≡ heading_text read.0 ++ read.1.now) }
    ensures fit { IfOk result (λ read. IsFit read.0) }
{
    let (first, rest) = read_part_line(alloc, text).map_err(|kind| fault_at(kind, 1))?;
    let (second, rest) = read_pieces_line(alloc, rest).map_err(|kind| fault_at(kind, 2))?;
    let PartLine {
        task,
        tasks,
        instance,
    } = first;
    let PiecesLine {
        pieces,
        split,
        cubes,
    } = second;
    let division = Division {
        instance,
        pieces,
        split,
        cubes,
        tasks,
    };
    let done = read_numbers(alloc, rest, b"c done", &division);
    let (done, rest) = done.map_err(|kind| fault_at(kind, 3))?;
    let cut = read_numbers(alloc, rest, b"c cut", &division);
    let (cut, rest) = cut.map_err(|kind| fault_at(kind, 4))?;
    if !are_apart(&done, &cut) {
        return Err(fault_at(PartKind::DoneAndCut, 4));
    }
    let heading = Heading {
        division,
        task,
        done,
        cut,
    };
    Ok((heading, rest))
}

/// The first line of the heading, and what comes after it.
fn read_part_line<'a>(alloc: Global, text: &'a [u8]) -> Result<(PartLine, &'a [u8]), PartKind>
    ensures spelled { IfOk result (λ read. text.now ≡ part_line read.0.task read.0.tasks read.0.instance ++ read.1.now) }
    ensures task { IfOk result (λ read. read.0.task < read.0.tasks) }
{
    let said = propose_part(text).ok_or(PartKind::Heading)?;
    let mut line = Device::new(Vec::new(alloc));
    if put_part(&mut line, said.task, said.tasks, &said.instance).is_err() {
        return Err(PartKind::Memory);
    }
    let rest = rest_after(text, &line.into_inner())?;
    if said.task >= said.tasks {
        return Err(PartKind::NoSuchTask);
    }
    Ok((said, rest))
}

/// The second line of the heading, and what comes after it.
fn read_pieces_line<'a>(alloc: Global, text: &'a [u8]) -> Result<(PiecesLine, &'a [u8]), PartKind>
    ensures { IfOk result (λ read. text.now ≡ pieces_line read.0.pieces read.0.split read.0.cubes ++ read.1.now) }
{
    let said = propose_pieces(text).ok_or(PartKind::Heading)?;
    let mut line = Device::new(Vec::new(alloc));
    if put_pieces(&mut line, said.pieces, said.split, &said.cubes).is_err() {
        return Err(PartKind::Memory);
    }
    let rest = rest_after(text, &line.into_inner())?;
    Ok((said, rest))
}

/// The numbers of pieces in a line that begins with these words, and what comes after it.
fn read_numbers<'a>(
    alloc: Global,
    text: &'a [u8],
    words: &[u8],
    division: &Division,
) -> Result<(Vec<u32>, &'a [u8]), PartKind>
    ensures spelled { IfOk result (λ read. text.now ≡ numbers_line words.now read.0.items ++ read.1.now) }
    ensures fit { IfOk result (λ read. ArePieces division.now read.0.items) }
{
    let numbers = propose_numbers(alloc, text)?;
    let mut line = Device::new(Vec::new(alloc));
    if put_numbers(&mut line, words, &numbers).is_err() {
        return Err(PartKind::Memory);
    }
    let rest = rest_after(text, &line.into_inner())?;
    check_numbers(&numbers, division)?;
    Ok((numbers, rest))
}

/// What comes after the line, where the text begins with it.
fn rest_after<'a>(text: &'a [u8], line: &[u8]) -> Result<&'a [u8], PartKind>
    ensures { IfOk result (λ rest. text.now ≡ line.now ++ rest.now) }
{
    text.strip_prefix(line).ok_or(PartKind::Heading)
}

/// The fault of the report that comes after the heading, with its line in the whole text.
fn after_heading(fault: ReportFault) -> PartFault {
    match fault.kind {
        ReportKind::Memory => fault_at(PartKind::Memory, 0),
        kind => fault_at(
            PartKind::Report(kind),
            fault.line.saturating_add(HEADING_LINES),
        ),
    }
}

/// The fault of this kind at a line. Where memory ran out it is at no line.
fn fault_at(kind: PartKind, line: u64) -> PartFault {
    let line = if kind == PartKind::Memory { 0 } else { line };
    PartFault { kind, line }
}
