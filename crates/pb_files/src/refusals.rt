//! Reading the report of a task that refuses its input.
ghost use Rattle.std.specs.Prelude.{◌≡◌, IfOk, IfSome};
ghost use Rattle.pb_report.specs.Written.{refusal_report};

use crate::lines::line_at;
use crate::reports::Unread;
use pb_read::{ReadFault, ReadKind};
use pb_report::{Device, Refusal, report_refusal};
use std::alloc::Global;
use std::str;

/// What the text refuses, where it is, byte for byte, the report of a run or a task that refuses its input. Fails only where memory
/// runs out.
pub fn read_refusal(alloc: Global, text: &[u8]) -> Result<Option<Refusal>, Unread>
    ensures { IfOk result (λ read. IfSome read (λ refusal. text.now ≡ refusal_report refusal)) }
{
    let Some(refusal) = propose_refusal(text) else {
        return Ok(None);
    };
    let report = refusal_text(alloc, refusal)?;
    if *text == *report.as_slice() {
        Ok(Some(refusal))
    } else {
        Ok(None)
    }
}

/// The report that refuses this. Fails only where memory runs out.
pub fn refusal_text(alloc: Global, refusal: Refusal) -> Result<Vec<u8>, Unread>
    ensures { IfOk result (λ text. text.items ≡ refusal_report refusal) }
{
    let mut report = Device::new(Vec::new(alloc));
    match report_refusal(&mut report, refusal) {
        Ok(_) => Ok(report.into_inner()),
        Err(_) => Err(Unread::Memory),
    }
}

/// What the first line seems to refuse. It is not proved to, since the reader writes the report again and compares.
fn propose_refusal(text: &[u8]) -> Option<Refusal> {
    let line = str::from_utf8(line_at(text, 0)).ok()?;
    match line.strip_prefix("c refused")? {
        " split: BadSplit" => Some(Refusal::Split),
        " cubes: TooMany" => Some(Refusal::TooManyCubes),
        said => match said.strip_prefix(" cubes: ") {
            Some(fault) => Some(Refusal::Cubes(propose_fault(fault)?)),
            None => Some(Refusal::Input(propose_fault(said.strip_prefix(": ")?)?)),
        },
    }
}

/// The fault that is told as `<kind> at line <line>`.
fn propose_fault(said: &str) -> Option<ReadFault> {
    let (name, line) = said.split_once(" at line ")?;
    Some(ReadFault {
        kind: kind_of(name)?,
        line: line.parse().ok()?,
    })
}

/// The kind of fault of this name. No input is refused for want of memory.
fn kind_of(name: &str) -> Option<ReadKind> {
    match name {
        "Unfinished" => Some(ReadKind::Unfinished),
        "Syntax" => Some(ReadKind::Syntax),
        "NonLinear" => Some(ReadKind::NonLinear),
        "LateObjective" => Some(ReadKind::LateObjective),
        "BadVariable" => Some(ReadKind::BadVariable),
        "TooLarge" => Some(ReadKind::TooLarge),
        "TooMany" => Some(ReadKind::TooMany),
        "BadHeader" => Some(ReadKind::BadHeader),
        "TooFewClauses" => Some(ReadKind::TooFewClauses),
        "TooManyClauses" => Some(ReadKind::TooManyClauses),
        "ClauseAfterCube" => Some(ReadKind::ClauseAfterCube),
        _ => None,
    }
}
