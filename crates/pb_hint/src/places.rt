//! Words by line and column.
ghost use Rattle.std.specs.Prelude.{◌<◌, ◌≤◌, ◌⊎◌, length, IfSome, IfNone};
ghost use Rattle.pb_hint.specs.Places.{IsPosition, StandsAfter};

use bstr::ByteSlice;
use std::ops::Range;
use thiserror::Error;

/// A word, and where it stands: its line, from 1, and its column in bytes, from 1. Of a long word it keeps the first bytes. It is
/// shown with escapes for bytes that do not print or are not ASCII.
#[derive(Clone, Copy, Debug, PartialEq, Eq, Error)]
#[error("line {line}, column {column}: '{}'", self.word.escape_ascii())]
pub struct Place<'t> {
    pub line: u64,
    pub column: u64,
    pub word: &'t [u8],
}

/// The most bytes of a word that a place shows. Chosen by hand, so that a hint stays short.
const LONGEST: usize = 40;

/// The place of the word between these bounds, wherever they come from: none only where they are no bounds of a word in the text.
pub fn locate<'t>(text: &'t [u8], bounds: Range<usize>) -> Option<Place<'t>>
    ensures place { IfSome result (StandsAfter text.now bounds.start) }
    ensures none { IfNone result ((bounds.end ≤ bounds.start) ⊎ (length text.now < bounds.end)) }
{
    let (before, rest) = text.split_at_checked(bounds.start)?;
    let len = bounds.end.checked_sub(bounds.start)?;
    let (word, _) = rest.split_at_checked(len.min(LONGEST))?;
    if word.is_empty() {
        return None;
    }
    let (line, column) = position_after(before);
    Some(Place { line, column, word })
}

/// The line and the column of what follows these bytes of a text.
fn position_after(before: &[u8]) -> (u64, u64)
    ensures { IsPosition before.now result.0 result.1 }
{
    let (mut line, mut column) = (1, 1);
    for byte in before {
        if *byte == b'\n' {
            line += 1;
            column = 1;
        } else {
            column += 1;
        }
    }
    (line, column)
}

/// Where the line of this number begins, the first one being 1, or the end of a text that has no such line.
pub fn start_of_line(text: &[u8], line: u64) -> usize {
    let mut number = 1;
    let mut start: usize = 0;
    for text_line in text.lines_with_terminator() {
        if number >= line {
            break;
        }
        number += 1;
        start = start.saturating_add(text_line.len());
    }
    start
}

/// The bounds, moved on by `by` bytes.
pub fn moved(bounds: Range<usize>, by: usize) -> Range<usize> {
    bounds.start.saturating_add(by)..bounds.end.saturating_add(by)
}
