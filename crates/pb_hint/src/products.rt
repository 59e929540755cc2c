//! Finding the first product in OPB.
//! Source: [OPB]
use crate::opb::{ends_word, is_literal};
use crate::places::moved;
use bstr::ByteSlice;
use std::ops::Range;

/// The first literal that stands right behind another one.
pub fn second_literal(text: &[u8]) -> Option<Range<usize>> {
    let mut is_behind = false;
    let mut start: usize = 0;
    for line in text.lines_with_terminator() {
        if !line.trim_start().starts_with(b"*") {
            match second_literal_on(line, is_behind) {
                Ok(after) => is_behind = after,
                Err(bounds) => return Some(moved(bounds, start)),
            }
        }
        start = start.saturating_add(line.len());
    }
    None
}

/// Whether the line ends right behind a literal, or the place on it of the first literal right behind another one. `is_behind`
/// tells whether the line begins behind a literal.
fn second_literal_on(line: &[u8], is_behind: bool) -> Result<bool, Range<usize>> {
    let mut is_behind = is_behind;
    let mut start: usize = 0;
    for word in line.split(|byte| ends_word(*byte)) {
        let end = start.saturating_add(word.len());
        if is_literal(word) {
            if is_behind {
                return Err(start..end);
            }
            is_behind = true;
        } else if !word.is_empty() {
            is_behind = false;
        }
        start = end.saturating_add(1);
    }
    Ok(is_behind)
}
