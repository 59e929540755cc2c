//! Finding the first variable whose number is out of range.
use crate::opb::{are_digits, ends_word, variable};
use crate::places::moved;
use bstr::ByteSlice;
use pb_read::Format;
use std::ops::Range;

/// The number of variables that the header of a formula tells.
pub fn told(text: &[u8]) -> Option<u64> {
    number_in_header(text, 2)
}

/// The number of clauses that the header of a formula tells.
pub fn clauses_told(text: &[u8]) -> Option<u64> {
    number_in_header(text, 3)
}

/// The number at this place of the header, whose first word has place 0.
fn number_in_header(text: &[u8], place: usize) -> Option<u64> {
    for line in text.lines() {
        let mut words = line.fields();
        if words.next() == Some(b"p".as_slice()) {
            return number_of(words.nth(place.saturating_sub(1))?);
        }
    }
    None
}

/// The first literal whose variable is over the greatest number, or is 0 in a format where 0 ends no list.
pub fn misnumbered(format: Format, text: &[u8], greatest: u64) -> Option<Range<usize>> {
    let comment = if format.is_clausal() { b"c" } else { b"*" };
    let mut start: usize = 0;
    for line in text.lines_with_terminator() {
        if !line.trim_start().starts_with(comment) {
            if let Some(bounds) = misnumbered_on(format, line, greatest) {
                return Some(moved(bounds, start));
            }
        }
        start = start.saturating_add(line.len());
    }
    None
}

/// Where on a line the first such literal stands.
fn misnumbered_on(format: Format, line: &[u8], greatest: u64) -> Option<Range<usize>> {
    let mut start: usize = 0;
    for word in line.split(|byte| ends_word(*byte)) {
        let end = start.saturating_add(word.len());
        if is_misnumbered(format, word, greatest) {
            return Some(start..end);
        }
        start = end.saturating_add(1);
    }
    None
}

fn is_misnumbered(format: Format, word: &[u8], greatest: u64) -> bool {
    if format.is_clausal() {
        number_of(word.strip_prefix(b"-").unwrap_or(word)).is_some_and(|number| number > greatest)
    } else {
        variable(word)
            .and_then(number_of)
            .is_some_and(|number| number == 0 || number > greatest)
    }
}

/// The number that these digits spell, or the greatest of 64 bits where it is larger; none where they are not digits.
fn number_of(digits: &[u8]) -> Option<u64> {
    if !are_digits(digits) {
        return None;
    }
    let mut number: u64 = 0;
    for digit in digits {
        let value = u64::from(digit.saturating_sub(b'0'));
        number = number.saturating_mul(10).saturating_add(value);
    }
    Some(number)
}
