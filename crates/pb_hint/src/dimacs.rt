//! Finding the first word of a formula or of cubes that cannot stand there.
//! Source: [DIMACS], [ICNF]
use crate::advice::Advice;
use crate::opb::{are_digits, is_relation};
use crate::places::moved;
use crate::rules::Rule;
use crate::spelling::{advice_on_unicode, begins_comment, begins_comment_line, is_operator};
use bstr::ByteSlice;
use std::ops::Range;

/// The first word that is neither a literal nor a 0. Where there are cubes, an `a` at the start of a line passes. A line that
/// begins with `%` ends the text.
pub fn misplaced(text: &[u8], has_cubes: bool) -> Option<Range<usize>> {
    let mut start: usize = 0;
    for line in text.lines_with_terminator() {
        let front = line.trim_start();
        if front.starts_with(b"%") {
            return None;
        }
        if !front.starts_with(b"c") {
            if let Some(bounds) = misplaced_on(line, has_cubes) {
                return Some(moved(bounds, start));
            }
        }
        start = start.saturating_add(line.len());
    }
    None
}

/// Where on a line the first such word stands.
fn misplaced_on(line: &[u8], has_cubes: bool) -> Option<Range<usize>> {
    let mut start = None;
    let mut may_be_mark = has_cubes;
    for (at, byte) in line.iter().enumerate() {
        let is_blank = matches!(*byte, b' ' | b'\t' | b'\r' | b'\n');
        match start {
            None if !is_blank => start = Some(at),
            Some(from) if is_blank => {
                if !may_stand(line, from..at, may_be_mark) {
                    return Some(from..at);
                }
                may_be_mark = false;
                start = None;
            }
            _ => {}
        }
    }
    let from = start?;
    (!may_stand(line, from..line.len(), may_be_mark)).then_some(from..line.len())
}

/// Whether the word between these bounds is a literal, a 0, or the `a` that marks a cube where one may stand.
fn may_stand(line: &[u8], bounds: Range<usize>, may_be_mark: bool) -> bool {
    let word = line.get(bounds).unwrap_or_default();
    match word.strip_prefix(b"-") {
        Some(digits) => are_digits(digits) && digits.iter().any(|digit| *digit != b'0'),
        None => are_digits(word) || (may_be_mark && word == b"a".as_slice()),
    }
}

/// What to write in place of such a word, if it begins its line or not. Where there are cubes, a word of letters is taken for the
/// `a` of a cube.
pub fn advice_on(word: &[u8], is_first: bool, has_cubes: bool) -> Option<Advice> {
    if is_comment(word, is_first) {
        return Some(Advice::Comment("c"));
    }
    if let Some(advice) = advice_on_unicode(word) {
        return Some(advice);
    }
    let is_name = word.first().is_some_and(|byte| byte.is_ascii_alphabetic());
    if word.find_byte(b';').is_some() {
        Some(Advice::Keep(Rule::EndClauses))
    } else if is_list(word) {
        Some(Advice::Space)
    } else if word == b"p".as_slice() {
        Some(Advice::HeadOnce)
    } else if word.strip_prefix(b"-").is_some_and(are_digits) {
        Some(Advice::Zero)
    } else if has_cubes && is_name && !word.starts_with(b"x") {
        Some(Advice::Keep(Rule::CubeLine))
    } else if word == b"a".as_slice() {
        Some(Advice::Cube)
    } else if is_operator(word) || word == b"e".as_slice() || is_relation(word) {
        None
    } else {
        Some(Advice::Number)
    }
}

/// Whether the word begins a comment, if it begins its line or not.
fn is_comment(word: &[u8], is_first: bool) -> bool {
    let is_mark = word == b"c".as_slice() || word.starts_with(b"*") || begins_comment(word);
    is_mark || (is_first && (word == b";".as_slice() || begins_comment_line(word)))
}

/// Whether commas separate numbers in the word.
fn is_list(word: &[u8]) -> bool {
    word.find_byte(b',').is_some()
        && word.iter().all(|byte| byte.is_ascii_digit() || matches!(*byte, b',' | b'-'))
}

/// The `%` that ends the text, where it begins a line with more words, or a line behind it has a word other than 0.
pub fn early_end(text: &[u8]) -> Option<Range<usize>> {
    let mut start: usize = 0;
    let mut end = None;
    for line in text.lines_with_terminator() {
        let front = line.trim_start();
        let at = start.saturating_add(line.len().saturating_sub(front.len()));
        if end.is_none() && front.starts_with(b"%") {
            end = Some(at..at.saturating_add(1));
            if front.trim_end() != b"%".as_slice() {
                return end;
            }
        } else if end.is_some()
            && !front.starts_with(b"c")
            && !line.fields().all(|word| word == b"0".as_slice())
        {
            return end;
        }
        start = start.saturating_add(line.len());
    }
    None
}

/// How many clauses end in the text, which has a header. A line that begins with `%` ends the text.
pub fn clauses(text: &[u8]) -> u64 {
    let mut count: u64 = 0;
    for line in text.lines() {
        let line = line.trim_start();
        if line.starts_with(b"%") {
            break;
        }
        if !line.starts_with(b"c") && !line.starts_with(b"p") {
            count = count.saturating_add(ends(line));
        }
    }
    count
}

/// How many clauses end on the line.
fn ends(line: &[u8]) -> u64 {
    let mut count: u64 = 0;
    for word in line.fields() {
        if word.iter().all(|byte| *byte == b'0') {
            count = count.saturating_add(1);
        }
    }
    count
}
