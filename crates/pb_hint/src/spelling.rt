//! What to write in place of words that other formats have, or that are written by hand.
//! Source: [OPB]
use crate::advice::Advice;
use crate::beginnings::is_among;
use crate::opb::{are_digits, is_literal, unsigned};
use bstr::ByteSlice;

/// What to write in place of a word, wherever it stands, if its spelling tells.
pub fn advice_on_spelling(word: &[u8]) -> Option<Advice> {
    if let Some(advice) = advice_on_mark(word) {
        return Some(advice);
    }
    if let Some(advice) = advice_on_unicode(word) {
        return Some(advice);
    }
    if word == b"soft:".as_slice() {
        return Some(Advice::Harden);
    }
    if word.find_byteset(b"()").is_some() {
        return Some(Advice::Expand);
    }
    let name = word.strip_suffix(b":").unwrap_or(word);
    if is_among(name, &["min", "minimize", "minimise"]) && word != b"min:".as_slice() {
        return Some(Advice::Write("min:"));
    }
    if is_among(name, &["max", "maximize", "maximise"]) {
        return Some(Advice::Minimise);
    }
    if let Some(advice) = advice_on_factors(unsigned(word)) {
        return Some(advice);
    }
    advice_on_number(unsigned(word))
}

/// What to write in place of a literal with a comma behind it, or with a factor or an exponent. The word has no sign before it.
fn advice_on_factors(word: &[u8]) -> Option<Advice> {
    let end = word.find_byteset(b",*^")?;
    let (literal, rest) = word.split_at_checked(end)?;
    if !is_literal(literal) {
        return None;
    }
    match rest {
        [b','] => Some(Advice::Space),
        [b'^', ..] | [b'*', b'*', ..] => Some(Advice::Write(
            "the literal alone, whose powers are the same",
        )),
        [b'*', factor @ ..] if is_literal(factor) => Some(Advice::Linearise),
        [b'*', factor @ ..] if are_digits(factor) => Some(Advice::Part),
        _ => None,
    }
}

/// What to write in place of signs and relations.
fn advice_on_mark(word: &[u8]) -> Option<Advice> {
    if word.find_byteset(b" \t").is_some() {
        return advice_on_parted(word);
    }
    match word {
        b"+" | b"-" => Some(Advice::Sign),
        b">" => Some(Advice::AtLeast),
        b"<" => Some(Advice::AtMost),
        b"=>" => Some(Advice::Write(">=")),
        b"=<" => Some(Advice::Write("<=")),
        b"==" => Some(Advice::Write("=")),
        b"!=" | b"<>" => Some(Advice::Choose),
        _ => None,
    }
}

/// What to write in place of a relation with a blank in it.
fn advice_on_parted(word: &[u8]) -> Option<Advice> {
    if word.starts_with(b">") {
        Some(Advice::Write(">="))
    } else {
        Some(Advice::Write("<="))
    }
}

/// Signs that are not ASCII, in UTF-8.
const AT_LEAST: &[u8] = b"\xe2\x89\xa5";

const AT_MOST: &[u8] = b"\xe2\x89\xa4";

const UNEQUAL: &[u8] = b"\xe2\x89\xa0";

const MINUS: &[u8] = b"\xe2\x88\x92";

const DASH: &[u8] = b"\xe2\x80\x93";

/// Blanks that are not ASCII, and that editors and web pages put between words.
const BLANKS: [&[u8]; 5] = [
    b"\xc2\xa0",
    b"\xe2\x80\x89",
    b"\xe2\x80\x8b",
    b"\xe2\x80\xaf",
    b"\xe3\x80\x80",
];

/// What to write in place of a word with such a sign.
pub fn advice_on_unicode(word: &[u8]) -> Option<Advice> {
    if BLANKS.iter().any(|blank| word.contains_str(*blank)) {
        return Some(Advice::Space);
    }
    if word.contains_str(AT_LEAST) {
        Some(Advice::Write(">="))
    } else if word.contains_str(AT_MOST) {
        Some(Advice::Write("<="))
    } else if word.contains_str(UNEQUAL) {
        Some(Advice::Choose)
    } else if word.contains_str(MINUS) || word.contains_str(DASH) {
        Some(Advice::Write("-, the minus sign of ASCII"))
    } else {
        None
    }
}

/// What to write in place of a number that has more than a sign and digits. The word has no sign before it.
fn advice_on_number(word: &[u8]) -> Option<Advice> {
    let digits = word.iter().take_while(|byte| byte.is_ascii_digit()).count();
    let rest = word.get(digits..).unwrap_or_default();
    if digits == 0 {
        return None;
    }
    let factor = rest.strip_prefix(b"*").unwrap_or(rest);
    if is_literal(factor) || rest == b"*".as_slice() {
        return Some(Advice::Part);
    }
    match rest {
        [b'.', fraction @ ..] if fraction.iter().all(|digit| *digit == b'0') => {
            Some(Advice::Digits)
        }
        [b'.' | b'/', fraction @ ..] if are_digits(fraction) => Some(Advice::MakeWhole),
        [b'^', ..] | [b'*', b'*', ..] => Some(Advice::Digits),
        [b','] => Some(Advice::Space),
        [b'e' | b'E' | b',' | b'_' | b'.', more @ ..] if is_of_number(more) => Some(Advice::Digits),
        _ => None,
    }
}

/// Whether the bytes may stand in a number that is written with an exponent, or with a mark between groups of digits.
fn is_of_number(bytes: &[u8]) -> bool {
    bytes.iter().all(|byte| byte.is_ascii_digit()
        || matches!(byte, b'+' | b'e' | b'E' | b',' | b'_' | b'.'))
}

/// Whether the word is a literal, with a sign or without.
pub fn is_part_of_term(word: &[u8]) -> bool {
    is_literal(unsigned(word))
}

/// Whether the word is a literal with a minus sign or an exclamation mark before it.
pub fn is_negated(word: &[u8]) -> bool {
    match word {
        [b'-' | b'!', literal @ ..] => is_literal(literal),
        _ => false,
    }
}

/// Whether the word begins a comment, in some format or language, wherever it stands.
pub fn begins_comment(word: &[u8]) -> bool {
    word.starts_with(b"#")
        || word.starts_with(b"%")
        || word.starts_with(b"//")
        || word.starts_with(b"/*")
}

/// Whether the word begins a comment, in some format or language, where it is the first one of a line.
pub fn begins_comment_line(word: &[u8]) -> bool {
    begins_comment(word)
        || word == b"c".as_slice()
        || word == b"C".as_slice()
        || word == b"--".as_slice()
        || word.starts_with(b"\\")
}

/// Whether the word stands between parts of a formula, in some language.
pub fn is_operator(word: &[u8]) -> bool {
    is_among(word, &["and", "or", "xor", "not", "in", "mod", "v"])
}
