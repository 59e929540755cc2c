//! The tokens of a line of OPB.
//! Source: [OPB]
ghost use Rattle.std.specs.Prelude.{◌≡◌, true, if◌then◌else◌, ◌∷◌, Some, None, option_map};
ghost use Rattle.pb_read.specs.Text.{are_digits, value};
ghost use Rattle.pb_read.specs.Opb.{is_sign};
ghost use Rattle.pb_read.specs.Opb as opb;
ghost use Rattle.pb_read.specs.Capped.{cap, capped, IsNextToken};
ghost use Rattle.pb_read.specs.TokenCuts.{word_front, after_word, sign_token, after_sign};

use crate::digits::{count_of, leading_value};
use crate::line::{after_blanks, is_blank};
use pb_inst::{Magnitude, Relation};

/// A token, in which a number over `GREATEST_READ` is `GREATEST_READ`, and an index over `GREATEST_COUNT` is that.
#[derive(Clone, Copy, PartialEq, Eq)]
pub(crate) enum Token {
    End,
    Min,
    Related(Relation),
    Number { negative: bool, size: Magnitude },
    Literal { positive: bool, var: u32 },
    Bad,
}

fn is_word_byte(byte: u8) -> bool
    ensures { result ≡ opb.is_word_byte byte }
{
    !(is_blank(byte) || byte == b';' || byte == b'>' || byte == b'<' || byte == b'=')
}

/// What stands after the leading bytes that belong to a word.
fn after_word(bytes: &[u8]) -> &[u8]
    ensures { result.now ≡ after_word bytes.now }
{
    let mut rest = bytes;
    while let [first, after @ ..] = rest {
        if !is_word_byte(*first) {
            return rest;
        }
        if *first == b':' {
            return after;
        }
        rest = after;
    }
    rest
}

/// The value of the leading digits, where the word ends after them, and what stands after the word.
fn word_value(bytes: &[u8]) -> (Option<Magnitude>, &[u8])
    ensures value { result.0 ≡ (if are_digits (word_front bytes.now) then Some (cap (value (word_front bytes.now))) else None) }
    ensures rest { result.1.now ≡ after_word bytes.now }
{
    let (value, after) = leading_value(bytes);
    let rest = after_word(after);
    if rest.len() < after.len() {
        return (None, rest);
    }
    if after.len() == bytes.len() {
        return (None, rest);
    }
    (Some(value), rest)
}

/// A number whose digits come next, and what stands after its word.
fn number(negative: bool, bytes: &[u8]) -> (Token, &[u8])
    ensures token { result.0 ≡ capped (opb.number_of negative (word_front bytes.now)) }
    ensures rest { result.1.now ≡ after_word bytes.now }
{
    match word_value(bytes) {
        (Some(size), rest) => {
            let negative = negative && size != 0;
            (Token::Number { negative, size }, rest)
        }
        (None, rest) => (Token::Bad, rest),
    }
}

/// A literal of the variable whose digits come next, and what stands after its word.
fn literal(positive: bool, bytes: &[u8]) -> (Token, &[u8])
    ensures token { result.0 ≡ capped (opb.literal_of positive (word_front bytes.now)) }
    ensures rest { result.1.now ≡ after_word bytes.now }
{
    match word_value(bytes) {
        (Some(number), rest) => {
            let var = count_of(number);
            (Token::Literal { positive, var }, rest)
        }
        (None, rest) => (Token::Bad, rest),
    }
}

/// The token of a word that begins with `~`, and what stands after the word.
#[tactic(auto, unfolding(crate::specs::Opb::token_of))]
fn negation(after: &[u8]) -> (Token, &[u8])
    ensures token { result.0 ≡ capped (opb.token_of (126 ∷ word_front after.now)) }
    ensures rest { result.1.now ≡ after_word after.now }
{
    match after {
        [b'x', digits @ ..] => literal(false, digits),
        _ => (Token::Bad, after_word(after)),
    }
}

/// The token of a word that begins with `m`, and what stands after the word.
#[tactic(auto, unfolding(crate::specs::Opb::token_of))]
fn objective_word(after: &[u8]) -> (Token, &[u8])
    ensures token { result.0 ≡ capped (opb.token_of (109 ∷ word_front after.now)) }
    ensures rest { result.1.now ≡ after_word after.now }
{
    match after.strip_prefix(b"in:".as_slice()) {
        Some(rest) => (Token::Min, rest),
        None => (Token::Bad, after_word(after)),
    }
}

/// The token of a word of which the first byte is known, and what stands after the word.
#[tactic(auto, unfolding(crate::specs::Opb::token_of))]
fn word<'t>(first: u8, after: &'t [u8], whole: &'t [u8]) -> (Token, &'t [u8])
    requires starts { whole.now ≡ first ∷ after.now }
    requires of_word { opb.is_word_byte first ≡ true }
    ensures token { result.0 ≡ capped (opb.token_of (word_front whole.now)) }
    ensures rest { result.1.now ≡ after_word whole.now }
{
    match first {
        b'x' => literal(true, after),
        b'~' => negation(after),
        b'+' => number(false, after),
        b'-' => number(true, after),
        b'm' => objective_word(after),
        _ => number(false, whole),
    }
}

/// The token that begins with one of `;`, `=`, `<` and `>`, and what stands after it.
fn sign(first: u8, after: &[u8]) -> (Token, &[u8])
    requires { is_sign first ≡ true }
    ensures token { result.0 ≡ capped (sign_token first after.now) }
    ensures rest { result.1.now ≡ after_sign first after.now }
{
    match first {
        b';' => (Token::End, after),
        b'=' => (Token::Related(Relation::Equal), after),
        _ => match after {
            [b'=', rest @ ..] if first == b'>' => (Token::Related(Relation::AtLeast), rest),
            [b'=', rest @ ..] => (Token::Related(Relation::AtMost), rest),
            _ => (Token::Bad, after),
        },
    }
}

/// The first token of the bytes, and the bytes after it.
pub(crate) fn next_token(bytes: &[u8]) -> Option<(Token, &[u8])>
    ensures { IsNextToken bytes.now (option_map (λ r. (r.0, r.1.now)) result) }
{
    let whole = after_blanks(bytes);
    let [first, after @ ..] = whole else {
        return None;
    };
    if is_word_byte(*first) {
        return Some(word(*first, after, whole));
    }
    Some(sign(*first, after))
}
