//! The words of a line.
ghost use Rattle.std.specs.Prelude.{◌≡◌, ◌<◌, ◌≤◌, length, take, drop, ◌∷◌, option_map, false};
ghost use Rattle.pb_read.specs.Runs.{first_is};
ghost use Rattle.pb_read.specs.Text.{is_blank, words};
ghost use Rattle.pb_read.specs.Clauses as clauses;
ghost use Rattle.pb_read.specs.ClauseReading.{capped, IsNextWord, IsProperWord};

use crate::digits::digits_count;
use crate::line::{after_blanks, is_blank};

/// A word, in which an index over `GREATEST_COUNT` is `GREATEST_COUNT`.
#[derive(Clone, Copy, PartialEq, Eq)]
pub(crate) enum Word {
    Literal { positive: bool, var: u32 },
    Zero,
    Bad,
}

/// The number of bytes of the word that begins here.
fn word_len(bytes: &[u8]) -> usize
    requires some { 0 < length bytes.now }
    requires begins { first_is is_blank bytes.now ≡ false }
    ensures within { result ≤ length bytes.now }
    ensures word { words bytes.now ≡ take result bytes.now ∷ words (drop result bytes.now) }
{
    let mut len = 1;
    while len < bytes.len() && !is_blank(bytes[len]) {
        len += 1;
    }
    len
}

/// The first word of the bytes, and the bytes after it.
pub(crate) fn next_word(bytes: &[u8]) -> Option<(&[u8], &[u8])>
    ensures { IsNextWord bytes.now (option_map (λ r. (r.0.now, r.1.now)) result) }
{
    let rest = after_blanks(bytes);
    if rest.is_empty() {
        return None;
    }
    Some(rest.split_at(word_len(rest)))
}

/// What a word spells.
pub(crate) fn word_of(word: &[u8]) -> Word
    ensures value { result ≡ capped (clauses.word_of word.now) }
    ensures proper { IsProperWord result }
{
    match word {
        [b'-', digits @ ..] => match digits_count(digits) {
            Some(0) | None => Word::Bad,
            Some(var) => Word::Literal {
                positive: false,
                var,
            },
        },
        _ => match digits_count(word) {
            None => Word::Bad,
            Some(0) => Word::Zero,
            Some(var) => Word::Literal {
                positive: true,
                var,
            },
        },
    }
}
