//! The words of `v` lines.
//! Source: [OPB], [DIMACS]
ghost use Rattle.std.specs.Prelude.{◌≡◌, ◌<◌, ◌^◌, ℕ, true, false, IfSome, Some};
ghost use Rattle.pb_report.specs.Values.{IsOpbWord, IsCounted, IsDimacsWord, IsDigitsOf, IsValueWord};
ghost use Rattle.pb_report.specs.Numbers.{IsCount};
ghost use Rattle.pb_report.specs.declared.words.ValueWord.{ValueWord};

use crate::numbers::count_of;
use pb_read::Format;

/// A word of a `v` line.
#[derive(Clone, Copy, Debug, PartialEq, Eq)]
pub(crate) enum ValueWord {
    Literal { positive: bool, var: u32 },
    /// The `0` that ends the `v` lines in DIMACS CNF.
    End,
}

/// What a word of a `v` line spells in the format; none where it spells nothing.
pub(crate) fn value_word(format: Format, word: &[u8]) -> Option<ValueWord>
    ensures spelled { IfSome result (λ value. IsValueWord format word.now value) }
    ensures accepted { (value : ValueWord) → IsValueWord format word.now value → IsCounted value → result ≡ Some value }
{
    match format {
        Format::Opb => opb_word(word),
        Format::Cnf | Format::Icnf => dimacs_word(word),
    }
}

/// `x3` and `-x3` or `~x3`.
fn opb_word(word: &[u8]) -> Option<ValueWord>
    ensures spelled { IfSome result (λ value. IsOpbWord word.now value) }
    ensures accepted { (value : ValueWord) → IsOpbWord word.now value → IsCounted value → result ≡ Some value }
{
    match word {
        [b'x', digits @ ..] => literal(true, digits),
        [b'-' | b'~', b'x', digits @ ..] => literal(false, digits),
        _ => None,
    }
}

/// `3` and `-3`, and `0` as the end.
fn dimacs_word(word: &[u8]) -> Option<ValueWord>
    ensures spelled { IfSome result (λ value. IsDimacsWord word.now value) }
    ensures accepted { (value : ValueWord) → IsDimacsWord word.now value → IsCounted value → result ≡ Some value }
{
    match word {
        b"0" => Some(ValueWord::End),
        [b'-', digits @ ..] => literal(false, digits),
        _ => literal(true, word),
    }
}

/// The literal of the variable that the digits write.
fn literal(positive: bool, digits: &[u8]) -> Option<ValueWord>
    ensures spelled { IfSome result (λ value. IsDigitsOf positive digits.now value) }
    ensures accepted { (var : ℕ) → IsCount digits.now var → var < 2 ^ 32 → result ≡ Some (ValueWord.Literal positive var) }
{
    let var = count_of(digits)?;
    Some(ValueWord::Literal { positive, var })
}
