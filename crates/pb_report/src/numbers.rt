//! Numbers in digits.
ghost use Rattle.std.specs.Prelude.{◌≡◌, ◌<◌, ◌^◌, ℕ, ℤ, IfSome, Some};
ghost use Rattle.pb_report.specs.Numbers.{Fits128, IsCount, IsNumber};

use pb_inst::Number;
use std::str;

/// The number that digits write, without a sign; none where it passes 32 bits.
pub(crate) fn count_of(digits: &[u8]) -> Option<u32>
    ensures count { IfSome result (λ n. IsCount digits.now n) }
    ensures accepted { (n : ℕ) → IsCount digits.now n → n < 2 ^ 32 → result ≡ Some n }
{
    match digits {
        [b'+', ..] => None,
        _ => str::from_utf8(digits).ok()?.parse().ok(),
    }
}

/// The number that digits write, after a sign or without one; none where it passes 128 bits.
pub(crate) fn number_of(word: &[u8]) -> Option<Number>
    ensures number { IfSome result (λ z. IsNumber word.now z) }
    ensures accepted { (z : ℤ) → IsNumber word.now z → Fits128 z → result ≡ Some z }
{
    str::from_utf8(word).ok()?.parse().ok()
}
