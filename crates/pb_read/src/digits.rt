//! Numbers in digits.
ghost use Rattle.std.specs.Prelude.{◌≡◌, ℕ, List, ◌∷◌, true, Some, None, min, if◌then◌else◌};
ghost use Rattle.pb_read.specs.declared.digits.TheConstants.{GREATEST_COUNT};
ghost use Rattle.pb_read.specs.Runs.{first_is, skip_while};
ghost use Rattle.pb_read.specs.Text.{is_digit, are_digits, value};
ghost use Rattle.pb_read.specs.Capped.{cap, cap_count};
ghost use Rattle.pb_read.specs.TokenCuts.{value_after};

use pb_inst::Magnitude;

/// Every greater number is read as this one, so that no number is too long to read. It is greater than the bound on sums.
pub(crate) const GREATEST_READ: Magnitude = Magnitude::MAX;

/// Every greater index or count is read as this one. It is greater than the limits on variables and constraints.
pub(crate) const GREATEST_COUNT: u32 = u32::MAX;

/// A number below this bound has room for one more digit in 64 bits.
const ROOMY: u64 = 100_000_000_000_000_000;

pub(crate) fn is_digit(byte: u8) -> bool
    ensures { result ≡ is_digit byte }
{
    b'0' <= byte && byte <= b'9'
}

/// The value of the first digits, as long as 64 bits surely hold it, and what stands after those digits.
fn short_value(bytes: &[u8]) -> (u64, &[u8])
    ensures value { value_after 0 bytes.now ≡ value_after result.0 result.1.now }
    ensures rest { skip_while is_digit bytes.now ≡ skip_while is_digit result.1.now }
{
    let mut value: u64 = 0;
    let mut rest = bytes;
    while let [first, after @ ..] = rest {
        if value >= ROOMY || !is_digit(*first) {
            return (value, rest);
        }
        value = value * 10 + u64::from(*first - b'0');
        rest = after;
    }
    (value, rest)
}

/// The value with one more digit, or `GREATEST_READ` where it is larger.
fn with_digit(value: Magnitude, digit: u8) -> Magnitude
    requires { is_digit digit ≡ true }
    ensures { (after : List ℕ) → cap (value_after value (digit ∷ after)) ≡ cap (value_after result after) }
{
    value
        .saturating_mul(10)
        .saturating_add(Magnitude::from(digit - b'0'))
}

/// The value of the leading digits, where `start` is the value of those before them, and what stands after them. Kept out of
/// line, since few numbers are this long.
#[cold]
#[inline(never)]
fn long_value(start: Magnitude, bytes: &[u8]) -> (Magnitude, &[u8])
    ensures value { result.0 ≡ cap (value_after start bytes.now) }
    ensures rest { result.1.now ≡ skip_while is_digit bytes.now }
{
    let mut value = start;
    let mut rest = bytes;
    while let [first, after @ ..] = rest {
        if !is_digit(*first) {
            return (value, rest);
        }
        value = with_digit(value, *first);
        rest = after;
    }
    (value, rest)
}

/// Whether a digit comes next.
fn begins_with_digit(bytes: &[u8]) -> bool
    ensures { result ≡ first_is is_digit bytes.now }
{
    match bytes {
        [first, ..] => is_digit(*first),
        [] => false,
    }
}

/// The value of the leading digits, or `GREATEST_READ` where it is larger, and what stands after them.
pub(crate) fn leading_value(bytes: &[u8]) -> (Magnitude, &[u8])
    ensures value { result.0 ≡ cap (value_after 0 bytes.now) }
    ensures rest { result.1.now ≡ skip_while is_digit bytes.now }
{
    let (start, rest) = short_value(bytes);
    if begins_with_digit(rest) {
        return long_value(Magnitude::from(start), rest);
    }
    (Magnitude::from(start), rest)
}

/// The number as an index or a count, or `GREATEST_COUNT` where it is larger.
pub(crate) fn count_of(number: Magnitude) -> u32
    ensures { result ≡ min number GREATEST_COUNT }
{
    number.min(Magnitude::from(GREATEST_COUNT)) as u32
}

/// The count with one more digit, or `GREATEST_COUNT` where it is larger.
fn count_with_digit(count: u32, digit: u8) -> u32
    requires { is_digit digit ≡ true }
    ensures { (after : List ℕ) → min (value_after count (digit ∷ after)) GREATEST_COUNT ≡ min (value_after result after) GREATEST_COUNT }
{
    let longer = u64::from(count) * 10 + u64::from(digit - b'0');
    longer.min(u64::from(GREATEST_COUNT)) as u32
}

/// The index or count that the leading digits write, or `GREATEST_COUNT` where it is larger, and what stands after them.
fn leading_count(bytes: &[u8]) -> (u32, &[u8])
    ensures value { result.0 ≡ cap_count (value_after 0 bytes.now) }
    ensures rest { result.1.now ≡ skip_while is_digit bytes.now }
{
    let mut count: u32 = 0;
    let mut rest = bytes;
    while let [first, after @ ..] = rest {
        if !is_digit(*first) {
            return (count, rest);
        }
        count = count_with_digit(count, *first);
        rest = after;
    }
    (count, rest)
}

/// The index or count that one or more digits write, or `GREATEST_COUNT` where it is larger.
pub(crate) fn digits_count(digits: &[u8]) -> Option<u32>
    ensures { result ≡ (if are_digits digits.now then Some (cap_count (value digits.now)) else None) }
{
    if digits.is_empty() {
        return None;
    }
    let (count, rest) = leading_count(digits);
    if rest.is_empty() { Some(count) } else { None }
}
