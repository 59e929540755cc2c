//! The numbers in which an engine counts.

ghost use Rattle.std.specs.Prelude.{◌≡◌, ℕ, ◌+◌, ◌-◌, ◌*◌, ◌/◌, ◌^◌, ◌<◌, ◌≤◌, min, nat_lt, refl};
ghost use Rattle.std.specs.Int.{div_ceil};
ghost use Rattle.std.proofs.Common.{arith};

use pb_inst::Magnitude;
use std::fmt::Debug;

/// Numbers in which an engine counts: natural numbers below twice some limit. Where the sums of a normal form are below the
/// limit, the type is wide enough for all that an engine adds up.
pub trait Coefficient: Copy + Debug {
    // The natural number that a value stands for, and the other way round.
    ghost count: { Self → ℕ };

    ghost counted: { ℕ → Self };

    ghost value_back: { (x : Self) → counted (count x) ≡ x };

    ghost count_back: { (n : ℕ) → count (counted n) ≡ n };

    // The sums of a form that is counted in these numbers are below it.
    ghost limit: { ℕ };

    ghost limit_at_least: { 2 ^ 63 ≤ limit };

    // A number that may fall below 0 is kept with this added. As many such numbers as there are variables, each at
    // most three times as great, have a sum that fits 128 bits.
    ghost origin: { ℕ };

    ghost origin_at_most: { 2 * origin ≤ limit };

    ghost origin_small: { origin ≤ 2 ^ 105 };

    ghost origin_at_least: { 2 ^ 62 ≤ origin };

    /// The limit.
    fn limit() -> Self
        ensures { count result ≡ limit };

    /// What is added to numbers that may fall below 0.
    fn origin() -> Self
        ensures { count result ≡ origin };

    /// The number in this type, which holds every number of 64 bits.
    fn of(number: u64) -> Self
        ensures { count result ≡ number };

    /// The number in this type, where it is below twice the limit.
    fn fitting(number: Magnitude) -> Self
        requires { number < 2 * limit }
        ensures { count result ≡ number };

    /// Whether the number is below the limit.
    fn fits(number: Magnitude) -> bool
        ensures { result ≡ nat_lt number limit };

    /// The value as a `Magnitude`.
    fn number(self) -> Magnitude
        ensures { result ≡ count self };

    /// The sum.
    fn add(self, other: Self) -> Self
        requires { count self + count other < 2 * limit }
        ensures { count result ≡ count self + count other };

    /// The difference.
    fn sub(self, other: Self) -> Self
        requires { count other ≤ count self }
        ensures { count result ≡ count self - count other };

    /// The product.
    fn mul(self, other: Self) -> Self
        requires { count self * count other < 2 * limit }
        ensures { count result ≡ count self * count other };

    /// The quotient, rounded up.
    fn div_ceil(self, other: Self) -> Self
        requires { 0 < count other }
        ensures { count result ≡ div_ceil (count self) (count other) };

    /// The quotient, rounded down.
    fn div(self, other: Self) -> Self
        requires { 0 < count other }
        ensures { count result ≡ count self / count other };

    /// The sum, cut to the range.
    fn saturating_add(self, other: Self) -> Self
        ensures { count result ≡ min (count self + count other) (2 * limit - 1) };

    /// The product, cut to the range.
    fn saturating_mul(self, other: Self) -> Self
        ensures { count result ≡ min (count self * count other) (2 * limit - 1) };

    /// The middle between the two, rounded down.
    fn midpoint(self, other: Self) -> Self
        ensures { count result ≡ (count self + count other) / 2 };

    /// The number, cut to the range.
    fn nearest(number: Magnitude) -> Self
        ensures { count result ≡ min number (2 * limit - 1) };

    /// Whether this is less than the other.
    fn is_below(self, other: Self) -> bool
        ensures { result ≡ nat_lt (count self) (count other) };
}

impl Coefficient for u64 {
    ghost count = { λ x. x };

    ghost counted = { λ n. n };

    ghost value_back = { λ x. refl };

    ghost count_back = { λ n. refl };

    ghost limit = { 2 ^ 63 };

    ghost limit_at_least = { omega arith };

    ghost origin = { 2 ^ 62 };

    ghost origin_at_most = { omega arith };

    ghost origin_small = { omega arith };

    ghost origin_at_least = { omega arith };

    fn limit() -> u64 {
        1 << 63
    }

    fn origin() -> u64 {
        1 << 62
    }

    fn of(number: u64) -> u64 {
        number
    }

    fn fitting(number: Magnitude) -> u64 {
        number as u64
    }

    fn fits(number: Magnitude) -> bool {
        number < Magnitude::from(Self::limit())
    }

    fn number(self) -> Magnitude {
        Magnitude::from(self)
    }

    fn add(self, other: u64) -> u64 {
        self + other
    }

    fn sub(self, other: u64) -> u64 {
        self - other
    }

    fn mul(self, other: u64) -> u64 {
        self * other
    }

    fn div_ceil(self, other: u64) -> u64 {
        self.div_ceil(other)
    }

    fn div(self, other: u64) -> u64 {
        self / other
    }

    fn saturating_add(self, other: u64) -> u64 {
        self.saturating_add(other)
    }

    fn saturating_mul(self, other: u64) -> u64 {
        self.saturating_mul(other)
    }

    fn midpoint(self, other: u64) -> u64 {
        self.midpoint(other)
    }

    fn nearest(number: Magnitude) -> u64 {
        number.min(Magnitude::from(u64::MAX)) as u64
    }

    fn is_below(self, other: u64) -> bool {
        self < other
    }
}

impl Coefficient for u128 {
    ghost count = { λ x. x };

    ghost counted = { λ n. n };

    ghost value_back = { λ x. refl };

    ghost count_back = { λ n. refl };

    ghost limit = { 2 ^ 127 };

    ghost limit_at_least = { omega arith };

    ghost origin = { 2 ^ 105 };

    ghost origin_at_most = { omega arith };

    ghost origin_small = { omega arith };

    ghost origin_at_least = { omega arith };

    fn limit() -> u128 {
        1 << 127
    }

    fn origin() -> u128 {
        1 << 105
    }

    fn of(number: u64) -> u128 {
        u128::from(number)
    }

    fn fitting(number: Magnitude) -> u128 {
        number
    }

    fn fits(number: Magnitude) -> bool {
        number < Self::limit()
    }

    fn number(self) -> Magnitude {
        self
    }

    fn add(self, other: u128) -> u128 {
        self + other
    }

    fn sub(self, other: u128) -> u128 {
        self - other
    }

    fn mul(self, other: u128) -> u128 {
        self * other
    }

    fn div_ceil(self, other: u128) -> u128 {
        self.div_ceil(other)
    }

    fn div(self, other: u128) -> u128 {
        self / other
    }

    fn saturating_add(self, other: u128) -> u128 {
        self.saturating_add(other)
    }

    fn saturating_mul(self, other: u128) -> u128 {
        self.saturating_mul(other)
    }

    fn midpoint(self, other: u128) -> u128 {
        self.midpoint(other)
    }

    fn nearest(number: Magnitude) -> u128 {
        number
    }

    fn is_below(self, other: u128) -> bool {
        self < other
    }
}
