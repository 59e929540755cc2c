//! Numbers with a sign, in the width of a form.

ghost use Rattle.std.specs.Prelude.{◌≡◌, ◌+◌, int_lt, pos, unsigned_abs};

use pb_count::{Coefficient, Counter};
use std::marker::Model;

/// A number with a sign, kept as a counter that is greater by the counters' limit. What does not fit is cut to the range: from
/// minus the limit up to below it. Contracts see an integer.
#[derive(Clone, Copy)]
pub struct Signed<C: Coefficient>(Counter<C>);

impl<C: Coefficient> Model for Signed<C> {
    ghost use Rattle.std.specs.Prelude.{ℤ, pos, ◌+ℤ◌, ◌-ℤ◌, unsigned_abs};

    ghost Value = { ℤ };

    ghost view = { λ s. pos s.0 -ℤ pos C.limit };

    ghost inverse = { λ z. record { 0 = unsigned_abs (z +ℤ pos C.limit) } };
}

impl<C: Coefficient> Signed<C> {
    /// The number 0.
    #[inline]
    pub fn zero() -> Signed<C> {
        Signed(Counter::limit())
    }

    /// The greatest of them.
    #[inline]
    pub fn greatest() -> Signed<C> {
        Signed(Counter::limit() + most())
    }

    /// A number of 0 or more, cut to the range.
    #[inline]
    pub fn of(number: Counter<C>) -> Signed<C> {
        Signed(Counter::limit() + number.min(most()))
    }

    /// The number, cut to the range.
    #[inline]
    pub fn nearest(number: i128) -> Signed<C> {
        let size = Counter::nearest(number.unsigned_abs());
        if number < 0 {
            return Signed(Counter::limit().above(size));
        }
        Signed::of(size)
    }

    /// By how much the first is above the second; at least the number that is 1 above the least.
    #[inline]
    pub(crate) fn difference(first: Counter<C>, second: Counter<C>) -> Signed<C> {
        if first.is_below(second) {
            return Signed(Counter::limit() - (second - first).min(most()));
        }
        Signed::of(first - second)
    }

    /// Whether it is below 0.
    #[inline]
    pub fn is_negative(self) -> bool
        ensures { result ≡ int_lt self (pos 0) }
    {
        self.0.is_below(Counter::limit())
    }

    /// Whether it is 0.
    #[inline]
    pub fn is_zero(self) -> bool {
        self.magnitude().is_zero()
    }

    /// Whether it is above 0.
    #[inline]
    pub fn is_positive(self) -> bool {
        Counter::limit().is_below(self.0)
    }

    /// Whether it is the greatest of them.
    #[inline]
    pub fn is_greatest(self) -> bool {
        !self.is_below(Signed::greatest())
    }

    /// Whether it is below the other.
    #[inline]
    fn is_below(self, other: Signed<C>) -> bool {
        self.0.is_below(other.0)
    }

    /// The lesser of both.
    #[inline]
    pub fn min(self, other: Signed<C>) -> Signed<C> {
        Signed(self.0.min(other.0))
    }

    /// The greater of both.
    #[inline]
    pub fn max(self, other: Signed<C>) -> Signed<C> {
        Signed(self.0.max(other.0))
    }

    /// How far the number is from 0.
    #[inline]
    pub fn magnitude(self) -> Counter<C>
        ensures { result ≡ unsigned_abs self }
    {
        if self.is_negative() {
            return Counter::limit() - self.0;
        }
        self.0 - Counter::limit()
    }

    /// The sum.
    #[inline]
    pub fn plus(self, other: Signed<C>) -> Signed<C> {
        if other.is_negative() {
            return Signed(self.0.above(other.magnitude()));
        }
        Signed(self.0.saturating_add(other.magnitude()))
    }

    /// The difference.
    #[inline]
    pub fn minus(self, other: Signed<C>) -> Signed<C> {
        if other.is_negative() {
            return Signed(self.0.saturating_add(other.magnitude()));
        }
        Signed(self.0.above(other.magnitude()))
    }
}

/// The number 1 below the limit.
#[inline]
fn most<C: Coefficient>() -> Counter<C>
    ensures { result + 1 ≡ C.limit }
{
    Counter::limit() - Counter::of(1)
}
