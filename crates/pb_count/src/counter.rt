//! A counter, which contracts see as a natural number.

ghost use Rattle.std.specs.Prelude.{◌≡◌, ℕ, ◌+◌, ◌-◌, ◌*◌, ◌/◌, ◌^◌, ◌<◌, ◌≤◌, nat_lt, nat_eq, max, min, ⊤};
ghost use Rattle.std.specs.Int.{div_ceil};

use crate::coefficient::Coefficient;
use pb_inst::Magnitude;
use std::alloc::AllocError;
use std::marker::Model;
use std::ops::{Add, AddAssign, Div, Mul, Sub, SubAssign};

/// A number in the type in which an engine counts. Contracts see a natural number.
#[derive(Copy)]
pub struct Counter<C: Coefficient>(C);

impl<C: Coefficient> Model for Counter<C> {
    ghost use Rattle.std.specs.Prelude.{ℕ};
    ghost use Rattle.std.proofs.Common.{ap};

    ghost Value = { ℕ };

    ghost view = { λ t. C.count t.0 };

    ghost inverse = { λ n. record { 0 = C.counted n } };

    ghost inverse_ok = { λ a h. ap (λ (x : C). let t : Inside = record { 0 = x } in t) (C.value_back a.0) };
}

impl<C: Coefficient> Clone for Counter<C> {
    ghost is_clone = { λ t u. u ≡ t };

    ghost is_infallible = { λ _. ⊤ };

    #[inline]
    fn clone(&self) -> Result<Counter<C>, AllocError> {
        Ok(*self)
    }
}

impl<C: Coefficient> Counter<C> {
    /// The number, which fits 64 bits.
    #[inline]
    pub fn of(number: u64) -> Counter<C>
        ensures { result ≡ number }
    {
        Counter(C::of(number))
    }

    /// A number that is known to be in range.
    #[inline]
    pub fn fitting(number: Magnitude) -> Counter<C>
        requires { number < 2 * C.limit }
        ensures { result ≡ number }
    {
        Counter(C::fitting(number))
    }

    /// The limit, below which the sums of a form are.
    #[inline]
    pub fn limit() -> Counter<C>
        ensures { result ≡ C.limit }
    {
        Counter(C::limit())
    }

    /// What is added to numbers that may fall below 0.
    #[inline]
    pub fn origin() -> Counter<C>
        ensures { result ≡ C.origin }
    {
        Counter(C::origin())
    }

    /// The number, cut to the range.
    #[inline]
    pub fn nearest(number: Magnitude) -> Counter<C>
        ensures { result ≡ min number (2 * C.limit - 1) }
    {
        Counter(C::nearest(number))
    }

    /// The number.
    #[inline]
    pub fn number(self) -> Magnitude
        ensures { result ≡ self }
    {
        self.0.number()
    }

    #[inline]
    pub fn is_below(self, other: Counter<C>) -> bool
        ensures { result ≡ nat_lt self other }
    {
        self.0.is_below(other.0)
    }

    #[inline]
    pub fn is_zero(self) -> bool
        ensures { result ≡ nat_eq self 0 }
    {
        self.is_below(Counter::of(1))
    }

    /// The amount by which this is above the other, 0 where it isn't.
    #[inline]
    pub fn above(self, other: Counter<C>) -> Counter<C>
        ensures { result ≡ self - other }
    {
        if self.is_below(other) {
            return Counter::of(0);
        }
        self - other
    }

    #[inline]
    pub fn max(self, other: Counter<C>) -> Counter<C>
        ensures { result ≡ max self other }
    {
        if self.is_below(other) { other } else { self }
    }

    #[inline]
    pub fn min(self, other: Counter<C>) -> Counter<C>
        ensures { result ≡ min self other }
    {
        if other.is_below(self) { other } else { self }
    }

    #[inline]
    pub fn div_ceil(self, other: Counter<C>) -> Counter<C>
        requires { 0 < other }
        ensures { result ≡ div_ceil self other }
    {
        Counter(self.0.div_ceil(other.0))
    }

    /// The sum, cut to the range.
    #[inline]
    pub fn saturating_add(self, other: Counter<C>) -> Counter<C>
        ensures { result ≡ min (self + other) (2 * C.limit - 1) }
    {
        Counter(self.0.saturating_add(other.0))
    }

    /// The product, cut to the range.
    #[inline]
    pub fn saturating_mul(self, other: Counter<C>) -> Counter<C>
        ensures { result ≡ min (self * other) (2 * C.limit - 1) }
    {
        Counter(self.0.saturating_mul(other.0))
    }

    /// The middle between the two, rounded down.
    #[inline]
    pub fn midpoint(self, other: Counter<C>) -> Counter<C>
        ensures { result ≡ (self + other) / 2 }
    {
        Counter(self.0.midpoint(other.0))
    }
}

impl<C: Coefficient> Add for Counter<C> {
    type Output = Counter<C>;

    ghost can_add = { λ t u. t + u < 2 * C.limit };

    ghost add_gives = { λ t u sum. sum ≡ t + u };

    #[inline]
    fn add(self, other: Counter<C>) -> Counter<C> {
        Counter(self.0.add(other.0))
    }
}

impl<C: Coefficient> AddAssign for Counter<C> {
    ghost can_add_assign = { λ t u. t + u < 2 * C.limit };

    ghost add_assign_gives = { λ t u sum. sum ≡ t + u };

    #[inline]
    fn add_assign(&mut self, other: Counter<C>) {
        self.0 = self.0.add(other.0);
    }
}

impl<C: Coefficient> Sub for Counter<C> {
    type Output = Counter<C>;

    ghost can_sub = { λ t u. u ≤ t };

    ghost sub_gives = { λ t u rest. rest ≡ t - u };

    #[inline]
    fn sub(self, other: Counter<C>) -> Counter<C> {
        Counter(self.0.sub(other.0))
    }
}

impl<C: Coefficient> SubAssign for Counter<C> {
    ghost can_sub_assign = { λ t u. u ≤ t };

    ghost sub_assign_gives = { λ t u rest. rest ≡ t - u };

    #[inline]
    fn sub_assign(&mut self, other: Counter<C>) {
        self.0 = self.0.sub(other.0);
    }
}

impl<C: Coefficient> Mul for Counter<C> {
    type Output = Counter<C>;

    ghost can_mul = { λ t u. t * u < 2 * C.limit };

    ghost mul_gives = { λ t u product. product ≡ t * u };

    #[inline]
    fn mul(self, other: Counter<C>) -> Counter<C> {
        Counter(self.0.mul(other.0))
    }
}

impl<C: Coefficient> Div for Counter<C> {
    type Output = Counter<C>;

    ghost can_div = { λ t u. 0 < u };

    ghost div_gives = { λ t u quotient. quotient ≡ t / u };

    #[inline]
    fn div(self, other: Counter<C>) -> Counter<C> {
        Counter(self.0.div(other.0))
    }
}
