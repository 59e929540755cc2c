//! Terms with positive coefficients.

ghost use Rattle.std.specs.Prelude.{◌≡◌, ◌<◌, ◌^◌};
ghost use Rattle.pb_normal.specs.NormalForm.{total_coefficient};

use pb_count::{Coefficient, Counter};
use pb_inst::{Lit, Magnitude};
use std::marker::Model;

/// A coefficient and the literal that it counts.
#[derive(Clone, Copy, PartialEq, Eq)]
pub struct PositiveTerm {
    /// In a normal form at least 1. The coefficients of a row, and those of the objective, add up to at most `SUM_BOUND`.
    pub coef: Magnitude,
    /// In a normal form over one of its variables, and later terms are over later variables.
    pub lit: Lit,
}

/// A term of a form, whose coefficient is of the width in which an engine over the form counts. Contracts see a `PositiveTerm`.
#[derive(Clone, Copy)]
pub struct FormTerm<C: Coefficient = u64> {
    coef: Counter<C>,
    lit: Lit,
}

const _: () = prove!(size_of::<FormTerm<u64>>() == 16);

impl<C: Coefficient> Model for FormTerm<C> {
    ghost use Rattle.pb_normal.specs.declared.terms.PositiveTerm.{PositiveTerm as Term};

    ghost Value = { Term };

    ghost view = { λ t. record { coef = t.coef; lit = t.lit } };

    ghost inverse = { λ t. record { coef = t.coef; lit = t.lit } };
}

impl<C: Coefficient> FormTerm<C> {
    #[inline]
    pub(crate) fn new(coef: Counter<C>, lit: Lit) -> FormTerm<C>
        ensures { result ≡ record { coef = coef; lit = lit } }
    {
        FormTerm { coef, lit }
    }

    #[inline]
    pub fn coef(self) -> Counter<C>
        ensures { result ≡ self.coef }
    {
        self.coef
    }

    /// The term as contracts see it.
    #[inline]
    pub fn positive(self) -> PositiveTerm
        ensures { result ≡ self }
    {
        PositiveTerm {
            coef: self.coef.number(),
            lit: self.lit,
        }
    }

    #[inline]
    pub fn lit(self) -> Lit
        ensures { result ≡ self.lit }
    {
        self.lit
    }
}

/// The sum of all coefficients.
pub fn total_of<C: Coefficient>(terms: &[FormTerm<C>]) -> Counter<C>
    requires { total_coefficient terms.now < C.limit }
    ensures { result ≡ total_coefficient terms.now }
{
    let mut total = Counter::of(0);
    for term in terms {
        total += term.coef();
    }
    total
}
