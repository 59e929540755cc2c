//! Literals with their coefficients.

ghost use Rattle.std.specs.Prelude.{◌≡◌};
ghost use Rattle.pb_rows.specs.Clauses.{unit_term};

use pb_count::{Coefficient, Counter};
use pb_inst::Lit;
use pb_normal::FormTerm;

/// Gives a literal and its coefficient: a term, or a literal of a clause, whose coefficient is 1.
pub trait Weighs<C: Coefficient>: Copy {
    ghost use Rattle.pb_normal.specs.declared.terms.PositiveTerm.{PositiveTerm as Term};

    /// The coefficient and the literal.
    ghost term: { Self → Term };

    fn coef(self) -> Counter<C>
        ensures { result ≡ (term self).coef };

    fn lit(self) -> Lit
        ensures { result ≡ (term self).lit };
}

impl<C: Coefficient> Weighs<C> for FormTerm<C> {
    ghost term = { λ t. t };

    #[inline]
    fn coef(self) -> Counter<C> {
        self.coef()
    }

    #[inline]
    fn lit(self) -> Lit {
        self.lit()
    }
}

impl<C: Coefficient> Weighs<C> for Lit {
    ghost term = { unit_term };

    #[inline]
    fn coef(self) -> Counter<C> {
        Counter::of(1)
    }

    #[inline]
    fn lit(self) -> Lit {
        self
    }
}
