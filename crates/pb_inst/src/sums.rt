//! The value of a sum of terms under an assignment, and whether a constraint is met.

ghost use Rattle.std.specs.Prelude.{◌≡◌, ◌+◌, ◌≤◌, ◌↔◌, IsTrue, length, unsigned_abs};
ghost use Rattle.pb_inst.specs.Constraints.{linear};
ghost use Rattle.pb_inst.specs.Limits.{total_magnitude, AllVariablesWithin};
ghost use Rattle.pb_inst.specs.Meaning.{sum_value, Meets};
ghost use Rattle.pb_inst.specs.SumLaws.{SumOfTermAndRest, SumOfTwoLists, SumIsWithinMagnitude, CostIsWithinBound};

use crate::{Assignment, Constraint, Number, Relation, SUM_BOUND, Term, Terms};

/// The sum of coefficients times values, repeats included. No partial sum leaves the range of a `Number`.
pub(crate) fn sum_value(terms: &Terms<'_>, assignment: &Assignment) -> Number
    requires variables { AllVariablesWithin (length assignment.now) terms.now }
    requires bounded { total_magnitude terms.now ≤ SUM_BOUND }
    ensures { result ≡ sum_value assignment.now terms.now }
{
    let mut sum: Number = 0;
    for i in 0..terms.len() {
        let term = terms.get(i);
        if assignment.satisfies(term.lit) {
            sum += term.coef;
        }
    }
    sum
}

/// Whether the assignment meets the constraint.
pub(crate) fn is_met(constraint: &Constraint<'_>, assignment: &Assignment) -> bool
    requires variables { AllVariablesWithin (length assignment.now) constraint.now.terms }
    requires bounded { total_magnitude constraint.now.terms ≤ SUM_BOUND }
    ensures { IsTrue result ↔ Meets assignment.now (linear constraint.now) }
{
    let value = sum_value(&constraint.terms, assignment);
    match constraint.relation {
        Relation::AtLeast => value >= constraint.bound,
        Relation::AtMost => value <= constraint.bound,
        Relation::Equal => value == constraint.bound,
    }
}

/// Whether the absolute coefficients and the absolute bound add up to at most `SUM_BOUND`.
pub(crate) fn is_within_bound(terms: &[Term], bound: Number) -> bool
    ensures { IsTrue result ↔ (total_magnitude terms.now + unsigned_abs bound ≤ SUM_BOUND) }
{
    // Tested before each addition, so that the total never wraps.
    let mut total = bound.unsigned_abs();
    for term in terms {
        if total > SUM_BOUND {
            return false;
        }
        total += term.coef.unsigned_abs();
    }
    total <= SUM_BOUND
}

/// Whether all variables are at most n.
pub(crate) fn has_variables_within(terms: &Terms<'_>, n: u32) -> bool
    ensures { IsTrue result ↔ AllVariablesWithin n terms.now }
{
    for i in 0..terms.len() {
        if terms.get(i).lit.var() > n {
            return false;
        }
    }
    true
}

/// The laws of sums of terms.
pub fn sum_laws()
    ensures of_term_and_rest { SumOfTermAndRest }
    ensures of_two_lists { SumOfTwoLists }
    ensures within_magnitude { SumIsWithinMagnitude }
    ensures cost_within_bound { CostIsWithinBound }
{}
