//! A sum of terms as a base and positive terms by rising variable.
//! Source: [ES06]

ghost use Rattle.std.specs.Prelude.{◌≡◌, ℕ, ◌+◌, ◌≤◌, List, [], Bool, map, min, sum_by, unsigned_abs, IfOk, OnOk, pos, ◌+ℤ◌, ◌≤ℤ◌, neg_ℤ};
ghost use Rattle.std.specs.List.Sorted.{IsNonDecreasingBy};
ghost use Rattle.pb_inst.specs.declared.limits.TheConstants.{SUM_BOUND};
ghost use Rattle.pb_inst.specs.Limits.{total_magnitude, AllVariablesWithin};
ghost use Rattle.pb_normal.specs.NormalForm.{positive_value, total_coefficient, ArePositiveTerms};
ghost use Rattle.pb_normal.specs.Merging.{AreJoined, AddsNonzero, AddsPositive, AddsTerm, HasValueOf, opposite};

use crate::PositiveTerm;
use pb_inst::{Magnitude, Memory, Number, Term, Terms};
use std::alloc::Global;

/// A base and positive terms by rising variable. Its lists keep their memory, so that one value serves for one sum after
/// another.
#[derive(Drop)]
pub struct PositiveSum {
    pub base: Number,
    pub terms: Vec<PositiveTerm>,
    sorted: Vec<Term>,
}

/// What two terms of one variable add up to: a term and a constant.
#[derive(Clone, Copy)]
struct Joined {
    term: PositiveTerm,
    constant: Magnitude,
}

impl PositiveSum {
    /// The empty sum.
    pub fn new(alloc: Global) -> PositiveSum {
        PositiveSum {
            base: 0,
            terms: Vec::new(alloc),
            sorted: Vec::new(alloc),
        }
    }

    /// Becomes the sum of these terms. Where memory runs out it is of no use until it is merged again.
    pub fn merge(&mut self, terms: &Terms<'_>) -> Result<(), Memory>
        requires bounded { total_magnitude terms.now ≤ SUM_BOUND }
        ensures value { OnOk result (HasValueOf terms.now self.new.base self.new.terms.items) }
        ensures positive { OnOk result ((n : ℕ) → AllVariablesWithin n terms.now → ArePositiveTerms n self.new.terms.items) }
    {
        terms.copy_into(&mut self.sorted)?;
        self.sorted.sort_unstable_by_key(|term| term.lit.var());
        self.terms.clear();
        self.base = merge_sorted(&self.sorted, &mut self.terms)?;
        Ok(())
    }

    /// Becomes the sum of no terms.
    pub fn clear(&mut self)
        ensures value { HasValueOf [] self.new.base self.new.terms.items }
        ensures positive { (n : ℕ) → ArePositiveTerms n self.new.terms.items }
    {
        self.terms.clear();
        self.base = 0;
    }

    /// Becomes the negated sum: the least value is the greatest one negated, and literals are negated.
    pub fn negate(&mut self)
        requires lowest { unsigned_abs self.old.base ≤ SUM_BOUND }
        requires coefficients { total_coefficient self.old.terms.items ≤ SUM_BOUND }
        requires highest { (self.old.base +ℤ pos (total_coefficient self.old.terms.items)) ≤ℤ pos SUM_BOUND }
        ensures base { self.new.base ≡ neg_ℤ (self.old.base +ℤ pos (total_coefficient self.old.terms.items)) }
        ensures terms { self.new.terms.items ≡ map opposite self.old.terms.items }
    {
        let greatest = self.base + total(&self.terms) as Number;
        self.base = -greatest;
        negate_literals(&mut self.terms);
    }
}

/// The sum of two terms of one variable. Opposite literals share the smaller coefficient, which is the constant.
fn join(first: PositiveTerm, second: PositiveTerm) -> Joined
    requires same_variable { first.lit.var ≡ second.lit.var }
    requires room { first.coef + second.coef ≤ SUM_BOUND }
    ensures { AreJoined first second result.term result.constant }
{
    if first.lit.positive() == second.lit.positive() {
        let coef = first.coef + second.coef;
        let term = PositiveTerm {
            coef,
            lit: first.lit,
        };
        return Joined { term, constant: 0 };
    }
    if first.coef >= second.coef {
        let coef = first.coef - second.coef;
        let term = PositiveTerm {
            coef,
            lit: first.lit,
        };
        return Joined {
            term,
            constant: second.coef,
        };
    }
    let coef = second.coef - first.coef;
    let term = PositiveTerm {
        coef,
        lit: second.lit,
    };
    Joined {
        term,
        constant: first.coef,
    }
}

/// Adds the term at the end, unless its coefficient is 0.
fn push_nonzero(terms: &mut Vec<PositiveTerm>, term: PositiveTerm) -> Result<(), Memory>
    ensures { OnOk result (AddsNonzero terms.old.items term terms.new.items) }
{
    if term.coef == 0 {
        return Ok(());
    }
    terms.push(term)?;
    Ok(())
}

/// Adds the term, joined with the last one where that is of its variable, and gives the constant that falls out.
fn add_positive(terms: &mut Vec<PositiveTerm>, term: PositiveTerm) -> Result<Magnitude, Memory>
    requires room { total_coefficient terms.old.items + term.coef ≤ SUM_BOUND }
    ensures { IfOk result (λ constant. AddsPositive terms.old.items term constant terms.new.items) }
{
    let Some(last) = terms.pop() else {
        push_nonzero(terms, term)?;
        return Ok(0);
    };
    if last.lit.var() == term.lit.var() {
        let joined = join(last, term);
        push_nonzero(terms, joined.term)?;
        return Ok(joined.constant);
    }
    terms.push(last)?;
    push_nonzero(terms, term)?;
    Ok(0)
}

/// Adds the term, a negative one as a positive term of the negated literal, and gives the shift of the base.
fn add_term(terms: &mut Vec<PositiveTerm>, term: Term) -> Result<Number, Memory>
    requires room { total_coefficient terms.old.items + unsigned_abs term.coef ≤ SUM_BOUND }
    ensures { IfOk result (λ shift. AddsTerm terms.old.items term shift terms.new.items) }
{
    let coef = term.coef.unsigned_abs();
    if term.coef < 0 {
        let lit = term.lit.negate();
        let constant = add_positive(terms, PositiveTerm { coef, lit })?;
        return Ok(term.coef + constant as Number);
    }
    let lit = term.lit;
    let constant = add_positive(terms, PositiveTerm { coef, lit })?;
    Ok(constant as Number)
}

/// Merges terms that are sorted by variable into the empty list, and gives the base.
fn merge_sorted(terms: &[Term], merged: &mut Vec<PositiveTerm>) -> Result<Number, Memory>
    requires sorted { IsNonDecreasingBy (λ t. t.lit.var) terms.now }
    requires bounded { total_magnitude terms.now ≤ SUM_BOUND }
    requires empty { merged.old.items ≡ [] }
    ensures value { IfOk result (λ base. HasValueOf terms.now base merged.new.items) }
    ensures positive { OnOk result ((n : ℕ) → AllVariablesWithin n terms.now → ArePositiveTerms n merged.new.items) }
{
    let mut base: Number = 0;
    for term in terms {
        base += add_term(merged, *term)?;
    }
    Ok(base)
}

/// The sum of the coefficients.
pub fn total(terms: &[PositiveTerm]) -> Magnitude
    requires { total_coefficient terms.now ≤ SUM_BOUND }
    ensures { result ≡ total_coefficient terms.now }
{
    let mut total = 0;
    for term in terms {
        total += term.coef;
    }
    total
}

/// Negates each literal.
fn negate_literals(terms: &mut [PositiveTerm])
    ensures { terms.new ≡ map opposite terms.old }
{
    for term in terms.iter_mut() {
        term.lit = term.lit.negate();
    }
}

/// The sum of the coefficients, each cut down to the degree.
pub fn clipped_total(terms: &[PositiveTerm], degree: Magnitude) -> Magnitude
    requires { sum_by (λ t. min t.coef degree) terms.now ≤ SUM_BOUND }
    ensures { result ≡ sum_by (λ t. min t.coef degree) terms.now }
{
    let mut total = 0;
    for term in terms {
        total += term.coef.min(degree);
    }
    total
}
