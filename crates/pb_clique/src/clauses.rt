//! Which constraints are clauses of two literals.
ghost use Rattle.std.specs.Prelude.{◌≡◌, ◌↔◌, ◌≤ℤ◌, ◌+ℤ◌, Bool, List, IfSome};
ghost use Rattle.pb_inst.specs.Constraints.{linear};
ghost use Rattle.pb_inst.specs.Meaning.{term_value};
ghost use Rattle.pb_clique.specs.Cliques.{IsClauseOf, IsOneTrue};

use pb_inst::{Constraint, Lit, Number, Relation, Term};

/// The two literals, of different variables, of a constraint that says that one of them is true and no more. None where it says
/// something else, or where a coefficient is neither 1 nor -1.
pub(crate) fn clause_of(constraint: &Constraint<'_>) -> Option<(Lit, Lit)>
    ensures { IfSome result (λ lits. IsClauseOf lits.0 lits.1 (linear constraint.now)) }
{
    if constraint.terms.len() != 2 {
        return None;
    }
    let first = constraint.terms.get(0);
    let second = constraint.terms.get(1);
    if first.lit.var() == second.lit.var() {
        return None;
    }
    match constraint.relation {
        Relation::AtLeast => clause_at_least(first, second, constraint.bound),
        Relation::AtMost => clause_at_most(first, second, constraint.bound),
        Relation::Equal => None,
    }
}

/// The literals of which one is true exactly where the terms add up to at least the bound.
fn clause_at_least(first: Term, second: Term, bound: Number) -> Option<(Lit, Lit)>
    ensures { IfSome result (λ lits. (a : List Bool) → (bound ≤ℤ (term_value a first +ℤ term_value a second)) ↔ IsOneTrue a lits.0 lits.1) }
{
    match (first.coef, second.coef, bound) {
        (1, 1, 1) => Some((first.lit, second.lit)),
        (1, -1, 0) => Some((first.lit, second.lit.negate())),
        (-1, 1, 0) => Some((first.lit.negate(), second.lit)),
        (-1, -1, -1) => Some((first.lit.negate(), second.lit.negate())),
        _ => None,
    }
}

/// The literals of which one is true exactly where the terms add up to at most the bound.
fn clause_at_most(first: Term, second: Term, bound: Number) -> Option<(Lit, Lit)>
    ensures { IfSome result (λ lits. (a : List Bool) → ((term_value a first +ℤ term_value a second) ≤ℤ bound) ↔ IsOneTrue a lits.0 lits.1) }
{
    match (first.coef, second.coef, bound) {
        (1, 1, 1) => Some((first.lit.negate(), second.lit.negate())),
        (1, -1, 0) => Some((first.lit.negate(), second.lit)),
        (-1, 1, 0) => Some((first.lit, second.lit.negate())),
        (-1, -1, -1) => Some((first.lit, second.lit)),
        _ => None,
    }
}
