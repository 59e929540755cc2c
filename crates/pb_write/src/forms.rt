//! Whether an instance has clauses alone.
ghost use Rattle.std.specs.Prelude.{◌≡◌, ◌↔◌, pos, All, IsTrue};
ghost use Rattle.pb_inst.specs.Constraints.{linear, unit_term};
ghost use Rattle.pb_write.specs.Written.{IsClause, AreClauses, HasText};

use pb_inst::{Constraint, Instance, Relation, Terms};
use pb_read::Format;

/// Whether the format can spell the instance: OPB can spell every one.
pub(crate) fn has_text(format: Format, instance: &Instance) -> bool
    ensures { IsTrue result ↔ HasText format instance.now }
{
    !format.is_clausal() || are_clauses(instance)
}

fn are_clauses(instance: &Instance) -> bool
    ensures { IsTrue result ↔ AreClauses instance.now }
{
    !instance.has_objective() && all_constraints_are_clauses(instance)
}

fn all_constraints_are_clauses(instance: &Instance) -> bool
    ensures { IsTrue result ↔ All IsClause instance.now.constraints }
{
    for i in 0..instance.len() {
        if !is_clause(&instance.constraint(i)) {
            return false;
        }
    }
    true
}

fn is_clause(constraint: &Constraint<'_>) -> bool
    ensures { IsTrue result ↔ IsClause (linear constraint.now) }
{
    match constraint.relation {
        Relation::AtLeast => constraint.bound == 1 && have_unit_coefficients(&constraint.terms),
        Relation::AtMost | Relation::Equal => false,
    }
}

fn have_unit_coefficients(terms: &Terms<'_>) -> bool
    ensures { IsTrue result ↔ All (λ t. t.coef ≡ pos 1) terms.now }
{
    for i in 0..terms.len() {
        if terms.get(i).coef != 1 {
            return false;
        }
    }
    true
}
