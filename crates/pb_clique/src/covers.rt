//! Which constraints follow from cliques.
ghost use Rattle.std.specs.Prelude.{◌≡◌, ◌<◌, Bool, List, length, slice_index_or, IfSome, IsTrue};
ghost use Rattle.pb_inst.specs.Constraints.{linear};
ghost use Rattle.pb_inst.specs.Literal.{Literal};
ghost use Rattle.pb_inst.specs.Meaning.{Meets};
ghost use Rattle.pb_clique.specs.Cliques.{FollowsFrom, IsOneTrue, all_but_one};

use crate::arcs::Arcs;
use crate::clauses::clause_of;
use pb_inst::{Constraint, Lit};
use pb_rows::LiteralLists;

/// Whether the constraint is a clause of two literals that a clique has.
pub(crate) fn follows(constraint: &Constraint<'_>, arcs: &Arcs<'_>, cliques: &LiteralLists) -> bool
    ensures { IsTrue result → FollowsFrom cliques.now (linear constraint.now) }
{
    let Some((one, other)) = clause_of(constraint) else {
        return false;
    };
    let Some(number) = arcs.clique_of(one, other) else {
        return false;
    };
    let place = number as usize;
    place < cliques.len() && has_both(cliques.list(place), one, other)
}

/// Whether the clique has both literals, at different places.
fn has_both(clique: &[Lit], one: Lit, other: Lit) -> bool
    ensures { IsTrue result → (a : List Bool) → Meets a (all_but_one clique.now) → IsOneTrue a one other }
{
    match (place_in(clique, one), place_in(clique, other)) {
        (Some(first), Some(second)) => first != second,
        _ => false,
    }
}

/// The first place at which the literal stands, if it does.
fn place_in(clique: &[Lit], lit: Lit) -> Option<usize>
    ensures { IfSome result (λ place. (place < length clique.now) × ((d : Literal) → slice_index_or clique.now place d ≡ lit)) }
{
    for (place, other) in clique.iter().enumerate() {
        if *other == lit {
            return Some(place);
        }
    }
    None
}
