//! The normal form of an instance with its cliques.
ghost use Rattle.std.specs.Prelude.{◌≡◌, IfOk};
ghost use Rattle.pb_normal.specs.NormalForm.{KeepsCost, KeepsFeasible};

use crate::merging::merge_cliques;
use pb_inst::{Instance, Memory};
use pb_normal::{Normal, normalise};
use std::alloc::Global;

/// A normal form of the instance, in which a row for each clique that was found stands in place of its clauses of two literals.
/// Without cliques it is that of [`normalise`]. Fails where memory is refused.
pub fn normalise_merged(alloc: Global, instance: &Instance) -> Result<Normal, Memory>
    ensures variables { IfOk result (λ form. form.vars ≡ instance.now.vars) }
    ensures feasible { IfOk result (λ form. KeepsFeasible instance.now form) }
    ensures cost { IfOk result (λ form. KeepsCost instance.now form) }
{
    match merge_cliques(alloc, instance)? {
        Some(merged) => normalise(alloc, &merged),
        None => normalise(alloc, instance),
    }
}

/// The normal form for a search with this budget, or without one. With a budget the clauses stay as they are: what is held when
/// the budget ends costs more on some instances with cliques, and less on others.
pub fn form_to_search(
    alloc: Global,
    instance: &Instance,
    nodes: Option<u64>,
) -> Result<Normal, Memory>
    ensures variables { IfOk result (λ form. form.vars ≡ instance.now.vars) }
    ensures feasible { IfOk result (λ form. KeepsFeasible instance.now form) }
    ensures cost { IfOk result (λ form. KeepsCost instance.now form) }
{
    match nodes {
        None => normalise_merged(alloc, instance),
        Some(_) => normalise(alloc, instance),
    }
}
