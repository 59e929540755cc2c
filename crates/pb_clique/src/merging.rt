//! The instance in which cliques stand in place of their clauses.
ghost use Rattle.std.specs.Prelude.{◌≡◌, ◌++◌, ◌∷◌, [], All, None, IfOk, IfSome, OnOk, map};
ghost use Rattle.pb_inst.specs.Constraints.{linear, unit_term};
ghost use Rattle.pb_clique.specs.Cliques.{IsClique, Keeps, SaysTheSame, all_but_one};

use crate::arcs::Arcs;
use crate::cliques::find_cliques;
use crate::covers::follows;
use pb_inst::{
    Constraint, InstFault, Instance, InstanceBuilder, Lit, Memory, Number, Relation, Term,
};
use pb_rows::LiteralLists;
use std::alloc::{AllocError, Global};

/// An instance that says the same, in which one constraint for each clique that was found stands in place of the clauses of two
/// literals that follow from it. None where no clique was found. Fails where memory is refused.
pub fn merge_cliques(alloc: Global, instance: &Instance) -> Result<Option<Instance>, Memory>
    ensures { IfOk result (λ merged. IfSome merged (λ other. SaysTheSame instance.now other)) }
{
    let mut arcs = Arcs::new(alloc, instance)?;
    let cliques = find_cliques(alloc, &mut arcs)?;
    if cliques.len() == 0 {
        return Ok(None);
    }
    match merged(alloc, instance, &arcs, &cliques) {
        Ok(merged) => Ok(merged),
        Err(InstFault::Memory) => Err(AllocError),
        // Beyond a limit the instance stays as it is.
        Err(_) => Ok(None),
    }
}

/// The instance with these cliques in place of the clauses that follow from them.
fn merged(
    alloc: Global,
    instance: &Instance,
    arcs: &Arcs<'_>,
    cliques: &LiteralLists,
) -> Result<Option<Instance>, InstFault>
    requires { All (IsClique instance.now) cliques.now }
    ensures { IfOk result (λ merged. IfSome merged (λ other. SaysTheSame instance.now other)) }
{
    let mut builder = InstanceBuilder::new(alloc);
    let mut room = Vec::new(alloc);
    put_objective(&mut builder, instance, &mut room)?;
    put_kept(&mut builder, instance, arcs, cliques, &mut room)?;
    put_cliques(&mut builder, cliques, &mut room)?;
    match builder.finish(instance.vars()) {
        Ok(merged) => Ok(Some(merged)),
        Err(_) => Ok(None),
    }
}

/// Sets the objective of the instance, where it has one.
fn put_objective(
    builder: &mut InstanceBuilder,
    instance: &Instance,
    room: &mut Vec<Term>,
) -> Result<(), InstFault>
    requires { builder.old.objective ≡ None }
    ensures { OnOk result (builder.new ≡ record builder.old { objective = instance.now.objective }) }
{
    let Some(terms) = instance.objective() else {
        return Ok(());
    };
    terms.copy_into(room)?;
    builder.set_objective(room)
}

/// Adds the constraints that don't follow from the cliques.
fn put_kept(
    builder: &mut InstanceBuilder,
    instance: &Instance,
    arcs: &Arcs<'_>,
    cliques: &LiteralLists,
    room: &mut Vec<Term>,
) -> Result<(), InstFault>
    requires { builder.old.constraints ≡ [] }
    ensures objective { OnOk result (builder.new.objective ≡ builder.old.objective) }
    ensures kept { OnOk result (Keeps cliques.now instance.now.constraints builder.new.constraints) }
{
    for i in 0..instance.len() {
        let constraint = instance.constraint(i);
        if follows(&constraint, arcs, cliques) {
            continue;
        }
        put_constraint(builder, &constraint, room)?;
    }
    Ok(())
}

/// Adds the constraint as it is.
fn put_constraint(
    builder: &mut InstanceBuilder,
    constraint: &Constraint<'_>,
    room: &mut Vec<Term>,
) -> Result<(), InstFault>
    ensures { OnOk result (builder.new ≡ record builder.old { constraints = builder.old.constraints ++ linear constraint.now ∷ [] }) }
{
    constraint.terms.copy_into(room)?;
    builder.add(room, constraint.relation, constraint.bound)
}

/// Adds for each clique the constraint that all its literals but one are true.
fn put_cliques(
    builder: &mut InstanceBuilder,
    cliques: &LiteralLists,
    room: &mut Vec<Term>,
) -> Result<(), InstFault>
    ensures objective { OnOk result (builder.new.objective ≡ builder.old.objective) }
    ensures added { OnOk result (builder.new.constraints ≡ builder.old.constraints ++ map all_but_one cliques.now) }
{
    for i in 0..cliques.len() {
        put_clique(builder, cliques.list(i), room)?;
    }
    Ok(())
}

/// Adds the constraint that all of the literals but one are true.
fn put_clique(
    builder: &mut InstanceBuilder,
    clique: &[Lit],
    room: &mut Vec<Term>,
) -> Result<(), InstFault>
    ensures { OnOk result (builder.new ≡ record builder.old { constraints = builder.old.constraints ++ all_but_one clique.now ∷ [] }) }
{
    put_units(clique, room)?;
    builder.add(room, Relation::AtLeast, clique.len() as Number - 1)
}

/// Puts each literal once into the room, in place of what it held.
fn put_units(lits: &[Lit], room: &mut Vec<Term>) -> Result<(), Memory>
    ensures { OnOk result (room.new.items ≡ map unit_term lits.now) }
{
    room.clear();
    for lit in lits {
        room.push(Term { coef: 1, lit: *lit })?;
    }
    Ok(())
}
