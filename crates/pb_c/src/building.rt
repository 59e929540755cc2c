//! Telling a solver its statements.
ghost use Rattle.std.specs.Prelude.{◌≡◌, ◌≢◌, List, [], map, All, OnOk, IfErr};
ghost use Rattle.pb_inst.specs.Constraints.{unit_term};
ghost use Rattle.pb_inst.specs.Literal.{Literal};
ghost use Rattle.pb_c.specs.Codes.{told_code};
ghost use Rattle.pb_c.specs.Called.{number_of, IsVariable, OnHeld, AddsTerm, AddsClause, RefusesClause, TellsTerm, TellsEnd, TellsObjective, TellsClause, Forgets};

use crate::codes::{BAD_ARGUMENT, EMPTY, OK, code_of_fault};
use crate::literals::{literal_of, relation_of};
use crate::solver::Solver;
use pb_inst::{Number, Relation};
use pb_session::{Session, SessionFault};
use std::alloc::Global;

/// Adds a term to the sum that is not ended.
#[unsafe(no_mangle)]
pub extern "C" fn pb_c_term(
    alloc: Global,
    solver: &mut Solver,
    coefficient: i64,
    literal: i32,
) -> i32
    ensures { OnHeld solver.old.session.held solver.new.session.held result (λ old new. TellsTerm old new coefficient literal result) }
{
    let Some(mut session) = solver.take(alloc) else {
        return EMPTY;
    };
    let code = code_of(add_term(&mut session, coefficient, literal));
    solver.put(session);
    code
}

/// Makes the sum a constraint: the sum is in this relation to the bound.
#[unsafe(no_mangle)]
pub extern "C" fn pb_c_end(alloc: Global, solver: &mut Solver, relation: i32, bound: i64) -> i32
    ensures { OnHeld solver.old.session.held solver.new.session.held result (λ old new. TellsEnd old new relation bound result) }
{
    let Some(mut session) = solver.take(alloc) else {
        return EMPTY;
    };
    let code = match relation_of(relation) {
        Some(relation) => code_of(session.end(relation, Number::from(bound))),
        None => BAD_ARGUMENT,
    };
    solver.put(session);
    code
}

/// Makes the sum the objective.
#[unsafe(no_mangle)]
pub extern "C" fn pb_c_end_objective(alloc: Global, solver: &mut Solver) -> i32
    ensures { OnHeld solver.old.session.held solver.new.session.held result (λ old new. TellsObjective old new result) }
{
    let Some(mut session) = solver.take(alloc) else {
        return EMPTY;
    };
    let code = code_of(session.end_objective());
    solver.put(session);
    code
}

/// Forgets the sum that is not ended.
#[unsafe(no_mangle)]
pub extern "C" fn pb_c_discard(alloc: Global, solver: &mut Solver) -> i32
    ensures { OnHeld solver.old.session.held solver.new.session.held result (λ old new. Forgets old new result) }
{
    let Some(mut session) = solver.take(alloc) else {
        return EMPTY;
    };
    let code = forget(&mut session);
    solver.put(session);
    code
}

/// Adds the constraint that at least one of the literals is true.
#[unsafe(no_mangle)]
pub extern "C" fn pb_c_clause(alloc: Global, solver: &mut Solver, literals: &[i32]) -> i32
    ensures { OnHeld solver.old.session.held solver.new.session.held result (λ old new. TellsClause old new literals.now result) }
{
    let Some(mut session) = solver.take(alloc) else {
        return EMPTY;
    };
    let code = code_of(add_clause(&mut session, literals));
    solver.put(session);
    code
}

/// The code of what a session says.
pub(crate) fn code_of(said: Result<(), SessionFault>) -> i32
    ensures { result ≡ told_code said }
{
    match said {
        Ok(()) => OK,
        Err(fault) => code_of_fault(fault),
    }
}

/// Forgets the terms of the sum.
fn forget(session: &mut Session) -> i32
    ensures { Forgets session.old session.new result }
{
    session.discard();
    OK
}

/// Adds a term whose literal is given by its number.
fn add_term(session: &mut Session, coefficient: i64, literal: i32) -> Result<(), SessionFault>
    ensures { AddsTerm session.old session.new coefficient literal result }
{
    let lit = literal_of(literal)?;
    session.term(Number::from(coefficient), lit)
}

/// Adds the clause of literals that are given by their numbers. Changes nothing where one of them is refused.
fn add_clause(session: &mut Session, literals: &[i32]) -> Result<(), SessionFault>
    ensures added { AddsClause session.old session.new literals.now result }
    ensures accepted { OnOk result (All IsVariable literals.now) }
    ensures refused { IfErr result (RefusesClause session.old literals.now) }
{
    if session.has_terms() {
        return Err(SessionFault::Unended);
    }
    let said = match add_units(session, literals) {
        Ok(()) => session.end(Relation::AtLeast, 1),
        refused => refused,
    };
    session.discard();
    said
}

/// Adds each of the literals with coefficient 1, up to the first that is refused.
fn add_units(session: &mut Session, literals: &[i32]) -> Result<(), SessionFault>
    requires { session.old.terms ≡ [] }
    ensures units { OnOk result ((lits : List Literal) × (map number_of lits ≡ literals.now) × (session.new ≡ record session.old { terms = map unit_term lits })) }
    ensures apart { record session.new { terms = [] } ≡ session.old }
    ensures accepted { OnOk result (All IsVariable literals.now) }
    ensures other { IfErr result (λ fault. fault ≢ SessionFault.Unended) }
    ensures refused { IfErr result (RefusesClause session.old literals.now) }
{
    for literal in literals {
        session.term(1, literal_of(*literal)?)?;
    }
    Ok(())
}
