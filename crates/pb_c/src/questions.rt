//! Questions on what a session was told, each under literals that are to be true.
ghost use Rattle.std.specs.Prelude.{◌≡◌, ◌≢◌, ◌↔◌, ◌⊎◌, [], map, length, All, None, OnOk, OnErr, IfOk, IfErr, IfNone, IsErrOf, IsTrue};
ghost use Rattle.pb_c.specs.Called.{number_of, IsVariable, OnHeld};
ghost use Rattle.pb_c.specs.Questions.{AsksFixed, AsksWhy, Explains, Fixes, IsBit, RefusesQuestion, SearchesUnder, SolvesUnder, Suggests};

use crate::answers::{budget_of, code_of_run};
use crate::building::code_of;
use crate::codes::{BAD_ARGUMENT, BAD_LENGTH, EMPTY, MEMORY};
use crate::literals::{among_of, literal_of};
use crate::solver::Solver;
use crate::telling::{tell_fixed, tell_why};
use pb_inst::{Assignment, InstFault, Lit, Memory};
use pb_questions::{Among, Explanation, Fixed};
use pb_session::{Session, SessionFault};
use pb_solve::Ran;
use std::alloc::Global;

/// Searches for the least of the assignments that make the literals true, with at most `nodes` decisions where that is below
/// 2^64 - 1, and else without a limit.
#[unsafe(no_mangle)]
pub extern "C" fn pb_c_solve_under(
    alloc: Global,
    solver: &mut Solver,
    literals: &[i32],
    nodes: u64,
) -> i32
    ensures { OnHeld solver.old.session.held solver.new.session.held result (λ old new. SolvesUnder old new literals.now nodes result) }
{
    let Some(mut session) = solver.take(alloc) else {
        return EMPTY;
    };
    let code = code_of_run(solve_under(&mut session, literals, budget_of(nodes)));
    solver.put(session);
    code
}

/// Suggests values of all variables: searches try them first.
#[unsafe(no_mangle)]
pub extern "C" fn pb_c_suggest(alloc: Global, solver: &mut Solver, values: &[u8]) -> i32
    ensures { OnHeld solver.old.session.held solver.new.session.held result (λ old new. Suggests old new values.now result) }
{
    let Some(mut session) = solver.take(alloc) else {
        return EMPTY;
    };
    let code = suggest(alloc, &mut session, values);
    solver.put(session);
    code
}

/// Writes the literals of a core, under which nothing is feasible, as far as there is room, and tells how many they are.
#[unsafe(no_mangle)]
pub extern "C" fn pb_c_explain(
    alloc: Global,
    solver: &mut Solver,
    literals: &[i32],
    nodes: u64,
    core: &mut [i32],
    count: &mut usize,
) -> i32
    ensures explains { OnHeld solver.old.session.held solver.new.session.held result (λ old new. Explains old new literals.now nodes core.old core.new count.old count.new result) }
    ensures empty { solver.old.session.held ≡ None → (core.new ≡ core.old) × (count.new ≡ count.old) }
{
    let Some(mut session) = solver.take(alloc) else {
        return EMPTY;
    };
    let said = explain(&mut session, literals, budget_of(nodes));
    solver.put(session);
    tell_why(said, core, count)
}

/// Tells which variables have one value in all assignments that are asked about: a status for each variable, as far as there is
/// room.
#[unsafe(no_mangle)]
pub extern "C" fn pb_c_fixed(
    alloc: Global,
    solver: &mut Solver,
    literals: &[i32],
    among: i32,
    nodes: u64,
    statuses: &mut [u8],
) -> i32
    ensures fixes { OnHeld solver.old.session.held solver.new.session.held result (λ old new. Fixes old new literals.now among nodes statuses.old statuses.new result) }
    ensures empty { solver.old.session.held ≡ None → statuses.new ≡ statuses.old }
{
    let Some(mut session) = solver.take(alloc) else {
        return EMPTY;
    };
    let code = match among_of(among) {
        Some(among) => {
            let said = fixed(&mut session, literals, among, budget_of(nodes));
            tell_fixed(said, statuses)
        }
        None => BAD_ARGUMENT,
    };
    solver.put(session);
    code
}

/// Searches under literals that are given by their numbers.
fn solve_under(
    session: &mut Session,
    numbers: &[i32],
    nodes: Option<u64>,
) -> Result<Ran, SessionFault>
    ensures { SearchesUnder session.old session.new numbers.now nodes result }
{
    let literals = literals_of(session, numbers)?;
    let said = session.solve_under(&literals, nodes);
    session.keep_literals(literals);
    said
}

/// Asks why nothing is feasible under literals that are given by their numbers.
fn explain(
    session: &mut Session,
    numbers: &[i32],
    nodes: Option<u64>,
) -> Result<Explanation, SessionFault>
    ensures { AsksWhy session.old session.new numbers.now nodes result }
{
    let literals = literals_of(session, numbers)?;
    let said = session.explain(&literals, nodes);
    session.keep_literals(literals);
    said
}

/// Asks which variables are fixed under literals that are given by their numbers.
fn fixed(
    session: &mut Session,
    numbers: &[i32],
    among: Among,
    nodes: Option<u64>,
) -> Result<Fixed, SessionFault>
    ensures { AsksFixed session.old session.new numbers.now among nodes result }
{
    let literals = literals_of(session, numbers)?;
    let said = session.fixed(&literals, among, nodes);
    session.keep_literals(literals);
    said
}

/// The literals of the numbers, in the room that the session keeps for them. Fails, and changes nothing, with `Unended` where a
/// sum is not ended, with `BadVariable` where a number stands for no literal, and with `Memory` where memory is refused.
fn literals_of(session: &mut Session, numbers: &[i32]) -> Result<Vec<Lit>, SessionFault>
    ensures literals { IfOk result (λ literals. map number_of literals.items ≡ numbers.now) }
    ensures accepted { OnOk result (All IsVariable numbers.now) }
    ensures unchanged { session.new ≡ session.old }
    ensures unended { IsErrOf result SessionFault.Unended ↔ (session.old.terms ≢ []) }
    ensures refused { IfErr result (RefusesQuestion session.old numbers.now) }
{
    if session.has_terms() {
        return Err(SessionFault::Unended);
    }
    let mut literals = session.take_literals();
    match push_literals(&mut literals, numbers) {
        Ok(()) => Ok(literals),
        Err(fault) => {
            session.keep_literals(literals);
            Err(fault)
        }
    }
}

/// Puts the literals of the numbers into the room, up to the first that is refused.
fn push_literals(room: &mut Vec<Lit>, numbers: &[i32]) -> Result<(), SessionFault>
    requires { room.old.items ≡ [] }
    ensures literals { OnOk result (map number_of room.new.items ≡ numbers.now) }
    ensures accepted { OnOk result (All IsVariable numbers.now) }
    ensures bad { IsErrOf result (SessionFault.Statement InstFault.BadVariable) → ¬ All IsVariable numbers.now }
    ensures other { IfErr result (λ fault. (fault ≡ SessionFault.Statement InstFault.BadVariable) ⊎ (fault ≡ SessionFault.Statement InstFault.Memory)) }
{
    for number in numbers {
        if room.push(literal_of(*number)?).is_err() {
            return Err(SessionFault::Statement(InstFault::Memory));
        }
    }
    Ok(())
}

/// Suggests the values, one byte for each variable.
fn suggest(alloc: Global, session: &mut Session, values: &[u8]) -> i32
    ensures { Suggests session.old session.new values.now result }
{
    if values.len() != session.vars() as usize {
        return BAD_LENGTH;
    }
    if !values.iter().all(|value| *value <= 1) {
        return BAD_ARGUMENT;
    }
    match assignment_of(alloc, values, session.vars()) {
        Ok(assignment) => code_of(session.suggest(&assignment)),
        Err(_) => MEMORY,
    }
}

/// The assignment that makes exactly the variables true whose byte is 1. Fails where memory is refused.
fn assignment_of(alloc: Global, values: &[u8], vars: u32) -> Result<Assignment, Memory>
    requires { length values.now ≡ vars }
    ensures { IfOk result (λ assignment. length assignment ≡ vars) }
{
    let mut assignment = Assignment::new(alloc, vars)?;
    for place in 0..vars {
        assignment.set(place + 1, values[place as usize] == 1);
    }
    Ok(assignment)
}
