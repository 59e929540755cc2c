//! Solving, and reading out what was found.
ghost use Rattle.std.specs.Prelude.{◌≡◌, length, None, Some};
ghost use Rattle.pb_c.specs.Codes.{ran_code};
ghost use Rattle.pb_inst.specs.Incumbent.{Solution};
ghost use Rattle.pb_c.specs.Copied.{copied_into};
ghost use Rattle.pb_c.specs.Called.{OnHeld, Solves, TellsCost, TellsValue, budget, bytes_of, cost_text, vars_of};

use crate::codes::{
    BAD_VARIABLE, EMPTY, GREATEST_COST, LEAST_COST, NO_ANSWER, OK, OUT_OF_RANGE, code_of_answer,
    code_of_fault,
};
use crate::copying::copy_out;
use crate::solver::Solver;
use itoa::Buffer;
use pb_inst::Number;
use pb_session::{Session, SessionFault};
use pb_solve::Ran;
use std::alloc::Global;

/// Searches for the least assignment, with at most `nodes` decisions where that is below 2^64 - 1, and else without a limit.
#[unsafe(no_mangle)]
pub extern "C" fn pb_c_solve(alloc: Global, solver: &mut Solver, nodes: u64) -> i32
    ensures { OnHeld solver.old.session.held solver.new.session.held result (λ old new. Solves old new nodes result) }
{
    let Some(mut session) = solver.take(alloc) else {
        return EMPTY;
    };
    let code = code_of_run(session.solve(budget_of(nodes)));
    solver.put(session);
    code
}

/// Tells the cost of what was found, where it fits.
#[unsafe(no_mangle)]
pub extern "C" fn pb_c_cost(alloc: Global, solver: &mut Solver, cost: &mut i64) -> i32
    ensures cost { OnHeld solver.old.session.held solver.new.session.held result (λ old new. (new ≡ old) × TellsCost old.found cost.old cost.new result) }
    ensures empty { solver.old.session.held ≡ None → cost.new ≡ cost.old }
{
    let Some(session) = solver.take(alloc) else {
        return EMPTY;
    };
    let found = session.cost();
    solver.put(session);
    match found {
        Some(found) => tell_cost(found, cost),
        None => NO_ANSWER,
    }
}

/// Writes the cost of what was found, in decimal, as far as there is room, and answers the number of its bytes: 0 where nothing
/// was found.
#[unsafe(no_mangle)]
pub extern "C" fn pb_c_cost_text(alloc: Global, solver: &mut Solver, room: &mut [u8]) -> usize
    ensures unchanged { solver.new.session.held ≡ solver.old.session.held }
    ensures all { result ≡ length (bytes_of solver.old.session.held (λ told. cost_text told.found)) }
    ensures copied { room.new ≡ copied_into room.old (bytes_of solver.old.session.held (λ told. cost_text told.found)) }
{
    let Some(session) = solver.take(alloc) else {
        return copy_out(b"", room);
    };
    let found = session.cost();
    solver.put(session);
    match found {
        Some(cost) => copy_out(Buffer::new().format(cost).as_bytes(), room),
        None => copy_out(b"", room),
    }
}

/// The value of a variable in what was found: 0 or 1.
#[unsafe(no_mangle)]
pub extern "C" fn pb_c_value(alloc: Global, solver: &mut Solver, var: u32) -> i32
    ensures { OnHeld solver.old.session.held solver.new.session.held result (λ old new. (new ≡ old) × TellsValue old.found var result) }
{
    let Some(session) = solver.take(alloc) else {
        return EMPTY;
    };
    let code = value_code(&session, var);
    solver.put(session);
    code
}

/// How many variables the statements name, and 0 where there is no session.
#[unsafe(no_mangle)]
pub extern "C" fn pb_c_variables(alloc: Global, solver: &mut Solver) -> u32
    ensures unchanged { solver.new.session.held ≡ solver.old.session.held }
    ensures variables { result ≡ vars_of solver.old.session.held }
{
    let Some(session) = solver.take(alloc) else {
        return 0;
    };
    let vars = session.vars();
    solver.put(session);
    vars
}

/// The budget that `nodes` stands for: none for the greatest number.
pub(crate) fn budget_of(nodes: u64) -> Option<u64>
    ensures { result ≡ budget nodes }
{
    if nodes == u64::MAX { None } else { Some(nodes) }
}

/// The code of how a search ended, or of why there was none.
pub(crate) fn code_of_run(said: Result<Ran, SessionFault>) -> i32
    ensures { result ≡ ran_code said }
{
    match said {
        Ok(ran) => code_of_answer(ran),
        Err(fault) => code_of_fault(fault),
    }
}

/// Tells a cost where it fits 64 bits.
fn tell_cost(found: Number, cost: &mut i64) -> i32
    ensures { (s : Solution) → s.cost ≡ found → TellsCost (Some s) cost.old cost.new result }
{
    if found < LEAST_COST || GREATEST_COST < found {
        return OUT_OF_RANGE;
    }
    *cost = found as i64;
    OK
}

/// The code of a variable's value.
fn value_code(session: &Session, var: u32) -> i32
    ensures { TellsValue session.now.found var result }
{
    match session.value(var) {
        Some(value) => i32::from(value),
        None if session.cost().is_none() => NO_ANSWER,
        None => BAD_VARIABLE,
    }
}
