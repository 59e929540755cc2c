//! Texts in memory, and their reports.
ghost use Rattle.std.specs.Prelude.{◌≡◌, length};
ghost use Rattle.pb_c.specs.Copied.{copied_into};
ghost use Rattle.pb_c.specs.Called.{OnHeld, Runs, bytes_of};

use crate::answers::{budget_of, code_of_run};
use crate::codes::{BAD_ARGUMENT, EMPTY};
use crate::copying::copy_out;
use crate::literals::format_of;
use crate::solver::Solver;
use pb_session::Session;
use std::alloc::Global;

/// Solves a text by itself, and keeps its report.
#[unsafe(no_mangle)]
pub extern "C" fn pb_c_run(
    alloc: Global,
    solver: &mut Solver,
    format: i32,
    text: &[u8],
    nodes: u64,
) -> i32
    ensures { OnHeld solver.old.session.held solver.new.session.held result (λ old new. Runs old new format text.now nodes result) }
{
    let Some(mut session) = solver.take(alloc) else {
        return EMPTY;
    };
    let code = run(&mut session, format, text, nodes);
    solver.put(session);
    code
}

/// Writes the report of the last text, as far as there is room, and answers the number of its bytes: 0 before any text.
#[unsafe(no_mangle)]
pub extern "C" fn pb_c_report(alloc: Global, solver: &mut Solver, room: &mut [u8]) -> usize
    ensures unchanged { solver.new.session.held ≡ solver.old.session.held }
    ensures all { result ≡ length (bytes_of solver.old.session.held (λ told. told.report)) }
    ensures copied { room.new ≡ copied_into room.old (bytes_of solver.old.session.held (λ told. told.report)) }
{
    let Some(session) = solver.take(alloc) else {
        return copy_out(b"", room);
    };
    let len = copy_out(session.report(), room);
    solver.put(session);
    len
}

/// Solves a text in the format of this number.
fn run(session: &mut Session, format: i32, text: &[u8], nodes: u64) -> i32
    ensures { Runs session.old session.new format text.now nodes result }
{
    match format_of(format) {
        Some(format) => code_of_run(session.run_text(format, text, budget_of(nodes))),
        None => BAD_ARGUMENT,
    }
}
