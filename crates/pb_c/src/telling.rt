//! The codes of what a question learned, and what is written of it into a caller's room. Where nothing is known nothing is
//! written, so the code by itself says what may be read.
ghost use Rattle.std.specs.Prelude.{◌≡◌, ◌≢◌, ◌↔◌, ◌⊎◌, length, All, IsTrue};
ghost use Rattle.pb_questions.specs.declared.fixing.VariableStatus.TheVariants as known;
ghost use Rattle.pb_c.specs.Questions.{status_number, KnownCode, TellsExplanation, TellsFixed, TellsWhy, WritesLiterals, WritesStatuses};

use crate::codes::{CORE, SATISFIABLE, UNKNOWN, UNSATISFIABLE, code_of_fault};
use crate::literals::number_of;
use pb_inst::Lit;
use pb_questions::{Core, Explanation, Fixed, VariableStatus};
use pb_session::SessionFault;

/// The code of why nothing is feasible, or of why this was not told. Where there is a core, its literals are written as far as
/// there is room, and how many they are; else nothing is written.
pub(crate) fn tell_why(
    said: Result<Explanation, SessionFault>,
    room: &mut [i32],
    count: &mut usize,
) -> i32
    ensures { TellsWhy said room.old room.new count.old count.new result }
{
    match said {
        Ok(Explanation::Feasible) => SATISFIABLE,
        Ok(Explanation::Core(core)) => tell_core(&core, room, count),
        Ok(Explanation::Cut) => UNKNOWN,
        Err(fault) => code_of_fault(fault),
    }
}

/// Writes a core, and answers its code.
fn tell_core(core: &Core, room: &mut [i32], count: &mut usize) -> i32
    ensures { TellsExplanation (Explanation.Core core.now) room.old room.new count.old count.new result }
{
    write_literals(&core.literals, room);
    *count = core.literals.len();
    if core.is_minimal { UNSATISFIABLE } else { CORE }
}

/// Writes as many of the literals' numbers as the room takes.
fn write_literals(literals: &[Lit], room: &mut [i32])
    ensures { WritesLiterals literals.now room.old room.new }
{
    for place in 0..literals.len().min(room.len()) {
        room[place] = number_of(literals[place]);
    }
}

/// The code of which variables are fixed, or of why this was not told. The statuses are written, as far as there is room.
pub(crate) fn tell_fixed(said: Result<Fixed, SessionFault>, room: &mut [u8]) -> i32
    ensures { TellsFixed said room.old room.new result }
{
    match said {
        Ok(Fixed::Infeasible) => UNSATISFIABLE,
        Ok(Fixed::Variables(statuses)) => tell_statuses(&statuses, room),
        Err(fault) => code_of_fault(fault),
    }
}

/// Writes the statuses, and answers their code.
fn tell_statuses(statuses: &[VariableStatus], room: &mut [u8]) -> i32
    ensures code { KnownCode statuses.now result }
    ensures written { WritesStatuses statuses.now room.old room.new }
{
    write_statuses(statuses, room);
    if are_known(statuses) {
        SATISFIABLE
    } else {
        UNKNOWN
    }
}

/// Writes as many of the statuses' numbers as the room takes.
fn write_statuses(statuses: &[VariableStatus], room: &mut [u8])
    ensures { WritesStatuses statuses.now room.old room.new }
{
    for place in 0..statuses.len().min(room.len()) {
        room[place] = number_of_status(statuses[place]);
    }
}

/// Whether each status is known.
fn are_known(statuses: &[VariableStatus]) -> bool
    ensures { IsTrue result ↔ All (λ status. status ≢ known.Unknown) statuses.now }
{
    statuses
        .iter()
        .all(|status| *status != VariableStatus::Unknown)
}

/// The number of a status.
fn number_of_status(status: VariableStatus) -> u8
    ensures { result ≡ status_number status }
{
    match status {
        VariableStatus::FixedFalse => 0,
        VariableStatus::FixedTrue => 1,
        VariableStatus::Free => 2,
        VariableStatus::Unknown => 3,
    }
}
