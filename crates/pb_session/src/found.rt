//! What a search found, kept apart from the instance.

ghost use Rattle.std.specs.Prelude.{◌≡◌, false, true};
ghost use Rattle.std.specs.Option.{option_map};
ghost use Rattle.pb_session.specs.Found.{solution, whole_status, cut_status};

use pb_inst::{Assignment, Best, Number};
use pb_report::Status;

/// A feasible assignment and its cost.
#[derive(Drop)]
pub struct Found {
    pub cost: Number,
    pub values: Assignment,
}

/// What was held, in the room that held it; or that room, where nothing was.
pub(crate) fn found_or_room(best: Best<'_>) -> (Option<Found>, Option<Assignment>)
    ensures { option_map solution result.0 ≡ best.entry.held }
{
    match best.cost() {
        Some(cost) => {
            let values = best.into_room();
            (Some(Found { cost, values }), None)
        }
        None => (None, Some(best.into_room())),
    }
}

/// How a search of an instance ends.
pub(crate) fn ended_as(has_objective: bool, cut: bool, found: bool) -> Status
    ensures whole { cut ≡ false → result ≡ whole_status has_objective found }
    ensures cut { cut ≡ true → result ≡ cut_status found }
{
    match (cut, found) {
        (true, true) => Status::Satisfiable,
        (true, false) => Status::Unknown,
        (false, false) => Status::Unsatisfiable,
        (false, true) if has_objective => Status::Optimum,
        (false, true) => Status::Satisfiable,
    }
}
