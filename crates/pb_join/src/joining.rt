//! Joining the reports of all pieces into one.
ghost use Rattle.std.specs.Prelude.{◌≡◌, ◌≢◌, ◌≤◌, ◌↔◌, List, IfOk, IfErr, IsErrOf, IsTrue, All, false, true};
ghost use Rattle.pb_inst.specs.Literal.{Literal};
ghost use Rattle.pb_report.specs.Outcome.{Answers};
ghost use Rattle.pb_join.specs.Joining.{AreFit, AreStates, IsJoinFault, TellsFirst};
ghost use Rattle.pb_join.specs.Pieces.{AreOfPieces};
ghost use Rattle.pb_join.specs.Costs.{AreLeastOfPieces, AnswersLeastCost};

use crate::faults::JoinFault;
use crate::gathering::gather;
use crate::reports::PieceReport;
use crate::states::PieceState;
use crate::writing::report_joined;
use pb_inst::Instance;
use pb_read::Format;
use pb_report::{Device, Status};
use std::alloc::Global;
use std::io::Write;

/// How a report that was joined ended, and what became of each piece.
#[derive(Drop)]
pub struct Joined {
    /// What the written report says.
    pub status: Status,
    /// Whether every piece is done, so that the report is written as the answer; else it is written as what was found.
    pub whole: bool,
    /// What became of each piece, by its number.
    pub states: Vec<PieceState>,
}

/// Joins the reports of the pieces of an instance, of which there are `pieces`, 1 or more, and writes and flushes the report of
/// the whole. Each piece was solved somewhere as an instance of its own.
///
/// Where every piece has one report that claims to be its answer, the least assignment of them all is written as the answer: with
/// `s OPTIMUM FOUND`, or `s SATISFIABLE` where there is no objective; `s UNSATISFIABLE` where no report has one. Where each claim
/// is right, this is the report of the whole instance byte for byte. Where each has the least cost of its piece, but perhaps not
/// the first assignment of that cost, the cost is that of the whole. Where a piece has no report, or one that does not claim to
/// be its answer, the best assignment is written with `s SATISFIABLE` and its cost, or `s UNKNOWN` alone. Whatever is claimed, an
/// assignment that is written is feasible, and its cost is its own.
///
/// The first report that no piece can have is rejected, and then nothing is written; nor is anything where memory is refused.
/// After `Write`, which comes exactly where the device has failed, any part of the report may have been written.
pub fn join<W: Write>(
    alloc: Global,
    format: Format,
    instance: &Instance,
    pieces: u32,
    reports: &[PieceReport],
    out: &mut Device<W>,
) -> Result<Joined, JoinFault>
    requires some { 1 ≤ pieces }
    requires out { out.old.failed ≡ false }

    ensures headline { (cubes : List (List Literal)) → AreOfPieces instance.now pieces reports.now cubes
        → IfOk result (λ joined. joined.whole ≡ true
        → Answers format instance.now (W.contents out.old.held) (W.contents out.new.held) joined.status) }

    ensures least_cost { (cubes : List (List Literal)) → AreLeastOfPieces instance.now pieces reports.now cubes
        → IfOk result (λ joined. joined.whole ≡ true
        → AnswersLeastCost format instance.now (W.contents out.old.held) (W.contents out.new.held) joined.status) }

    ensures first { IfOk result (λ joined. TellsFirst format instance.now reports.now joined.whole
        (W.contents out.old.held) (W.contents out.new.held) joined.status) }

    ensures whole { IfOk result (λ joined. IsTrue joined.whole ↔ All (λ state. state ≡ PieceState.Done) joined.states.items) }
    ensures states { IfOk result (λ joined. AreStates instance.now pieces reports.now joined.states.items) }
    ensures fit { IfOk result (λ joined. AreFit instance.now pieces reports.now) }
    ensures refused { IfErr result (λ fault. IsJoinFault instance.now pieces reports.now fault) }
    ensures write { IsTrue out.new.failed ↔ IsErrOf result JoinFault.Write }
    ensures unwritten { IfErr result (λ fault. fault ≢ JoinFault.Write → out.new ≡ out.old) }
{
    let gathered = gather(alloc, instance, pieces, reports)?;
    let whole = are_all_done(&gathered.states);
    let Ok(status) = report_joined(out, format, instance, whole, &gathered.best) else {
        return Err(JoinFault::Write);
    };
    Ok(Joined {
        status,
        whole,
        states: gathered.states,
    })
}

fn are_all_done(states: &[PieceState]) -> bool
    ensures { IsTrue result ↔ All (λ state. state ≡ PieceState.Done) states.now }
{
    states.iter().all(|state| *state == PieceState::Done)
}
